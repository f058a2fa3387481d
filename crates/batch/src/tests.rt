// Figures, row by row.
use crate::decimal::Decimal;
use crate::desk::Desk;
use crate::factors::monomial_of;
use crate::fault::{Fault, Mistake};
use crate::kind::KindChoice;
use crate::method::MethodChoice;
use crate::statement::{Statement, is_name, read_statement};
use crate::words::words_of;
use interval::{Kind, Reason, Scale};
use std::alloc::{AllocError, Global};
use std::test::Fail;

#[test]
fn words_are_cut(rt: HostRuntime) -> Result<(), Fail> {
    let rows = [
        ("", 0),
        ("   ", 0),
        ("# range", 0),
        ("range", 1),
        ("  term 1.5  x^2 y ", 4),
        ("order 3# term", 2),
        ("order 3 #4", 2),
    ];
    for (line, count) in rows {
        assert_eq!(rt; words_of(rt.alloc(), line)?.len(), count);
    }
    let words = words_of(rt.alloc(), " input x\t-0.5 1e3")?;
    let number = words.as_slice().last().and_then(|word| word.number);
    assert_eq!(rt; number, Some(1000.0));
    Ok(())
}

#[test]
fn names_are_told(rt: HostRuntime) {
    let rows = [
        ("x", true),
        ("x_1", true),
        ("X9", true),
        ("", false),
        ("_x", false),
        ("1x", false),
        ("x-y", false),
        ("x^2", false),
    ];
    for (text, expected) in rows {
        assert_eq!(rt; is_name(text), expected);
    }
}

#[test]
fn statements_are_read(rt: HostRuntime) -> Result<(), Fail> {
    let rows = [
        ("", Ok(Statement::Nothing)),
        ("kind whole", Ok(Statement::Kind(KindChoice::Whole))),
        ("kind real", Err(Fault::Mistaken(Mistake::KindForm, ""))),
        ("kind", Err(Fault::Mistaken(Mistake::KindForm, ""))),
        (
            "method meet quadratic plain",
            Ok(Statement::Method(MethodChoice::Both)),
        ),
        (
            "method meet plain plain",
            Ok(Statement::Method(MethodChoice::Plain)),
        ),
        (
            "method meet plain",
            Err(Fault::Mistaken(Mistake::MethodForm, "")),
        ),
        (
            "method plain plain",
            Err(Fault::Mistaken(Mistake::MethodForm, "")),
        ),
        ("order +8", Ok(Statement::Order(8))),
        ("order -8", Err(Fault::Mistaken(Mistake::OrderForm, ""))),
        (
            "input x -1 2.5",
            Ok(Statement::Input {
                name: "x",
                low: -1.0,
                high: 2.5,
            }),
        ),
        (
            "input 2x 0 1",
            Err(Fault::Mistaken(Mistake::NotAName, "2x")),
        ),
        (
            "input x 0 one",
            Err(Fault::Mistaken(Mistake::NotANumber, "one")),
        ),
        ("input x 0", Err(Fault::Mistaken(Mistake::InputForm, ""))),
        ("term", Err(Fault::Mistaken(Mistake::TermForm, ""))),
        ("term x", Err(Fault::Mistaken(Mistake::NotANumber, "x"))),
        ("range", Ok(Statement::Range)),
        ("range x", Err(Fault::Mistaken(Mistake::RangeForm, ""))),
        (
            "Range",
            Err(Fault::Mistaken(Mistake::UnknownStatement, "Range")),
        ),
    ];
    for (line, expected) in rows {
        let words = words_of(rt.alloc(), line)?;
        assert_eq!(rt; read_statement(words.as_slice()), expected);
    }
    Ok(())
}

// A line of the batch.
fn take<'a>(heap: Global, desk: &mut Desk, line: &'a str) -> Result<(), Fault<'a>> {
    let words = words_of(heap, line)?;
    let statement = read_statement(words.as_slice())?;
    desk.take(heap, statement)
}

#[test]
fn statements_are_taken(rt: HostRuntime) -> Result<(), Fail> {
    let heap = rt.alloc();
    let mut desk = Desk::new(heap);
    let rows = [
        ("order 9", Err(Fault::Refused(Reason::OrderOutOfRange, ""))),
        ("order 2", Ok(())),
        ("kind whole", Ok(())),
        ("input x 0 6", Ok(())),
        ("kind fixed", Err(Fault::Mistaken(Mistake::LateKind, ""))),
        ("input x 1 2", Err(Fault::Mistaken(Mistake::NameTaken, "x"))),
        ("input y 2 1", Err(Fault::Refused(Reason::EndsCrossed, "y"))),
        ("term 3 x", Ok(())),
        ("term -3 x^1", Ok(())),
        ("term 2 x^2", Ok(())),
        (
            "term 1 x x^2",
            Err(Fault::Mistaken(Mistake::AboveOrder, "x^2")),
        ),
        (
            "term 1e10",
            Err(Fault::Refused(Reason::ConstantDoesNotFit, "")),
        ),
        ("range", Ok(())),
    ];
    for (line, expected) in rows {
        assert_eq!(rt; take(heap, &mut desk, line), expected);
    }
    assert_eq!(rt; desk.closed.as_slice().len(), 1);
    assert_eq!(rt; desk.draft.as_slice().len(), 0);
    Ok(())
}

#[test]
fn factors_multiply(rt: HostRuntime) -> Result<(), Fail> {
    let heap = rt.alloc();
    let mut desk = Desk::new(heap);
    for line in ["input x 0 1", "input y 0 1", "input z 0 1"] {
        assert_eq!(rt; take(heap, &mut desk, line), Ok(()));
    }
    let rows = [
        ("", Ok([0, 0, 0, 0, 0, 0])),
        ("x y^2 x", Ok([2, 2, 0, 0, 0, 0])),
        ("z^0 y", Ok([0, 1, 0, 0, 0, 0])),
        ("x^8", Ok([8, 0, 0, 0, 0, 0])),
        ("x^9", Err(Fault::Refused(Reason::ExponentTooLarge, "x^9"))),
        ("x^", Err(Fault::Mistaken(Mistake::NotAFactor, "x^"))),
        ("y w", Err(Fault::Mistaken(Mistake::NoInput, "w"))),
        ("x^4 y^5", Err(Fault::Mistaken(Mistake::AboveOrder, "y^5"))),
    ];
    for (line, expected) in rows {
        let words = words_of(heap, line)?;
        assert_eq!(rt; monomial_of(&desk.inputs, 8, words.as_slice()), expected);
    }
    Ok(())
}

// The decimal number of so many marks, written.
fn written(heap: Global, marks: u32, number: i64) -> Result<String, AllocError> {
    let scale = Scale::new(marks).unwrap_or(KindChoice::Fixed.scale());
    Decimal::of_marks(number, scale).to_string(heap)
}

#[test]
fn decimals_are_written(rt: HostRuntime) -> Result<(), Fail> {
    let rows = [
        (1, 0, "0"),
        (1, -12, "-12"),
        (2, 3, "1.5"),
        (16, -1, "-0.0625"),
        (65536, 1, "0.0000152587890625"),
        (65536, 65537, "1.0000152587890625"),
        (65536, -32768, "-0.5"),
    ];
    for (marks, number, expected) in rows {
        assert_eq!(rt; written(rt.alloc(), marks, number)?.as_str(), expected);
    }
    Ok(())
}

#[test]
fn faults_are_written(rt: HostRuntime) -> Result<(), Fail> {
    let rows = [
        (
            Fault::Mistaken(Mistake::RangeForm, ""),
            "range takes nothing",
        ),
        (
            Fault::Mistaken(Mistake::NoInput, "w"),
            "no input is named w",
        ),
        (
            Fault::Refused(Reason::OrderOutOfRange, ""),
            "refusal 1: the order is not from 1 to 8",
        ),
        (
            Fault::Refused(Reason::EndsCrossed, "y"),
            "refusal 5: the lower end is above the upper end: y",
        ),
    ];
    for (fault, expected) in rows {
        assert_eq!(rt; fault.to_string(rt.alloc())?.as_str(), expected);
    }
    Ok(())
}
