// Figures, row by row.
ghost use Rattle.std.specs.Prelude.{◌≡◌};

use crate::comparing::compare;
use crate::kind::Kind;
use crate::kinds::{FixedKind, IntervalKind, WholeKind};
use crate::marks::Interval;
use crate::reason::Reason;
use crate::refusal::Refusal;
use crate::scale::Scale;
use crate::variable::Variable;
use std::cmp::Ordering;
use std::test::Fail;

// As in the tests of other crates, which share no code with these.
fn span(lower: i64, upper: i64) -> Interval
    ensures { result ≡ record { lower = lower; upper = upper } }
{
    Interval { lower, upper }
}

// Where both fit.
fn product(marks: u32, i: Interval, j: Interval) -> Option<Interval> {
    let scale = Scale::new(marks)?;
    if i.lower > i.upper || j.lower > j.upper {
        return None;
    }
    if i.fits() && j.fits() {
        return Some(i.times(j, scale));
    }
    None
}

#[test]
fn products_round_outward(rt: HostRuntime) {
    let rows = [
        (1, span(2, 3), span(4, 5), span(8, 15)),
        (1, span(-2, 3), span(-5, 4), span(-15, 12)),
        (65536, span(1, 1), span(1, 1), span(0, 1)),
        (65536, span(-1, -1), span(1, 1), span(-1, 0)),
        (16, span(-7, 0), span(-2147483647, 6), span(-3, 939524096)),
        (
            128,
            span(0, 2147483647),
            span(-690043725, -9213),
            span(-11577012618378634, 0),
        ),
        (
            1,
            span(-2147483647, 2147483647),
            span(2147483647, 2147483647),
            span(-4611686014132420609, 4611686014132420609),
        ),
    ];
    for (marks, i, j, expected) in rows {
        assert_eq!(rt; product(marks, i, j), Some(expected));
    }
}

fn hull(marks: u32, x: f64) -> Option<Interval> {
    Interval::hull(x, Scale::new(marks)?)
}

#[test]
fn hulls_hold_the_value(rt: HostRuntime) {
    let rows = [
        (1, 0.1, Some(span(0, 1))),
        (65536, 0.1, Some(span(6553, 6554))),
        (1, -0.1, Some(span(-1, 0))),
        (1, -0.0, Some(span(0, 0))),
        (65536, 5e-324, Some(span(0, 1))),
        (65536, -5e-324, Some(span(-1, 0))),
        (1, 2147483647.0, Some(span(2147483647, 2147483647))),
        (1, -2147483647.0, Some(span(-2147483647, -2147483647))),
        (1, 2147483646.5, Some(span(2147483646, 2147483647))),
        (1, 2147483647.5, None),
        (1, -2147483648.0, None),
        (
            65536,
            32767.9999847412109375,
            Some(span(2147483647, 2147483647)),
        ),
        (65536, 32768.0, None),
        (1, f64::INFINITY, None),
        (1, f64::NEG_INFINITY, None),
        (1, f64::NAN, None),
        (3, 0.1, None),
    ];
    for (marks, x, expected) in rows {
        assert_eq!(rt; hull(marks, x), expected);
    }
}

// Centre and half width, or the number of the refusal.
fn variable(marks: u32, lower: f64, upper: f64) -> Result<(i64, i64), u8> {
    let scale = Scale::new(marks).ok_or(0)?;
    Variable::new(lower, upper, scale)
        .map(|v| (v.centre, v.half))
        .map_err(Reason::number)
}

#[test]
fn variables_are_centred(rt: HostRuntime) {
    let rows = [
        (1, 0.0, 6.0, Ok((3, 3))),
        (1, 0.0, 5.0, Ok((2, 3))),
        (16, 1.875, 1.875, Ok((30, 0))),
        (1, 0.0, -0.0, Ok((0, 0))),
        (1, -2147483647.0, 2147483646.0, Ok((-1, 2147483647))),
        (1, f64::NAN, 0.0, Err(4)),
        (1, 6.0, f64::NEG_INFINITY, Err(4)),
        (1, 3e9, 1.0, Err(5)),
        (1, 0.0, 2147483647.5, Err(6)),
        (65536, -32768.0, 0.0, Err(6)),
    ];
    for (marks, lower, upper, expected) in rows {
        assert_eq!(rt; variable(marks, lower, upper), expected);
    }
}

#[test]
fn numbers_compare(rt: HostRuntime) {
    let rows = [
        (0.1, 0.2, Some(Ordering::Less)),
        (-5e-324, -0.125, Some(Ordering::Greater)),
        (-0.0, 0.0, Some(Ordering::Equal)),
        (f64::NAN, 0.0, None),
        (0.0, f64::INFINITY, None),
    ];
    for (a, b, expected) in rows {
        assert_eq!(rt; compare(a, b), expected);
    }
}

#[test]
fn splits_add_up(rt: HostRuntime) {
    let i = span(-7, 5);
    assert_eq!(rt; WholeKind.split(i), (span(-7, -7), span(0, 12)));
    assert_eq!(rt; FixedKind.split(i), (span(-7, -7), span(0, 12)));
    assert_eq!(rt; IntervalKind.split(i), (i, span(0, 0)));
}

#[test]
fn refusals_are_written(rt: HostRuntime) -> Result<(), Fail> {
    let refusal = Refusal {
        reason: Reason::DoesNotFit,
        line: 2,
        place: 5,
    };
    let text = refusal.to_string(rt.alloc())?;
    assert_eq!(rt;
        text.as_str(),
        "refused 33 at line 2, place 5: a product or a tested model does not fit"
    );
    Ok(())
}
