// Which words say which call of a small function.
use crate::answer::Answer;
use crate::fault::Fault;
use crate::ranges::range_of;
use crate::rows::search_row;
use crate::words::Words;
use batch::KindChoice;
use interval::{Interval, Kind, Variable, compare};
use polynomial::reach;
use std::alloc::Global;
use table::TotalOrder;

// By the call's name. A match, since a table of the same names would need pointers to functions.
pub fn answer(heap: Global, call: &str) -> Result<Answer, Fault> {
    let (name, arguments) = call.split_once(' ').ok_or(Fault::Unreadable)?;
    let words = Words::from(arguments);
    match name {
        "hull" => hull(words),
        "compare" => compare_reals(words),
        "variable" => variable(words),
        "times" => times(words),
        "split" => split(words),
        "reach" => reach_under(words),
        "order" => order(words),
        "ranging" => range_of(heap, arguments),
        "search" => search_row(heap, arguments),
        _ => Err(Fault::Unreadable),
    }
}

fn hull(mut words: Words) -> Result<Answer, Fault> {
    let scale = words.scale()?;
    let x = words.real()?;
    words.end()?;
    Ok(match Interval::hull(x, scale) {
        Some(i) => Answer::Accepted(i.lower, i.upper),
        None if x.is_finite() => Answer::Unfit,
        None => Answer::NotFinite,
    })
}

fn compare_reals(mut words: Words) -> Result<Answer, Fault> {
    let a = words.real()?;
    let b = words.real()?;
    words.end()?;
    let rank = compare(a, b).ok_or(Fault::Unreadable)?;
    Ok(Answer::Rank(rank))
}

fn variable(mut words: Words) -> Result<Answer, Fault> {
    let scale = words.scale()?;
    let lower = words.real()?;
    let upper = words.real()?;
    words.end()?;
    Ok(match Variable::new(lower, upper, scale) {
        Ok(v) => Answer::Accepted(v.centre, v.half),
        Err(reason) => Answer::Refused(reason),
    })
}

fn times(mut words: Words) -> Result<Answer, Fault> {
    let scale = words.scale()?;
    let a = words.fitting()?;
    let b = words.fitting()?;
    words.end()?;
    Ok(Answer::Ends(a.times(b, scale)))
}

fn split(mut words: Words) -> Result<Answer, Fault> {
    let kind = KindChoice::named(words.word()?).ok_or(Fault::Unreadable)?;
    let whole = words.fitting()?;
    words.end()?;
    let (coefficient, leftover) = kind.split(whole);
    Ok(Answer::Parts(coefficient, leftover))
}

fn reach_under(mut words: Words) -> Result<Answer, Fault> {
    let monomial = words.monomial()?;
    let i = words.fitting()?;
    words.end()?;
    Ok(Answer::Ends(reach(monomial, i)))
}

fn order(mut words: Words) -> Result<Answer, Fault> {
    let a = words.monomial()?;
    let b = words.monomial()?;
    words.end()?;
    Ok(Answer::Rank(a.compare(b)))
}
