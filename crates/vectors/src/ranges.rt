// A method's range of a polynomial.
use crate::answer::Answer;
use crate::fault::Fault;
use crate::operands::polynomial_of;
use crate::words::Words;
use batch::{MethodChoice, words_of};
use polynomial::Term;
use ranging::Ranging;
use std::alloc::Global;

// `METHOD : TERMS MONOMIAL LOW HIGH ..`
pub fn range_of(heap: Global, arguments: &str) -> Result<Answer, Fault> {
    let (spelling, polynomial) = arguments.split_once(" : ").ok_or(Fault::Unreadable)?;
    let words = words_of(heap, spelling)?;
    let method = MethodChoice::spelled(words.as_slice()).ok_or(Fault::Unreadable)?;
    let terms = read_terms(heap, Words::from(polynomial))?;
    let polynomial = polynomial_of(terms.as_slice()).ok_or(Fault::Unreadable)?;
    Ok(Answer::Ends(method.range(polynomial)))
}

// Their number first, then each monomial with its coefficient.
fn read_terms(heap: Global, mut words: Words) -> Result<Vec<Term>, Fault> {
    let count = words.word()?.parse::<usize>()?;
    let mut terms = Vec::new(heap);
    for _ in 0..count {
        let monomial = words.monomial()?;
        let coefficient = words.fitting()?;
        terms.push(Term {
            monomial,
            coefficient,
        })?;
    }
    words.end()?;
    Ok(terms)
}
