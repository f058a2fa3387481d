// Polynomials in a lent slice.
ghost use Rattle.polynomial.specs.Method.{Polynomial};
ghost use Rattle.polynomial.specs.Facts.{polynomial_once};

use crate::term::Term;

// At most 40 terms that ascend by degree, none [0, 0], whose coefficients fit: what a method ranges over.
#[derive(Clone, Copy)]
pub struct Polynomial<'a> {
    pub terms: &'a [Term],
    ghost sound: { Polynomial terms.now } by { polynomial_once terms.now },
}
