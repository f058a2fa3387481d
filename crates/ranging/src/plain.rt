// The plain range: the reach of each term, added up.
ghost use Rattle.std.specs.Prelude.{◌≡◌};
ghost use Rattle.polynomial.specs.Method.{plain};
ghost use Rattle.ranging.specs.Addable.{Addable};
ghost use Rattle.ranging.specs.NamedMethods.{plain_method};

use crate::method::Ranging;
use interval::Interval;
use polynomial::{Polynomial, Term, reach};

// The reaches added up.
#[derive(Clone, Copy, Debug)]
pub struct Plain;

// The plain range of any coefficients up to 2^48: they need not fit. A loop of its own over the terms, by a rule of the project; it shares
// three lines with the quadratic range, fewer than the contract of a function that took the part of a term as a closure.
pub fn plain_range(terms: &[Term]) -> Interval
    requires { Addable terms.now }
    ensures value { result ≡ plain terms.now }
{
    let mut range = Interval::ZERO;
    for t in terms {
        range = range.plus(reach(t.monomial, t.coefficient));
    }
    range
}

impl Ranging for Plain {
    ghost meaning = { λ _. plain_method };

    fn range(&self, polynomial: Polynomial<'_>) -> Interval {
        plain_range(polynomial.terms)
    }
}
