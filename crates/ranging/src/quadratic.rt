// The quadratic range: each term's part, added up.
ghost use Rattle.std.specs.Prelude.{◌≡◌};
ghost use Rattle.polynomial.specs.Quadratic.{quadratic};
ghost use Rattle.ranging.specs.NamedMethods.{quadratic_method};

use crate::method::Ranging;
use crate::pairs::part;
use interval::Interval;
use polynomial::Polynomial;

// As plain, with a joint range for a linear and a square term of one variable.
#[derive(Clone, Copy, Debug)]
pub struct Quadratic;

// A loop of its own, as the plain range has, which says why.
pub fn quadratic_range(polynomial: Polynomial<'_>) -> Interval
    ensures value { result ≡ quadratic polynomial.entry.terms.now }
{
    let mut range = Interval::ZERO;
    for t in polynomial.terms {
        range = range.plus(part(polynomial, *t));
    }
    range
}

impl Ranging for Quadratic {
    ghost meaning = { λ _. quadratic_method };

    fn range(&self, polynomial: Polynomial<'_>) -> Interval {
        quadratic_range(polynomial)
    }
}
