// The coefficient at a monomial.
ghost use Rattle.std.specs.Prelude.{◌≡◌};
ghost use Rattle.polynomial.specs.Reach.{coefficient_at};

use crate::term::Term;
use interval::Interval;
use table::{Monomial, search};

// [0, 0] where no term has the monomial.
pub fn coefficient_at(terms: &[Term], monomial: Monomial) -> Interval
    ensures value { result ≡ coefficient_at terms.now monomial }
{
    match search(terms, monomial) {
        Ok(at) => terms[at].coefficient,
        Err(_) => Interval::ZERO,
    }
}
