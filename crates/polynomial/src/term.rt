// Terms, and how they lie in a table.
ghost use Rattle.std.proofs.Common.{rules};
ghost use Rattle.interval.specs.Interval.{Summable, is_zero};
ghost use Rattle.polynomial.specs.Reach.{joined};

use interval::Interval;
use table::{Entry, Monomial};

// A monomial, as six exponents, and its coefficient.
#[derive(Clone, Copy, Debug, PartialEq, Eq)]
pub struct Term {
    pub monomial: Monomial,
    pub coefficient: Interval,
}

// What fills the unused places of a table.
pub const ZERO_TERM: Term = Term {
    monomial: [0; 6],
    coefficient: Interval::ZERO,
};

impl Entry for Term {
    type Key = Monomial;

    ghost keyed = { λ t. t.monomial };

    ghost spent = { λ t. is_zero t.coefficient };

    ghost joined = { joined };

    ghost joinable = { λ t u. Summable t.coefficient × Summable u.coefficient };

    ghost keeps = { Prim.search rules };

    fn key(&self) -> Monomial {
        self.monomial
    }

    fn is_spent(&self) -> bool {
        self.coefficient.is_zero()
    }

    fn join(self, other: Term) -> Term {
        Term {
            coefficient: self.coefficient.plus(other.coefficient),
            ..self
        }
    }
}
