// What calls ask of their operands: intervals that fit, and polynomials.
ghost use Rattle.std.specs.Prelude.{◌≡◌, Decides, MatchOption};
ghost use Rattle.std.specs.List.{AllByRecursion};
ghost use Rattle.interval.specs.Interval.{Fits};
ghost use Rattle.polynomial.specs.Method.{FitTerm};
ghost use Rattle.polynomial.specs.Method as Method;
ghost use Rattle.table.specs.Order.{by_degree};
ghost use Rattle.table.specs.Table.{Ascending};

use interval::Interval;
use polynomial::{Polynomial, Term};
use table::TotalOrder;

// The lower end is not above the upper, and both fit.
pub fn is_fitting(i: Interval) -> bool
    ensures value { Decides result (Fits i) }
{
    i.lower <= i.upper && i.fits()
}

// None where the terms are more than 40, do not ascend, or one is [0, 0] or does not fit. An if, since only after the tests the terms may be
// called a polynomial.
pub fn polynomial_of(terms: &[Term]) -> Option<Polynomial<'_>>
    ensures value { MatchOption result (Method.Polynomial terms.now → ⊥) (λ p. p.terms.now ≡ terms.now) }
{
    if terms.len() <= 40 && ascend(terms) && all_fit(terms) {
        Some(Polynomial { terms })
    } else {
        None
    }
}

fn ascend(terms: &[Term]) -> bool
    ensures value { Decides result (Ascending by_degree (λ t. t.monomial) terms.now) }
{
    terms.is_sorted_by(|t, u| t.monomial.compare(u.monomial).is_lt())
}

fn all_fit(terms: &[Term]) -> bool
    ensures value { Decides result (AllByRecursion FitTerm terms.now) }
{
    terms.iter().all(is_fit_term)
}

fn is_fit_term(term: &Term) -> bool
    ensures value { Decides result (FitTerm term.now) }
{
    is_fitting(term.coefficient) && !term.coefficient.is_zero()
}
