// Terms in a lent slice whose first `count` places are in use: records in fixed memory keep both.
ghost use Rattle.std.specs.Prelude.{◌≡◌, ◌≤◌, length, take, is_some, if◌then◌else◌};
ghost use Rattle.std.specs.List.{AllByRecursion};
ghost use Rattle.interval.specs.Interval.{Summable};
ghost use Rattle.table.specs.Slice.{over, packed};
ghost use Rattle.polynomial.specs.Reach.{zero_term, with_term, dropped};
ghost use Rattle.polynomial.specs.Terms.{all_fit, new_count};

use crate::term::{Term, ZERO_TERM};
use table::Table;

pub fn all_fit(terms: &[Term]) -> bool
    ensures value { result ≡ all_fit terms.now }
{
    terms.iter().all(|term| term.coefficient.fits())
}

// A term joins the one of its monomial, or takes its place. Answers how many are in use then, or None where no place is left.
pub fn enter(terms: &mut [Term], count: usize, term: Term) -> Option<usize>
    requires room { count ≤ length terms.old }
    requires joins { AllByRecursion (λ u. Summable u.coefficient × Summable term.coefficient) (take count terms.old) }
    ensures value { result ≡ new_count (length terms.old) (with_term (take count terms.old) term) }
    ensures after { terms.new ≡ (if is_some result then over (with_term (take count terms.old) term) terms.old else terms.old) }
{
    let mut table = Table {
        entries: terms,
        count,
    };
    table.enter(term).ok()?;
    Some(table.count)
}

// Drops terms of [0, 0], and answers how many are in use then.
pub fn drop_zeros(terms: &mut [Term], count: usize) -> usize
    requires { count ≤ length terms.old }
    ensures value { result ≡ length (dropped (take count terms.old)) }
    ensures after { terms.new ≡ over (packed count zero_term (dropped (take count terms.old))) terms.old }
{
    let mut table = Table {
        entries: terms,
        count,
    };
    table.sweep(ZERO_TERM);
    table.count
}
