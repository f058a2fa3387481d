// The record of a model.
ghost use Rattle.std.specs.Prelude.{◌≡◌, ◌≤◌, length};
ghost use Rattle.interval.specs.Interval.{limit};
ghost use Rattle.polynomial.specs.Method as Method;
ghost use Rattle.taylor.specs.Model.{zero_record, unpacked, full_range};
ghost use Rattle.taylor.specs.Record.{Held};

use interval::Interval;
use polynomial::{Polynomial, Term, ZERO_TERM};
use ranging::Ranging;

// `count` terms, zero terms after them, and the remainder. Fixed memory that callers lend and have read into, as plain as it is: what is
// asked of one differs from call to call (how large its ends are, which method's test it has passed), and so stands in `requires`.
#[derive(Clone, Copy)]
pub struct ModelRecord {
    pub count: usize,
    pub terms: [Term; 40],
    pub remainder: Interval,
}

impl ModelRecord {
    // No terms, and nothing left over.
    pub fn zero() -> ModelRecord
        ensures value { result ≡ zero_record }
    {
        ModelRecord {
            count: 0,
            terms: [ZERO_TERM; 40],
            remainder: Interval::ZERO,
        }
    }

    // The terms in use.
    pub fn used(&self) -> &[Term]
        requires { self.now.count ≤ length self.now.terms }
        ensures value { result.now ≡ (unpacked self.now).terms }
    {
        &self.terms[..self.count]
    }

    // The method's range of the polynomial.
    pub(crate) fn polynomial_range<M: Ranging>(&self, method: &M) -> Interval
        requires room { self.now.count ≤ length self.now.terms }
        requires polynomial { Method.Polynomial (unpacked self.now).terms }
        ensures value { result ≡ (M.meaning method.now).range (unpacked self.now).terms }
    {
        method.range(Polynomial { terms: self.used() })
    }

    // The method's range of the polynomial plus the remainder.
    pub fn range<M: Ranging>(&self, method: &M) -> Interval
        requires { Held limit self.now }
        ensures value { result ≡ full_range (M.meaning method.now) (unpacked self.now) }
    {
        self.polynomial_range(method).plus(self.remainder)
    }
}
