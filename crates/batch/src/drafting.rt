// How terms come into a polynomial.
ghost use Rattle.std.specs.Prelude.{◌≡◌, [], is_ok, if◌then◌else◌};
ghost use Rattle.interval.specs.Interval.{Fits};
ghost use Rattle.polynomial.specs.Method.{Ranges};
ghost use Rattle.polynomial.specs.Reach.{with_term, dropped};
ghost use Rattle.batch.specs.Drafts.{admitted};
ghost use Rattle.batch.specs.DraftTerms.{terms_of};

use crate::draft::Draft;
use interval::{Interval, Reason};
use polynomial::{Polynomial, Term, ZERO_TERM, all_fit, drop_zeros, enter};
use ranging::Ranging;

impl Draft {
    pub fn new() -> Draft
        ensures value { terms_of result ≡ [] }
    {
        Draft {
            terms: [ZERO_TERM; 40],
            count: 0,
        }
    }

    // The terms in use, as `used` of a model's record: one line each, and no type is common to both.
    pub fn as_slice(&self) -> &[Term]
        ensures value { result.now ≡ terms_of self.now }
    {
        &self.terms[0..self.count]
    }

    // A term joins the one of its monomial, or takes its place.
    #[tactic(auto, unfolding(crate::specs::Drafts::admitted))]
    pub fn enter(&mut self, term: Term) -> Result<(), Reason>
        requires { Fits term.coefficient }
        ensures value { result ≡ admitted (terms_of self.old) term }
        ensures after { terms_of self.new ≡ (if is_ok result then with_term (terms_of self.old) term else terms_of self.old) }
    {
        let mut terms = self.terms;
        let count = enter(&mut terms, self.count, term).ok_or(Reason::TooManyMonomials)?;
        if !all_fit(&terms[0..count]) {
            return Err(Reason::DoesNotFit);
        }
        *self = Draft { terms, count };
        Ok(())
    }

    // Without the terms of [0, 0].
    pub fn reduced(&self) -> Draft
        ensures value { terms_of result ≡ dropped (terms_of self.now) }
    {
        let mut terms = self.terms;
        let count = drop_zeros(&mut terms, self.count);
        Draft { terms, count }
    }

    // The range of the polynomial without its terms of [0, 0].
    pub fn range<M: Ranging>(&self, method: &M) -> Interval
        ensures value { result ≡ (M.meaning method.now).range (dropped (terms_of self.now)) }
        ensures laws { Ranges (dropped (terms_of self.now)) result }
    {
        method.range(Polynomial {
            terms: self.reduced().as_slice(),
        })
    }
}
