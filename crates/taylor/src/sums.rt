// Sums and differences of models.
ghost use Rattle.std.specs.Prelude.{◌≡◌};
ghost use Rattle.interval.specs.Interval.{limit, Summable};
ghost use Rattle.taylor.specs.Arithmetic.{sum, difference, opposite, negated_model};
ghost use Rattle.taylor.specs.Model.{packed, unpacked};
ghost use Rattle.taylor.specs.Record.{Held, recorded};

use crate::model::ModelRecord;
use interval::Reason;
use polynomial::{Term, drop_zeros, enter};

// Adds coefficients and remainders; the monomials of both together are at most 40.
pub fn sum(a: &ModelRecord, b: &ModelRecord) -> Result<ModelRecord, Reason>
    requires first { Held limit a.now }
    requires second { Held limit b.now }
    ensures value { result ≡ recorded (sum (unpacked a.now) (unpacked b.now)) }
{
    let mut terms = a.terms;
    let mut count = a.count;
    for t in b.used() {
        count = enter(&mut terms, count, *t).ok_or(Reason::TooManyMonomials)?;
    }
    let count = drop_zeros(&mut terms, count);
    Ok(ModelRecord {
        count,
        terms,
        remainder: a.remainder.plus(b.remainder),
    })
}

// The same term with the other sign.
fn opposite(t: Term) -> Term
    requires { Summable t.coefficient }
    ensures value { result ≡ opposite t }
{
    Term {
        coefficient: t.coefficient.negated(),
        ..t
    }
}

// The same model with the other sign.
fn negated(a: &ModelRecord) -> ModelRecord
    requires { Held limit a.now }
    ensures value { result ≡ packed (negated_model (unpacked a.now)) }
{
    let mut terms = a.terms;
    for t in terms[..a.count].iter_mut() {
        *t = opposite(*t);
    }
    ModelRecord {
        count: a.count,
        terms,
        remainder: a.remainder.negated(),
    }
}

// Subtracts coefficients and remainders.
pub fn difference(a: &ModelRecord, b: &ModelRecord) -> Result<ModelRecord, Reason>
    requires first { Held limit a.now }
    requires second { Held limit b.now }
    ensures value { result ≡ recorded (difference (unpacked a.now) (unpacked b.now)) }
{
    sum(a, &negated(b))
}
