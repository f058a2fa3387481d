// The pairs of a product as they come, gathered into a model in one pass.
ghost use Rattle.std.specs.Prelude.{◌≡◌, ◌+◌, ◌<◌, ◌≤◌, ◌&&◌, [], ◌∷◌, length, ◌≤ℤ◌, OnOk, OnErr};
ghost use Rattle.std.specs.List.{AllByRecursion};
ghost use Rattle.interval.specs.Interval.{Fits, fits};
ghost use Rattle.taylor.specs.Form.{InPlaces};
ghost use Rattle.taylor.specs.Gathering.{held, no_pairs, roomy, tally_of, Open, Factor, Took};
ghost use Rattle.taylor.specs.Model.{unpacked};
ghost use Rattle.taylor.specs.Product.{pair as pair_of, row, keep, cut};

use crate::arithmetic::Arithmetic;
use crate::model::ModelRecord;
use crate::tally::TallyRecord;
use interval::{Interval, Kind, Reason};
use polynomial::{Term, enter, reach};
use table::{degree, product};

// A pair: the product of the monomials, with the hull.
fn pair<K: Kind>(kind: &K, p: Term, q: Term) -> Term
    requires { (Factor p) × (Factor q) }
    ensures value { result ≡ pair_of (K.meaning kind.now).scale p q }
{
    let monomial = product(p.monomial, q.monomial);
    Term {
        monomial,
        coefficient: p.coefficient.times(q.coefficient, kind.scale()),
    }
}

// A kept pair's hull is split: the coefficient joins its monomial's, the leftover's reach the remainder.
fn keep<K: Kind>(model: &mut ModelRecord, kind: &K, pair: Term) -> Result<(), Reason>
    requires form { Open model.old }
    requires fit { Fits pair.coefficient }
    ensures value { result ≡ roomy (keep (K.meaning kind.now) (unpacked model.old) pair) }
    ensures after { OnOk result (unpacked model.new ≡ keep (K.meaning kind.now) (unpacked model.old) pair) }
    ensures packs { OnOk result (InPlaces model.new) }
    ensures refused { OnErr result (model.new ≡ model.old) }
{
    let (coefficient, leftover) = kind.split(pair.coefficient);
    let term = Term {
        coefficient,
        ..pair
    };
    let count = enter(&mut model.terms, model.count, term).ok_or(Reason::TooManyMonomials)?;
    model.count = count;
    model.remainder = model.remainder.plus(reach(pair.monomial, leftover));
    Ok(())
}

// The reach of a cut pair's hull joins the remainder.
fn cut(model: &mut ModelRecord, pair: Term)
    requires form { Open model.old }
    requires fit { Fits pair.coefficient }
    ensures after { model.new ≡ record { count = model.old.count; terms = model.old.terms; remainder = (cut (unpacked model.old) pair).remainder } }
{
    model.remainder = model.remainder.plus(reach(pair.monomial, pair.coefficient));
}

// A hull that does not fit is noted, and held as [0, 0].
fn hold(fit: &mut bool, pair: Term) -> Term
    ensures value { result ≡ held pair }
    ensures after { fit.new ≡ (fit.old && fits pair.coefficient) }
{
    if pair.coefficient.fits() {
        return pair;
    }
    *fit = false;
    Term {
        coefficient: Interval::ZERO,
        ..pair
    }
}

impl TallyRecord {
    // Before the first pair.
    pub fn new() -> TallyRecord
        ensures value { tally_of result ≡ no_pairs }
    {
        TallyRecord {
            model: ModelRecord::zero(),
            pairs: 0,
            clean: true,
            fit: true,
        }
    }

    // A pair of at most the order's degree is kept, any other cut.
    fn take<K: Kind, M>(&mut self, by: &Arithmetic<'_, K, M>, pair: Term) -> Result<(), Reason>
        requires few { self.old.pairs < 1600 }
        requires ends { pair.coefficient.lower ≤ℤ pair.coefficient.upper }
        ensures took { Took (K.meaning by.now.kind.now) by.now.order self.old (pair ∷ []) result self.new }
    {
        let pair = hold(&mut self.fit, pair);
        self.pairs += 1;
        if degree(pair.monomial) <= by.order {
            return keep(&mut self.model, by.kind, pair);
        }
        self.clean = false;
        cut(&mut self.model, pair);
        Ok(())
    }

    // The pairs of one term.
    pub fn take_row<K: Kind, M>(
        &mut self,
        by: &Arithmetic<'_, K, M>,
        p: Term,
        qs: &[Term],
    ) -> Result<(), Reason>
        requires few { self.old.pairs + length qs.now ≤ 1600 }
        requires factors { (Factor p) × (AllByRecursion Factor qs.now) }
        ensures took { Took (K.meaning by.now.kind.now) by.now.order self.old (row (K.meaning by.now.kind.now).scale p qs.now) result self.new }
    {
        for q in qs {
            self.take(by, pair(by.kind, p, *q))?;
        }
        Ok(())
    }
}
