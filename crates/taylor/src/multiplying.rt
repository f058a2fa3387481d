// Products of models.
ghost use Rattle.std.specs.Prelude.{◌≡◌, ◌*◌, ◌^◌, ◌<◌, Ok};
ghost use Rattle.interval.specs.Interval.{Sized};
ghost use Rattle.interval.specs.Kind.{twice_limit};
ghost use Rattle.interval.specs.Reason.{require};
ghost use Rattle.interval.specs.declared.reason.Reason.TheVariants.{DoesNotFit};
ghost use Rattle.taylor.specs.Gathering.{product_tally, completed, tally_of, counted, told};
ghost use Rattle.taylor.specs.Model.{unpacked};
ghost use Rattle.taylor.specs.Product.{range_remainder, three_fit, joint_remainder, times_worked};
ghost use Rattle.taylor.specs.Record.{Ready, recorded, worked_of, recorded_worked};

use crate::arithmetic::Arithmetic;
use crate::model::ModelRecord;
use crate::tally::TallyRecord;
use crate::testing::test;
use crate::worked::WorkedRecord;
use interval::{Interval, Kind, Reason};
use polynomial::drop_zeros;
use ranging::Ranging;

// One product: how it is worked, and its two operands.
#[derive(Drop)]
struct Product<'a, K: Kind, M: Ranging> {
    by: &'a Arithmetic<'a, K, M>,
    a: &'a ModelRecord,
    b: &'a ModelRecord,
    ghost first: { ∥ Ready (M.Ranging.meaning by.now.method.now) a.now ∥₁ },
    ghost second: { ∥ Ready (M.Ranging.meaning by.now.method.now) b.now ∥₁ },
}

impl<K: Kind, M: Ranging> Product<'_, K, M> {
    // The pairs of all terms, row by row.
    fn gathered(&self) -> Result<TallyRecord, Reason>
        ensures { told result ≡ counted (product_tally (K.Kind.meaning self.now.by.now.kind.now) self.now.by.now.order (unpacked self.now.a.now) (unpacked self.now.b.now)) }
    {
        let mut tally = TallyRecord::new();
        for p in self.a.used() {
            tally.take_row(self.by, *p, self.b.used())?;
        }
        Ok(tally)
    }

    // The range of the one polynomial times the other remainder.
    fn range_remainder(&self) -> Interval
        ensures value { result ≡ range_remainder (K.Kind.meaning self.now.by.now.kind.now) (M.Ranging.meaning self.now.by.now.method.now) (unpacked self.now.a.now) (unpacked self.now.b.now) }
    {
        let range = self.a.polynomial_range(self.by.method);
        range.times(self.b.remainder, self.by.kind.scale())
    }

    // Adds the products of ranges and remainders to what the pairs leave over, if all three fit.
    fn joint_remainder(&self, left: Interval) -> Result<Interval, Reason>
        requires { Sized (1600 * twice_limit) left }
        ensures value { result ≡ require (three_fit (K.Kind.meaning self.now.by.now.kind.now) (M.Ranging.meaning self.now.by.now.method.now) (unpacked self.now.a.now) (unpacked self.now.b.now)) DoesNotFit (Ok (joint_remainder (K.Kind.meaning self.now.by.now.kind.now) (M.Ranging.meaning self.now.by.now.method.now) (unpacked self.now.a.now) (unpacked self.now.b.now) left)) }
    {
        let swapped = Product {
            by: self.by,
            a: self.b,
            b: self.a,
        };
        let first = self.range_remainder();
        let second = swapped.range_remainder();
        let third = self
            .a
            .remainder
            .times(self.b.remainder, self.by.kind.scale());
        if !first.fits() || !second.fits() || !third.fits() {
            return Err(Reason::DoesNotFit);
        }
        Ok(left.plus(first).plus(second).plus(third))
    }

    // Drops [0, 0] from the gathered terms and adds the remainders up, if every hull fits.
    #[tactic(auto, unfolding(crate::specs::Gathering::completed))]
    fn completed(&self, tally: &TallyRecord) -> Result<ModelRecord, Reason>
        ensures value { result ≡ recorded (completed (K.Kind.meaning self.now.by.now.kind.now) (M.Ranging.meaning self.now.by.now.method.now) (tally_of tally.now) (unpacked self.now.a.now) (unpacked self.now.b.now)) }
    {
        if !tally.fit {
            return Err(Reason::DoesNotFit);
        }
        let remainder = self.joint_remainder(tally.model.remainder)?;
        let mut terms = tally.model.terms;
        let count = drop_zeros(&mut terms, tally.model.count);
        Ok(ModelRecord {
            count,
            terms,
            remainder,
        })
    }
}

impl<K: Kind, M: Ranging> Arithmetic<'_, K, M> {
    // A tested product joins what was worked before.
    pub fn times(&self, worked: &WorkedRecord, by: &ModelRecord) -> Result<WorkedRecord, Reason>
        requires pairs { worked.now.pairs < 2 ^ 32 }
        requires first { Ready (M.Ranging.meaning self.now.method.now) worked.now.model }
        requires second { Ready (M.Ranging.meaning self.now.method.now) by.now }
        ensures value { result ≡ recorded_worked (times_worked (K.Kind.meaning self.now.kind.now) (M.Ranging.meaning self.now.method.now) self.now.order (worked_of worked.now) (unpacked by.now)) }
    {
        let product = Product {
            by: self,
            a: &worked.model,
            b: by,
        };
        let tally = product.gathered()?;
        let model = product.completed(&tally)?;
        test(self.method, &model)?;
        Ok(WorkedRecord {
            model,
            pairs: worked.pairs + tally.pairs,
            clean: worked.clean && tally.clean,
        })
    }
}
