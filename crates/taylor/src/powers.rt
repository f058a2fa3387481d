// Powers of models.
ghost use Rattle.std.specs.Prelude.{◌≡◌, true, Ok};
ghost use Rattle.interval.specs.Reason.{and_then};
ghost use Rattle.taylor.specs.Arithmetic.{one};
ghost use Rattle.taylor.specs.Keeping.{room};
ghost use Rattle.taylor.specs.Model.{packed, unpacked, tested};
ghost use Rattle.taylor.specs.Product.{worked, raised, power};
ghost use Rattle.taylor.specs.Record.{Held, Ready, recorded_worked};

use crate::arithmetic::Arithmetic;
use crate::constants::constant;
use crate::model::ModelRecord;
use crate::testing::test;
use crate::worked::WorkedRecord;
use interval::{Interval, Kind, Reason};
use ranging::Ranging;

// One unit.
fn one<K: Kind>(kind: &K) -> ModelRecord
    ensures value { result ≡ packed (one (K.meaning kind.now)) }
{
    let marks = i64::from(kind.scale().marks());
    constant(kind, Interval::point(marks))
}

// A tested model that took no pairs.
fn alone<M: Ranging>(method: &M, model: &ModelRecord) -> Result<WorkedRecord, Reason>
    requires { Held room model.now }
    ensures value { result ≡ recorded_worked (and_then (tested (M.meaning method.now) (unpacked model.now)) (λ N. Ok (worked N 0 true))) }
{
    test(method, model)?;
    Ok(WorkedRecord {
        model: *model,
        pairs: 0,
        clean: true,
    })
}

impl<K: Kind, M: Ranging> Arithmetic<'_, K, M> {
    // The operand, multiplied by itself so many times more.
    #[tactic(auto, unfolding(crate::specs::Product::raised))]
    fn raised(&self, more: u8, operand: &ModelRecord) -> Result<WorkedRecord, Reason>
        requires operand { Ready (M.Ranging.meaning self.now.method.now) operand.now }
        ensures value { result ≡ recorded_worked (raised (K.Kind.meaning self.now.kind.now) (M.Ranging.meaning self.now.method.now) self.now.order more (worked (unpacked operand.now) 0 true) (unpacked operand.now)) }
    {
        let mut worked = WorkedRecord {
            model: *operand,
            pairs: 0,
            clean: true,
        };
        for _done in 0..more {
            worked = self.times(&worked, operand)?;
        }
        Ok(worked)
    }

    // Power 0 is one unit, power 1 the operand, a higher power the one below it times the operand; each is tested.
    #[tactic(auto, unfolding(crate::specs::Product::power))]
    pub fn power(&self, exponent: u8, operand: &ModelRecord) -> Result<WorkedRecord, Reason>
        requires operand { Ready (M.Ranging.meaning self.now.method.now) operand.now }
        ensures value { result ≡ recorded_worked (power (K.Kind.meaning self.now.kind.now) (M.Ranging.meaning self.now.method.now) self.now.order exponent (unpacked operand.now)) }
    {
        match exponent {
            0 => alone(self.method, &one(self.kind)),
            1 => alone(self.method, operand),
            _ => self.raised(exponent - 1, operand),
        }
    }
}
