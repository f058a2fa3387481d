// The test of a model.
ghost use Rattle.std.specs.Prelude.{◌≡◌};
ghost use Rattle.taylor.specs.Keeping.{room};
ghost use Rattle.taylor.specs.Model.{unpacked, tested};
ghost use Rattle.taylor.specs.Record.{Held, passed};

use crate::model::ModelRecord;
use interval::Reason;
use polynomial::all_fit;
use ranging::Ranging;

// Coefficients, remainder, the method's range, and that range plus the remainder must all fit.
#[tactic(auto, unfolding(crate::specs::Model::tested))]
pub fn test<M: Ranging>(method: &M, model: &ModelRecord) -> Result<(), Reason>
    requires { Held room model.now }
    ensures value { result ≡ passed (tested (M.meaning method.now) (unpacked model.now)) }
{
    if !all_fit(model.used()) || !model.remainder.fits() {
        return Err(Reason::DoesNotFit);
    }
    let range = model.polynomial_range(method);
    if !range.fits() || !range.plus(model.remainder).fits() {
        return Err(Reason::DoesNotFit);
    }
    Ok(())
}
