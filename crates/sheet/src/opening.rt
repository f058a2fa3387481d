// Opening a sheet.
ghost use Rattle.std.specs.Prelude.{◌≡◌, ◌≤◌, length, OnOk};
ghost use Rattle.std.specs.List.{AllByRecursion};
ghost use Rattle.interval.specs.Scale.{per_unit};
ghost use Rattle.sheet.specs.Boxes.{boxed, made_box};
ghost use Rattle.sheet.specs.Opening.{opening, open_sheet};
ghost use Rattle.sheet.specs.Shape.{FitVariable};

use crate::account::Account;
use crate::line::LineRecord;
use crate::record::SheetRecord;
use crate::refusing::refuse;
use formula::Ends;
use interval::{Kind, Reason, Refusal, Scale, Variable};

// What stands where no variable does.
const NO_VARIABLE: Variable = Variable {
    lower: 0.0,
    upper: 0.0,
    centre: 0,
    half: 0,
};

// What stands where no account does.
const NO_ACCOUNT: Account = Account {
    office: 0,
    pairs: 0,
};

// The variables that the ends make, one after the other; a refusal has the variable's number as its place, so the loop counts it.
fn variables(scale: Scale, ends: &[Ends]) -> Result<[Variable; 6], Refusal>
    requires { length ends.now ≤ 6 }
    ensures value { result ≡ made_box (per_unit scale) ends.now }
    ensures fit { OnOk result (AllByRecursion FitVariable (boxed (per_unit scale) ends.now)) }
{
    let mut made = [NO_VARIABLE; 6];
    for (i, (lower, upper)) in ends.iter().enumerate() {
        made[i] = Variable::new(*lower, *upper, scale).map_err(|reason| Refusal {
            reason,
            line: 0,
            place: i,
        })?;
    }
    Ok(made)
}

impl SheetRecord {
    // No lines and no accounts.
    pub fn open<K: Kind>(
        kind: &K,
        order: u64,
        ends: &[Ends],
        allowance: u64,
    ) -> Result<SheetRecord, Refusal>
        ensures value { result ≡ open_sheet (K.meaning kind.now) (opening order ends.now allowance) }
    {
        if !(1..=8).contains(&order) {
            return Err(refuse(Reason::OrderOutOfRange, 0));
        }
        if !(1..=6).contains(&ends.len()) {
            return Err(refuse(Reason::VariablesOutOfRange, 0));
        }
        if !(1..=1_000_000_000).contains(&allowance) {
            return Err(refuse(Reason::AllowanceOutOfRange, 0));
        }
        let made = variables(kind.scale(), ends)?;
        Ok(SheetRecord {
            order: order as u32,
            allowance,
            inputs: ends.len(),
            variables: made,
            standing: 0,
            lines: [LineRecord::zero(); 12],
            offices: 0,
            accounts: [NO_ACCOUNT; 8],
        })
    }
}
