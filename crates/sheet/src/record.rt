// The record of a sheet, without its kind and its method.
use crate::account::Account;
use crate::line::LineRecord;
use interval::Variable;
use std::marker::Model;

// Each array is in use up to its count: the variables to `inputs`, the lines to `standing`, the accounts to `offices`.
// A sheet has fixed memory, so these are arrays with counts and no `Vec`.
#[derive(Clone, Copy)]
pub struct SheetRecord {
    pub order: u32,
    pub allowance: u64,
    pub inputs: usize,
    pub variables: [Variable; 6],
    pub standing: usize,
    pub lines: [LineRecord; 12],
    pub offices: usize,
    pub accounts: [Account; 8],
}

// It is seen as the state that it holds, and keeps its shape.
impl Model for SheetRecord {
    ghost use Rattle.sheet.specs.State.{State};

    ghost Value = { State };

    ghost use Rattle.sheet.specs.Records.{state_of, record_of};
    ghost use Rattle.sheet.specs.Shape.{Shape};
    ghost use Rattle.sheet.specs.Recorded.{same_record};

    ghost view = { state_of };

    ghost invariant = { Shape };

    ghost inverse = { record_of };

    ghost inverse_ok = { same_record };
}
