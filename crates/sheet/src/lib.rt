// The sheet: a box, lines and accounts, changed by turns.
#![tactic(auto)]

mod account; // the pairs of an office
mod adding; // adding a line
mod charging; // charging an office
mod entry; // an entry of a run
mod given; // what an opening is given
mod laws; // what a sheet keeps, as theorems
mod line; // the record of a line
mod looks; // looks at what stands
mod marking; // which lines use a variable
mod opening; // opening a sheet
mod readings; // a line's model and range, an account's pairs
mod record; // the record of a sheet
mod refusing; // refusals, and what several turns test
mod sheet; // a sheet, with its kind and its method
mod striking; // striking the newest line
mod turn; // what a sheet is asked and answers

pub use account::Account;
pub use formula::work_keeps_lines_sound;
pub use laws::{figures_stand, lines_are_consistent, logs_lead_to_sheets, promise_holds};
