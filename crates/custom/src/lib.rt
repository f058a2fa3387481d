// A kind and a method of a user's own: whatever keeps the stated meanings is proved with everything else.
#![tactic(auto)]

mod above; // a method that takes the range with the smaller upper end
mod leaving; // a kind that leaves everything over

pub use above::TighterAbove;
pub use leaving::LeavingKind;
