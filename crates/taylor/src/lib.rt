// Taylor models: their records, their arithmetic, and what it keeps.
#![tactic(auto)]

mod arithmetic; // kind, method and order
mod constants; // constants and variables
mod gathering; // the pairs of a product, as they come
mod laws; // what the arithmetic keeps, as theorems
mod model; // the record of a model
mod multiplying; // products
mod powers; // powers
mod sums; // sums and differences
mod tally; // what pairs are gathered into
mod testing; // the test of a model
mod worked; // a model with the pairs that it made

pub use arithmetic::Arithmetic;
pub use constants::{constant, variable};
pub use laws::{
    arithmetic_encloses, forms_are_kept, points_hold, records_hold_models, whole_kind_is_exact,
};
pub use model::ModelRecord;
pub use sums::{difference, sum};
pub use testing::test;
pub use worked::WorkedRecord;
