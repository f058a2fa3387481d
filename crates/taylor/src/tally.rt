// The record that the pairs of a product are gathered into.
ghost use Rattle.taylor.specs.Form.{Tallied};

use crate::model::ModelRecord;

// The model so far, how many pairs came, whether none was cut, and whether every hull fits.
// `fit` is no refusal yet: more than 40 monomials are refused before a hull that does not fit, so the pairs go on after one.
#[derive(Clone, Copy)]
pub struct TallyRecord {
    pub model: ModelRecord,
    pub pairs: u64,
    pub clean: bool,
    pub fit: bool,
    pub ghost form: { ∥ Tallied pairs model ∥₁ },
}
