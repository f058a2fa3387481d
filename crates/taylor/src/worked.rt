// What was worked out: a model, with the pairs that this made.
use crate::model::ModelRecord;

// `clean` where no pair was cut: told beside the model, which holds either way. Plain, as the record of a model is.
#[derive(Clone, Copy)]
pub struct WorkedRecord {
    pub model: ModelRecord,
    pub pairs: u64,
    pub clean: bool,
}
