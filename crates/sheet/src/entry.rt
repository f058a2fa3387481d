// An entry of a run.
use crate::turn::{Answer, Turn};
use interval::Refusal;

// A turn, how many working records it is lent, and room for its answer.
#[derive(Clone, Copy)]
pub struct Entry<'a> {
    pub turn: Turn<'a>,
    pub lent: usize,
    pub answer: Option<Result<Answer, Refusal>>,
}
