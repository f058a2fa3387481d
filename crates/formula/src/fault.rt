// Why a formula is refused, and where.
use interval::Reason;

// The place is a byte of the text, or the number of a variable.
#[derive(Clone, Copy, Debug, PartialEq, Eq)]
pub struct Fault {
    pub reason: Reason,
    pub place: usize,
}
