// What an opening is given.
use formula::Ends;

// The order, the ends of each variable, and the allowance of pairs: any numbers, which the rules accept or refuse.
#[derive(Clone, Copy)]
pub struct Opening<'a> {
    pub order: u64,
    pub ends: &'a [Ends],
    pub allowance: u64,
}
