// A sheet.
use crate::record::SheetRecord;

// A kind and a method of the user's, with the record that they are asked about.
pub struct Sheet<K, M> {
    pub(crate) kind: K,
    pub(crate) method: M,
    pub(crate) contents: SheetRecord,
}
