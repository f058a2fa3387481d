// Readings: a line's model, a line's range, an account's pairs.
ghost use Rattle.std.specs.Prelude.{◌≡◌};
ghost use Rattle.sheet.specs.Records.{granted, read_into};
ghost use Rattle.sheet.specs.Reading.{read_model, read_range, read_account};

use crate::record::SheetRecord;
use crate::refusing::refuse;
use interval::{Interval, Reason, Refusal};
use ranging::Ranging;
use table::search;
use taylor::ModelRecord;

impl SheetRecord {
    // A refused reading leaves the caller's record as it was.
    pub fn read_model(&self, number: u64, out: &mut ModelRecord) -> Result<(), Refusal>
        ensures value { result ≡ granted (read_model self.now number) }
        ensures after { out.new ≡ read_into out.old (read_model self.now number) }
    {
        let here = self
            .line_at(number)
            .ok_or(refuse(Reason::NoLineToRead, number))?;
        *out = here.worked.model;
        Ok(())
    }

    pub fn read_range<M: Ranging>(&self, method: &M, number: u64) -> Result<Interval, Refusal>
        ensures value { result ≡ read_range (M.meaning method.now) self.now number }
    {
        let here = self
            .line_at(number)
            .ok_or(refuse(Reason::NoLineToRead, number))?;
        Ok(here.worked.model.range(method))
    }

    // The office is not tested otherwise.
    pub fn read_pairs(&self, office: u64) -> Result<u64, Refusal>
        ensures value { result ≡ read_account self.now office }
    {
        let accounts = &self.accounts[0..self.offices];
        let at = search(accounts, office).map_err(|_| refuse(Reason::NoAccount, 0))?;
        Ok(accounts[at].pairs)
    }
}
