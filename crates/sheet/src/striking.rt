// Striking the newest line.
ghost use Rattle.std.specs.Prelude.{◌≡◌};
ghost use Rattle.sheet.specs.State.{outcome};
ghost use Rattle.sheet.specs.Striking.{strike};

use crate::line::LineRecord;
use crate::record::SheetRecord;
use crate::refusing::{is_known_office, refuse};
use interval::{Reason, Refusal};

impl SheetRecord {
    // Only the office that posted it may strike it; its record becomes zero, and the accounts stay.
    pub fn strike(&mut self, office: u64) -> Result<(), Refusal>
        ensures value { outcome self.new result ≡ strike self.old office }
    {
        if !is_known_office(office) {
            return Err(refuse(Reason::OfficeOutOfRange, 0));
        }
        if self.standing == 0 {
            return Err(refuse(Reason::NoLineToStrike, 0));
        }
        let newest = self.standing - 1;
        if self.lines[newest].office != office {
            return Err(refuse(Reason::PostedByAnother, newest as u64));
        }
        self.lines[newest] = LineRecord::zero();
        self.standing = newest;
        Ok(())
    }
}
