// Adding a line to a sheet.
ghost use Rattle.std.specs.Prelude.{◌≡◌, ◌<◌, true, length};
ghost use Rattle.sheet.specs.Posting.{with_line};
ghost use Rattle.sheet.specs.Records.{line_of};
ghost use Rattle.sheet.specs.Shape.{LineShape};
ghost use Rattle.sheet.specs.State.{can_charge, affordable};

use crate::line::LineRecord;
use crate::record::SheetRecord;

impl SheetRecord {
    // The line comes last, and its pairs are charged.
    pub fn add_line(&mut self, newest: LineRecord)
        requires formed { LineShape newest }
        requires space { length self.old.lines < 12 }
        requires room { can_charge self.old newest.office ≡ true }
        requires paid { affordable self.old newest.worked.pairs ≡ true }
        ensures after { self.new ≡ with_line self.old (line_of newest) }
    {
        self.charge(newest.office, newest.worked.pairs);
        let number = self.standing;
        self.lines[number] = newest;
        self.standing = number + 1;
    }
}
