// What the arithmetic of models keeps: each function's contract is a theorem, and it does no work.
ghost use Rattle.interval.specs.NamedKinds.{whole_kind};
ghost use Rattle.taylor.specs.Keeping.{FormsKept, TablesKept, Packing};
ghost use Rattle.taylor.specs.Enclosure.{ArithmeticEncloses, PointsHold};
ghost use Rattle.taylor.specs.Exactness.{Whole, WholeExact, PointsExact};

// A model and its record say the same.
pub fn records_hold_models()
    ensures laws { Packing }
{}

// Results are in normal form, of bounded degree and with bounded ends, and so are the tables on the way to them.
pub fn forms_are_kept()
    ensures laws { FormsKept × TablesKept }
{}

// A point of the box has unit coordinates from -1 to 1, and a variable's model carries its mark.
pub fn points_hold()
    ensures laws { PointsHold }
{}

// Each operation carries the exact outcome of what its operands carry, and what is carried is enclosed.
pub fn arithmetic_encloses()
    ensures laws { ArithmeticEncloses }
{}

// In the whole kind, what cuts no pair keeps points and leaves nothing over; such a model has the exact value.
pub fn whole_kind_is_exact()
    ensures laws { Whole whole_kind × WholeExact × PointsExact }
{}
