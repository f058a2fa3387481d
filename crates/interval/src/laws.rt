// What intervals promise, each law on a function that does nothing else.
ghost use Rattle.interval.specs.Enclosure.{HullHolds, HullNearest, OrderExact, HullMonotone};
ghost use Rattle.interval.specs.Enclosure.{SumEncloses, DifferenceEncloses, NegationEncloses, ProductEncloses, MeetEncloses};
ghost use Rattle.interval.specs.Enclosure.{EvenReachEncloses, FullReachEncloses, SplitSelects};
ghost use Rattle.interval.specs.Reason.{NumbersDistinct, EqualByNumber};

use crate::reason::Reason;

// Two reasons with one number are one reason, and `==` tells just that.
pub fn numbers_are_distinct()
    ensures laws { NumbersDistinct }
    ensures equality { EqualByNumber ⟦<Reason as PartialEq>⟧.eq }
{}

// A hull has the floor and the ceiling of the value in marks, and hulls keep the order of binary64, which is that of the exact values.
pub fn hulls_hold()
    ensures laws { HullHolds × HullNearest × OrderExact × HullMonotone }
{}

// Sums, differences, products and meets enclose the exact ones, at every fraction.
pub fn arithmetic_encloses()
    ensures laws { SumEncloses × DifferenceEncloses × NegationEncloses × ProductEncloses × MeetEncloses }
{}

// A number of an interval times one from 0 to 1, or from -1 to 1, lies in its reach.
pub fn reaches_enclose()
    ensures laws { EvenReachEncloses × FullReachEncloses }
{}

// Whatever the kind, a number of an interval is one of the coefficient plus one of the leftover.
pub fn splits_select()
    ensures laws { SplitSelects }
{}
