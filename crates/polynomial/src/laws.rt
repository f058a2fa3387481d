// The laws of values, reaches and ranges: the functions here only carry them.
ghost use Rattle.polynomial.specs.Laws.{ValuesBetween, ReachEncloses, JointEncloses, JointNarrows};
ghost use Rattle.polynomial.specs.Laws.{PlainLawful, QuadraticLawful, MeetLawful, EqualByParts};

use crate::term::Term;

// `==` tells of two terms that both parts are equal, which only holds of a term and itself.
pub fn terms_are_told_apart()
    ensures equality { EqualByParts ⟦<Term as PartialEq>⟧.eq }
{}

// A polynomial's value lies between its two ends, whichever number each coefficient stands for.
pub fn values_hold()
    ensures laws { ValuesBetween }
{}

// A reach holds the interval times the monomial at every unit point.
pub fn reaches_hold()
    ensures laws { ReachEncloses }
{}

// A joint range holds its quadratic on the unit interval, and is no wider than the two reaches.
pub fn joint_ranges_hold()
    ensures laws { JointEncloses × JointNarrows }
{}

// The plain range, the quadratic range and every meet hold the value and lie within the plain range.
pub fn methods_hold()
    ensures laws { PlainLawful × QuadraticLawful × MeetLawful }
{}
