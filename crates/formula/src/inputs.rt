// What a formula is given.

// The lower and the upper end of a variable, as given.
// A pair, as the definitions of boxes and openings take it: a struct would only name its two parts again.
pub type Ends = (f64, f64);
