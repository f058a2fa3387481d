// What a sheet keeps through all turns: each function's contract is a theorem, and it does no work.
ghost use Rattle.sheet.specs.Reached.{RunsReach, ReachedOnce};
ghost use Rattle.sheet.specs.Promise.{Promised};
ghost use Rattle.sheet.specs.Consistency.{Consistent, InnerEndsFit};
ghost use Rattle.sheet.specs.Figures.{FiguresStand};
ghost use Rattle.sheet.specs.LargerFigures.{LargerFiguresStand};

// A list of turns after an accepted opening reaches the sheet after them, and a log leads to one sheet.
pub fn logs_lead_to_sheets()
    ensures laws { RunsReach × ReachedOnce }
{}

// Whatever the turns were, the lines are what the standing texts give from the standing box, and no narrowing brings an end that
// does not fit.
pub fn lines_are_consistent()
    ensures laws { Consistent × InnerEndsFit }
{}

// Every sheet that an opening and turns lead to keeps the promise, whatever the kind and the method.
pub fn promise_holds()
    ensures laws { Promised }
{}

// The worked figures are what the definitions compute.
pub fn figures_stand()
    ensures laws { FiguresStand × LargerFiguresStand }
{}
