// What holds of texts and their meaning, whatever the texts.
ghost use Rattle.formula.specs.Written.{ReadsBack};
ghost use Rattle.formula.specs.Laws.{UsesLineByLine, BuiltLineByLine, ExactLineByLine};
ghost use Rattle.formula.specs.Enclose.{FormulasEnclosed};
ghost use Rattle.formula.specs.WorkLaws.{WorkSound, WorkWhole};
ghost use Rattle.formula.specs.Laws.{UsesWhatItIsBuiltFrom, UnusedIsFree};

// Reading the bytes of tokens gives these tokens back. A NaN comes back as a NaN, of no particular sign or payload.
pub fn writing_is_undone()
    ensures laws { ReadsBack }
{}

// What a line uses, is built from and is worth depends only on the texts up to it.
pub fn lines_look_back()
    ensures laws { UsesLineByLine × BuiltLineByLine × ExactLineByLine }
{}

// A variable counts for a line exactly if some token that the line is built from names it; otherwise it has no effect on the value.
pub fn uses_are_complete()
    ensures laws { UsesWhatItIsBuiltFrom × UnusedIsFree }
{}

// Over sound lines a text gives a sound line; in the whole kind, over lines of points, one of points.
pub fn work_keeps_lines_sound()
    ensures laws { WorkSound × WorkWhole }
{}

// The model of one formula over a box of given ends encloses its exact value at every point.
pub fn formulas_are_enclosed()
    ensures laws { FormulasEnclosed }
{}
