//! Laws of runs. Each function does nothing; its contract is the law.

ghost use Rattle.own_steady.specs.Laws.{OnlyTurnsCutRuns, SteadyProgramsDoNotStray, TypedProgramsDoNotStray};

/// No run strays of a program whose parts fit together, whatever its input and its number of turns: it ends, it
/// traps, it is cut, or it touches a hole.
pub fn steady_programs_do_not_stray()
    ensures { SteadyProgramsDoNotStray }
{}

/// So a run of it that is cut has used up its turns.
pub fn only_turns_cut_runs()
    ensures { OnlyTurnsCutRuns }
{}

/// Nor does a run of a program that a text becomes, where its names are in scope, its jumps in their loops, and its
/// patterns of the types of their subjects.
pub fn typed_programs_do_not_stray()
    ensures { TypedProgramsDoNotStray }
{}
