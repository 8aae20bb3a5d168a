//! Laws of the definitions. Each function does nothing; its contract is the law.

ghost use Rattle.own_paths.specs.Laws.{BodyLimitsAreExceeded, FindingsAreOneList, FindingsAreOrdered, FindingsHaveOneCause, FixedFindingsAreOneList, LeavesHaveOneFact, PartsOfLeavesHaveNone, PathFindingsAreOneList, SettledLeavesAreNotAmbiguous, SoundBreaksNothing, TracesExist, TracesGoOn, TracesSplit, TracesStay};

/// A Consume that breaks O8 has no leaf at its place or below it, so there is none that it could end.
pub fn parts_of_leaves_have_none()
    ensures { PartsOfLeavesHaveNone }
{}

/// The order of findings is total but for those of one rule, one span and one place.
pub fn findings_are_ordered()
    ensures { FindingsAreOrdered }
{}

/// A body has one finding at most of one rule at one span and one place.
pub fn findings_have_one_cause()
    ensures { FindingsHaveOneCause }
{}

/// A program has one list of findings.
pub fn findings_are_one_list()
    ensures { FindingsAreOneList }
{}

/// A body has one list of findings of the path rules, O1 to O6 and F1.
pub fn path_findings_are_one_list()
    ensures { PathFindingsAreOneList }
{}

/// A body has one list of findings of the fixed rules, O7 to O11.
pub fn fixed_findings_are_one_list()
    ensures { FixedFindingsAreOneList }
{}

/// In a program without findings no rule is broken, on any way and by any single use.
pub fn sound_breaks_nothing()
    ensures { SoundBreaksNothing }
{}

/// A leaf has one fact at most before an op.
pub fn leaves_have_one_fact()
    ensures { LeavesHaveOneFact }
{}

/// A trace that is not cut is one with more turns too.
pub fn traces_stay()
    ensures { TracesStay }
{}

/// A trace that is cut goes on with more turns.
pub fn traces_go_on()
    ensures { TracesGoOn }
{}

/// Each op tree has a trace, with any number of turns.
pub fn traces_exist()
    ensures { TracesExist }
{}

/// A trace of two parts that goes on is a trace of each of them.
pub fn traces_split()
    ensures { TracesSplit }
{}

/// A leaf that each op that destroys it finds with a value on all ways, or on none, is not ambiguous.
pub fn settled_leaves_are_not_ambiguous()
    ensures { SettledLeavesAreNotAmbiguous }
{}

/// What is named as over a limit, M9 to M13, has a larger count.
pub fn body_limits_are_exceeded()
    ensures { BodyLimitsAreExceeded }
{}
