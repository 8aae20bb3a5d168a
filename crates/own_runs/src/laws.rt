//! Laws of the definitions. Each function does nothing; its contract is the law.

ghost use Rattle.own_runs.specs.Laws.{DepthsAgree, OutputsGoOn, RunsGoOn, StopsOutOfTurns, UntouchedByLongRuns, OnceByLongRuns, WritesAreRead, WritesStayApart};

/// With more turns a run that was cut goes on, and any other is the same.
pub fn runs_go_on()
    ensures { RunsGoOn }
{}

/// With more turns the output, the traced output and the events stand at the front of what they become.
pub fn outputs_go_on()
    ensures { OutputsGoOn }
{}

/// The depth to which calls and loops are unfolded makes no difference where it is greater than the turns.
pub fn depths_agree()
    ensures { DepthsAgree }
{}

/// A run that stops for want of turns has none left.
pub fn stops_out_of_turns()
    ensures { StopsOutOfTurns }
{}

/// What is written at a place of a value stands there.
pub fn writes_are_read()
    ensures { WritesAreRead }
{}

/// A write at a place of a value changes nothing that lies apart from it.
pub fn writes_stay_apart()
    ensures { WritesStayApart }
{}

/// A program is untouched where each of its runs is that of one with more turns that is not wrong.
pub fn untouched_by_long_runs()
    ensures { UntouchedByLongRuns }
{}

/// A program ends each value once where for each of its runs one with more turns does.
pub fn once_by_long_runs()
    ensures { OnceByLongRuns }
{}
