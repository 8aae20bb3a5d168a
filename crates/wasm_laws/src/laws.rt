//! Laws of the definitions. Each function does nothing; its contract is the law.

ghost use Rattle.wasm_laws.specs.Laws.{OutputsBegin, PlainInstructionsAreSpelled, RunsStay, StepsLead, WordsReadBack};

/// The output of fewer steps begins that of more.
pub fn outputs_begin()
    ensures { OutputsBegin }
{}

/// A run that is over stays as it is with more steps.
pub fn runs_stay()
    ensures { RunsStay }
{}

/// A run goes on from where several steps lead, or traps where one of them does.
pub fn steps_lead()
    ensures { StepsLead }
{}

/// A word that is written into memory is read back, and the words below and above it stay.
pub fn words_read_back()
    ensures { WordsReadBack }
{}

/// An instruction that holds no others is spelled by its shortest spelling, in at most 11 bytes.
pub fn plain_instructions_are_spelled()
    ensures { PlainInstructionsAreSpelled }
{}
