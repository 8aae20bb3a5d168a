//! What a rule of the language says, which judgement is false where it does not hold, and a function that
//! finds out, with what is proved of each kind of rule. The definitions stand in `specs/` and the proofs in
//! `proofs/`; there is no code.
#![tactic(auto)]
