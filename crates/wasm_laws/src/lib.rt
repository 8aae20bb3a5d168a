//! Laws of the steps of a machine and of the bytes of a module, for what is proved of compiled code.
#![tactic(auto)]

pub mod laws;

pub use laws::{
    outputs_begin, plain_instructions_are_spelled, runs_stay, steps_lead, words_read_back,
};
