//! What a run of a typed program does: the store, destruction, events and the run itself. The definitions
//! stand in `specs/`; the functions here name what is proved of them.
#![tactic(auto)]

pub mod laws;

pub use laws::{
    depths_agree, once_by_long_runs, outputs_go_on, runs_go_on, stops_out_of_turns,
    untouched_by_long_runs, writes_are_read, writes_stay_apart,
};
