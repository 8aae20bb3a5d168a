//! What the bodies of a program do to places, on which paths, and the rules of ownership that this may
//! break. The definitions stand in `specs/`; the functions here name what is proved of them.
#![tactic(auto)]

pub mod laws;

pub use laws::{
    body_limits_are_exceeded, findings_are_one_list, findings_are_ordered, findings_have_one_cause,
    fixed_findings_are_one_list, leaves_have_one_fact, parts_of_leaves_have_none,
    path_findings_are_one_list, settled_leaves_are_not_ambiguous, sound_breaks_nothing,
    traces_exist, traces_go_on, traces_split, traces_stay,
};
