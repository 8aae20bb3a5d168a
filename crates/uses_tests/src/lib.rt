//! Tests of what closures capture and of op trees.
#![tactic(auto)]

#[cfg(test)]
mod captures;
#[cfg(test)]
mod op_trees;
