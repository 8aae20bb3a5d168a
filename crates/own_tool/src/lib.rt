//! The top call of the program.
#![tactic(auto)]

mod build;
mod check;
mod exec;
mod name;
mod run;
mod saying;
mod texts;
mod tool;

pub use tool::swiftown;

#[cfg(test)]
mod tests;
