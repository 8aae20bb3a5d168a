//! The grammar of the language, as definitions and laws. `specs/Spells.antt` says which tokens spell
//! which tree, `specs/Partial.antt` what a tree is that breaks off, and `specs/Reading.antt` how a tree
//! is read from left to right; `proofs/` ties the three together. The parser's functions stand in the
//! crates above and are pinned by `specs/Reading.antt`.
#![tactic(auto)]

pub mod limits;

/// Where an expression stands. It decides whether line ends count, and whether a closure may stand
/// outside parentheses.
#[derive(Clone, Copy, Debug, PartialEq, Eq)]
pub enum Context {
    /// In a statement, outside parentheses.
    Plain,
    /// In a condition, a bound or a subject: no closure outside parentheses.
    Condition,
    /// In parentheses, with no brace opened since: line ends count for nothing.
    Inside,
}
