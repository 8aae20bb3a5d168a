//! The plain data that all crates of the language share.
#![tactic(auto)]

pub mod arithmetic;
pub mod command;
pub mod error;
pub mod finding;
pub mod graph;
pub mod limits;
pub mod op;
pub mod pattern;
pub mod place;
pub mod placement;
pub mod refusal;
pub mod row;
pub mod span;
pub mod status;
pub mod token;
pub mod tree;
pub mod typed;

pub use arithmetic::Arith;
pub use command::Command;
pub use error::{LexError, ParseError};
pub use finding::{Finding, Rule};
pub use graph::{BodyFacts, Graph, LeafFact, LeafFacts, Maker, Makers, Node};
pub use op::{Op, OpKind, OpTree};
pub use pattern::{Cover, TPattern};
pub use place::{Binding, Mode, Place, Ty};
pub use placement::{Arm, Flag, How, Move, Placement, Plan, Test, Want};
pub use refusal::{LimitKind, Refusal};
pub use row::{Bytes, Row};
pub use span::Span;
pub use status::Status;
pub use token::{Kind, Mark, Token, Word};
pub use typed::{ArgInfo, Body, Form, ParamInfo, Passing, Signature, Typed};
