//! Reading from left to right. Each function reads one production from the tokens that are left, and
//! gives what it read, the height of that tree and the tokens after it. `depth` is the number of nodes
//! above. Right parts are read by recursion, which the nesting bounds; lists by loops.

use crate::fault::ReadError;
use own_tree::Token;

mod blocks;
mod calls;
mod clauses;
mod expressions;
mod statements;

pub use blocks::body_goal;

/// What was read, its height, and the tokens after it.
type Read<'a, T> = Result<(T, u32, &'a [Token]), ReadError>;
