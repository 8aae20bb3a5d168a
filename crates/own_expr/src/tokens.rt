//! What the parser of declarations shares with this one: tests on the tokens that are left, and the
//! block that begins there. A place is a slice of the tokens, and a fault says how many of them are
//! left.

pub use crate::fault::ReadError;
pub use crate::lines::{is_over, opens, sep_at};
pub use crate::next::{after, here, is_mark, is_word, keyword_at, kind_at, name_at, till};
pub use crate::read::body_goal;
