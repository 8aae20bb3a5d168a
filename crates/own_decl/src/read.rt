//! What a function that reads gives.
use own_expr::tokens::ReadError;
use own_tree::Token;

/// What was read, and the tokens after it.
pub(crate) type Read<'a, T> = Result<(T, &'a [Token]), ReadError>;
