//! The table of the types of a text: it exists exactly where the text is within the limits on types and
//! the judgements on its declarations hold, and its readers say what the definitions say.
#![tactic(auto)]

pub mod build;
pub mod error;
pub mod extent;
mod fitting;
mod info;
pub mod laws;
mod limit;
mod mark;
mod measure;
mod order;
mod resolve;
pub mod table;

pub use error::{TableError, Unfit};
pub use extent::Over;
pub use laws::{tables_are_exact, tables_are_whole};
pub use own_shapes::{CaseInfo, FieldInfo, TypeInfo};
pub use table::TypeTable;
