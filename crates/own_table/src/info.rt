//! What is known of each type.

use own_tree::Row;

/// What is computed once of a declared type, from what it contains.
#[derive(Debug, Drop)]
pub struct Measure {
    pub has_value: bool,
    pub holds_tracked: bool,
    pub slots: u32,
    pub leaves: Row<Row<u32>>,
}
