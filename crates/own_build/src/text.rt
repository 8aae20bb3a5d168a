//! The answer to a text.

use crate::bodies::findings;
use crate::front::{Front, typed_text};
use own_table::TypeTable;
use own_tree::{Finding, Refusal, Row, Typed};
use std::alloc::{AllocError, Global};

/// A text that is in the grammar, well typed and within the limits, and breaks no rule of ownership.
#[derive(Drop)]
pub struct Checked {
    typed: Typed,
    table: TypeTable,
}

impl Checked {
    /// The typing of the text.
    pub fn typed(&self) -> &Typed {
        &self.typed
    }

    /// Its types.
    pub fn table(&self) -> &TypeTable {
        &self.table
    }

    /// Both.
    pub(crate) fn into_parts(self) -> (Typed, TypeTable) {
        let Checked { typed, table } = self;
        (typed, table)
    }
}

/// Why a text is not accepted.
#[derive(Drop)]
pub enum Refused {
    /// It is no program within the limits: the first cause in the order lexing, syntax and nesting, M4, M5,
    /// M7, M6, types, M8, typing, M9 to M12 body by body, M13.
    Refusal(Refusal),
    /// It is one, and breaks rules of ownership: all its findings, one at least, in order of span, then of
    /// rule, then of place.
    Findings(Typed, TypeTable, Row<Finding>),
    /// Memory was refused.
    Memory,
}

impl From<AllocError> for Refused {
    fn from(_error: AllocError) -> Refused {
        Refused::Memory
    }
}

/// Says whether a text is accepted, and else why not.
pub fn check_text(alloc: Global, text: &[u8]) -> Result<Checked, Refused> {
    let Front { typed, table } = typed_text(alloc, text)?;
    let found = findings(alloc, &typed, &table)?;
    if found.is_empty() {
        Ok(Checked { typed, table })
    } else {
        Err(Refused::Findings(typed, table, found))
    }
}
