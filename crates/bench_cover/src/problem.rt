ghost use Rattle.own_tree.specs.declared.place.Ty.TheVariants as type;
ghost use Rattle.own_table.specs.Table.{IsTypeIn};

use crate::kind::Kind;
use crate::patterns::patterns_of;
use crate::types::types_of;
use anyhow::bail;
use own_match::cover;
use own_table::TypeTable;
use own_tree::limits::MOST_FIELDS;
use own_tree::{Cover, TPattern, Ty};
use std::alloc::{AllocError, Global};

/// A table, and the patterns of its first type that are asked about.
#[derive(Drop)]
pub struct Problem {
    table: TypeTable,
    patterns: Vec<TPattern>,
    ghost typed: { IsTypeIn table (type.Named 0) },
}

impl Problem {
    /// The problem of this kind with so many patterns.
    pub fn new(alloc: Global, kind: Kind, size: u32) -> anyhow::Result<Problem> {
        if matches!(kind, Kind::Cases | Kind::Truths) && size as usize > MOST_FIELDS {
            bail!("too many cases");
        }
        let Ok(table) = TypeTable::from_types(alloc, types_of(alloc, kind, size)?) else {
            bail!("the types have no table");
        };
        Ok(Problem {
            table,
            patterns: patterns_of(alloc, kind, size)?,
        })
    }

    /// Whether the patterns cover the type.
    pub fn answer(&self, alloc: Global) -> Result<Cover, AllocError> {
        cover(alloc, &self.table, Ty::Named(0), self.patterns.as_slice())
    }
}
