//! The bytes that a core writes: fixed words, the names of types, and the texts of the program.

use core_layout::types;
use own_table::TypeTable;
use own_tree::typed::{Body, TypedExpr};
use own_tree::{Bytes, Row, Ty, Typed};
use own_within::{expressions_of, statements_in};
use std::alloc::{AllocError, Global};

/// A piece of the texts: its first byte, and how many.
#[derive(Clone, Copy, Debug, PartialEq, Eq)]
pub(crate) struct Piece {
    pub(crate) from: u32,
    pub(crate) size: u32,
}

/// What stands first in the texts of each core.
const FIXED: &[u8] = b"\n made used ended  # by deinit\n by discard\n";

/// The piece of what has no text.
const NO_TEXT: Piece = Piece { from: 0, size: 0 };

/// The end of a line.
pub(crate) const LINE: Piece = Piece { from: 0, size: 1 };

pub(crate) const SPACE: Piece = Piece { from: 1, size: 1 };

pub(crate) const MADE: Piece = Piece { from: 2, size: 5 };

pub(crate) const USED: Piece = Piece { from: 7, size: 5 };

pub(crate) const ENDED: Piece = Piece { from: 12, size: 6 };

pub(crate) const NUMBER: Piece = Piece { from: 18, size: 2 };

pub(crate) const BY_DEINIT: Piece = Piece { from: 20, size: 11 };

pub(crate) const BY_DISCARD: Piece = Piece { from: 31, size: 12 };

/// The texts of a program, and where each stands.
#[derive(Drop)]
pub(crate) struct Texts {
    bytes: Bytes,
    /// Of each declared type its name.
    names: Row<Piece>,
    /// Of each node its text; a node that is none has none.
    nodes: Row<Piece>,
}

impl Texts {
    pub(crate) fn name(&self, ty: Ty) -> Piece {
        match ty {
            Ty::Named(number) => piece_at(&self.names, number),
            _ => NO_TEXT,
        }
    }

    /// The text that stands at a node.
    pub(crate) fn text(&self, node: u32) -> Piece {
        piece_at(&self.nodes, node)
    }

    pub(crate) fn into_bytes(self) -> Bytes {
        let Texts {
            bytes,
            names: _names,
            nodes: _nodes,
        } = self;
        bytes
    }
}

fn piece_at(pieces: &Row<Piece>, number: u32) -> Piece {
    match pieces.get(number as usize) {
        Some(piece) => *piece,
        None => NO_TEXT,
    }
}

/// Adds bytes at the end. More than a `u32` counts have no room.
fn push_bytes(bytes: &mut Vec<u8>, more: &[u8]) -> Result<Piece, AllocError> {
    let Ok(from) = u32::try_from(bytes.len()) else {
        return Err(AllocError);
    };
    let Ok(size) = u32::try_from(more.len()) else {
        return Err(AllocError);
    };
    bytes.extend_from_slice(more)?;
    Ok(Piece { from, size })
}

/// Adds the names of all declared types.
fn push_names(
    names: &mut Vec<Piece>,
    bytes: &mut Vec<u8>,
    table: &TypeTable,
) -> Result<(), AllocError> {
    for number in 0..table.count() {
        let piece = push_bytes(bytes, types::name(table, Ty::Named(number)))?;
        names.push(piece)?;
    }
    Ok(())
}

/// Sets the piece of a node, which may be the first of that number or a higher one.
fn set_piece(nodes: &mut Vec<Piece>, number: usize, piece: Piece) -> Result<(), AllocError> {
    for _ in nodes.len()..number.saturating_add(1) {
        nodes.push(NO_TEXT)?;
    }
    if number < nodes.len() {
        nodes[number] = piece;
    }
    Ok(())
}

/// Adds the text of a node, if the expression is one.
fn push_text(
    nodes: &mut Vec<Piece>,
    bytes: &mut Vec<u8>,
    expr: &TypedExpr,
) -> Result<(), AllocError> {
    match expr {
        TypedExpr::Text(at, text) => {
            let piece = push_bytes(bytes, text.as_slice())?;
            set_piece(nodes, at.id as usize, piece)
        }
        _ => Ok(()),
    }
}

/// Adds the texts of a body, in order of the walk.
fn push_texts_of(
    alloc: Global,
    nodes: &mut Vec<Piece>,
    bytes: &mut Vec<u8>,
    body: &Body,
) -> Result<(), AllocError> {
    let statements = statements_in(alloc, &body.block)?;
    let exprs = expressions_of(alloc, statements.as_slice())?;
    for expr in exprs.iter() {
        push_text(nodes, bytes, *expr)?;
    }
    Ok(())
}

/// The texts of a program. The names of types are wanted where events are written.
pub(crate) fn texts_of(
    alloc: Global,
    typed: &Typed,
    table: &TypeTable,
    traced: bool,
) -> Result<Texts, AllocError> {
    let mut bytes = Vec::from_slice(alloc, FIXED)?;
    let mut names = Vec::new(alloc);
    if traced {
        push_names(&mut names, &mut bytes, table)?;
    }
    let mut nodes = Vec::new(alloc);
    for body in typed.bodies.as_slice() {
        push_texts_of(alloc, &mut nodes, &mut bytes, body)?;
    }
    Ok(Texts {
        bytes: Row::from_vec(bytes),
        names: Row::from_vec(names),
        nodes: Row::from_vec(nodes),
    })
}
