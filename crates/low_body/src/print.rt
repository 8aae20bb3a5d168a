//! The code of a print behind its words: they go from the stack into locals, and then the pieces are written.

ghost use Rattle.std.specs.Prelude.{◌≡◌, ◌++◌, ◌≤◌, OnOk, map};
ghost use Rattle.core_form.specs.declared.limits.TheConstants.{MOST_PRINTED};
ghost use Rattle.core_form.specs.CoreSource.{words_in};
ghost use Rattle.core_form.specs.CoreView.{piece_view, pieces_of};
ghost use Rattle.core_form.specs.Sizes.{PiecesFit};
ghost use Rattle.low_laws.specs.Lower.{say_code, sets_code};

use core_form::CorePiece;
use core_form::limits::AREA;
use low_laws::places::{KEPT, WRITE_BOOL, WRITE_INT, WRITE_TEXT};
use std::alloc::AllocError;
use wasm_form::Instr;

/// How many words the pieces have.
fn words_in(pieces: &[CorePiece]) -> u32
    requires { words_in (pieces_of (map piece_view pieces.now)) ≤ MOST_PRINTED }
    ensures { result ≡ words_in (pieces_of (map piece_view pieces.now)) }
{
    let mut words = 0;
    for piece in pieces {
        match piece {
            CorePiece::Text(_, _) => {}
            CorePiece::Int(_) => words += 1,
            CorePiece::Bool(_) => words += 1,
        }
    }
    words
}

/// Adds the code that takes so many words from the stack into locals, the last into the first.
fn push_sets(code: &mut Vec<Instr>, words: u32) -> Result<(), AllocError>
    requires { words ≤ MOST_PRINTED }
    ensures { OnOk result (code.new.items ≡ code.old.items ++ sets_code words) }
{
    for word in 0..words {
        code.push(Instr::LocalSet(KEPT + word))?;
    }
    Ok(())
}

/// Adds the code that writes the pieces. A piece finds its word where so many come after it.
fn push_said(code: &mut Vec<Instr>, pieces: &[CorePiece], words: u32) -> Result<(), AllocError>
    requires fits { PiecesFit (pieces_of (map piece_view pieces.now)) }
    requires words { words ≡ words_in (pieces_of (map piece_view pieces.now)) }
    requires few { words ≤ MOST_PRINTED }
    ensures { OnOk result (code.new.items ≡ code.old.items ++ say_code (pieces_of (map piece_view pieces.now))) }
{
    let mut after = words;
    for piece in pieces {
        match piece {
            CorePiece::Text(from, size) => {
                code.push(Instr::I32Const(8 * AREA + *from))?;
                code.push(Instr::I32Const(*size))?;
                code.push(Instr::Call(WRITE_TEXT))?;
            }
            CorePiece::Int(_) => {
                after -= 1;
                code.push(Instr::LocalGet(KEPT + after))?;
                code.push(Instr::Call(WRITE_INT))?;
            }
            CorePiece::Bool(_) => {
                after -= 1;
                code.push(Instr::LocalGet(KEPT + after))?;
                code.push(Instr::I64Eqz)?;
                code.push(Instr::I32Eqz)?;
                code.push(Instr::Call(WRITE_BOOL))?;
            }
        }
    }
    Ok(())
}

/// Adds the code of a print whose words are on the stack.
pub(crate) fn push_print(code: &mut Vec<Instr>, pieces: &[CorePiece]) -> Result<(), AllocError>
    requires fits { PiecesFit (pieces_of (map piece_view pieces.now)) }
    requires few { words_in (pieces_of (map piece_view pieces.now)) ≤ MOST_PRINTED }
    ensures { OnOk result (code.new.items ≡ code.old.items
        ++ sets_code (words_in (pieces_of (map piece_view pieces.now)))
        ++ say_code (pieces_of (map piece_view pieces.now))) }
{
    let words = words_in(pieces);
    push_sets(code, words)?;
    push_said(code, pieces, words)
}
