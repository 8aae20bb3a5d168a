//! The code of words, pieces and forms, which stand in one another.

ghost use Rattle.std.specs.Prelude.{◌≡◌, ◌++◌, ◌∷◌, [], ◌+◌, ◌≤◌, OnOk, map};
ghost use Rattle.core_form.specs.declared.limits.TheConstants.{MOST_DEPTH};
ghost use Rattle.core_form.specs.CoreView.{code_of, form_view, piece_view, pieces_of, word_view};
ghost use Rattle.core_form.specs.Sizes.{CodeFits, FormFits, PiecesFit, WordFits, depth, form_depth, pieces_depth, word_depth};
ghost use Rattle.low_laws.specs.Lower.{form_code, forms_code, pieces_code, word_code};
ghost use Rattle.low_body.specs.RoundView.{labels_in, round_view};

use crate::parts::{
    access, compare_code, displacement, push_address, push_checked, push_copy, push_next_frame,
    push_place, push_trap, wrap_code,
};
use crate::print::push_print;
use crate::round::{Round, label};
use core_form::{CoreForm, CorePiece, CoreWord};
use low_laws::places::{FUNCTION, LOCALS, OWN, READ_INT};
use own_tree::arithmetic::Arith;
use sqlite_items::{Boxed, Items};
use std::alloc::{AllocError, Global};
use wasm_form::{Instr, ValueType};

/// Adds the code of a word, which leaves it on the stack.
#[cycle(code)]
pub(crate) fn push_word(
    alloc: Global,
    code: &mut Vec<Instr>,
    round: &Round<'_>,
    word: &CoreWord,
) -> Result<(), AllocError>
    requires fits { WordFits (word_view word.now) }
    requires depth { labels_in (round_view round.now) + word_depth (word_view word.now) ≤ MOST_DEPTH }
    ensures { OnOk result (code.new.items ≡ code.old.items ++ word_code (word_view word.now) (round_view round.now)) }
{
    match word {
        CoreWord::Constant(number) => code.push(Instr::I64Const(number.cast_unsigned()))?,
        CoreWord::Load(at) => {
            push_place(code, at)?;
            code.push(Instr::I64Load(access(displacement(at))))?;
        }
        CoreWord::Local(number) => code.push(Instr::LocalGet(LOCALS + *number))?,
        CoreWord::Address(at) => push_address(code, at)?,
        CoreWord::Arithmetic(op, at, first, second) => {
            push_word(alloc, code, round, first.get())?;
            push_word(alloc, code, round, second.get())?;
            push_checked(alloc, code, *op, *at)?;
        }
        CoreWord::Negate(at, operand) => {
            push_word(alloc, code, round, operand.get())?;
            push_checked(alloc, code, Arith::Neg, *at)?;
        }
        CoreWord::Wrap(op, first, second) => {
            push_word(alloc, code, round, first.get())?;
            push_word(alloc, code, round, second.get())?;
            code.push(wrap_code(*op))?;
        }
        CoreWord::Compare(op, first, second) => {
            push_word(alloc, code, round, first.get())?;
            push_word(alloc, code, round, second.get())?;
            code.push(compare_code(*op))?;
            code.push(Instr::I64ExtendI32U)?;
        }
        CoreWord::Pick(test, first, second) => {
            push_word(alloc, code, round, test.get())?;
            let inner = Round::If(&*round);
            let mut chosen = Vec::new(alloc);
            push_word(alloc, &mut chosen, &inner, first.get())?;
            let mut other = Vec::new(alloc);
            push_word(alloc, &mut other, &inner, second.get())?;
            push_choice(alloc, code, Some(ValueType::I64), chosen, other)?;
        }
        CoreWord::Following(forms, last) => {
            push_forms(alloc, code, round, forms.as_slice())?;
            push_word(alloc, code, round, last.get())?;
        }
        CoreWord::ReadInt => code.push(Instr::Call(READ_INT))?,
    }
    Ok(())
}

/// Adds a test of the word on the stack: the first code where it is not 0, else the other one.
fn push_choice(
    alloc: Global,
    code: &mut Vec<Instr>,
    result_type: Option<ValueType>,
    chosen: Vec<Instr>,
    other: Vec<Instr>,
) -> Result<(), AllocError>
    ensures { OnOk result (code.new.items
        ≡ code.old.items ++ Instr.I64Eqz ∷ Instr.If result_type other.items chosen.items ∷ []) }
{
    let chosen = Boxed::new(alloc, Items::from_vec(chosen))?;
    let other = Boxed::new(alloc, Items::from_vec(other))?;
    code.push(Instr::I64Eqz)?;
    code.push(Instr::If(result_type, other, chosen))?;
    Ok(())
}

/// Adds the code of the words of pieces, which leaves them on the stack, the last on top.
#[cycle(code)]
fn push_words(
    alloc: Global,
    code: &mut Vec<Instr>,
    round: &Round<'_>,
    pieces: &[CorePiece],
) -> Result<(), AllocError>
    requires fits { PiecesFit (pieces_of (map piece_view pieces.now)) }
    requires depth { labels_in (round_view round.now) + pieces_depth (pieces_of (map piece_view pieces.now))
        ≤ MOST_DEPTH }
    ensures { OnOk result (code.new.items
        ≡ code.old.items ++ pieces_code (pieces_of (map piece_view pieces.now)) (round_view round.now)) }
{
    for piece in pieces {
        match piece {
            CorePiece::Text(_, _) => {}
            CorePiece::Int(word) => push_word(alloc, code, round, word)?,
            CorePiece::Bool(word) => push_word(alloc, code, round, word)?,
        }
    }
    Ok(())
}

/// Adds the code of a form.
#[cycle(code)]
fn push_form(
    alloc: Global,
    code: &mut Vec<Instr>,
    round: &Round<'_>,
    form: &CoreForm,
) -> Result<(), AllocError>
    requires fits { FormFits (form_view form.now) }
    requires depth { labels_in (round_view round.now) + form_depth (form_view form.now) ≤ MOST_DEPTH }
    ensures { OnOk result (code.new.items ≡ code.old.items ++ form_code (form_view form.now) (round_view round.now)) }
{
    match form {
        CoreForm::Store(at, word) => {
            push_place(code, at)?;
            push_word(alloc, code, round, word)?;
            code.push(Instr::I64Store(access(displacement(at))))?;
        }
        CoreForm::StoreLocal(number, word) => {
            push_word(alloc, code, round, word)?;
            code.push(Instr::LocalSet(LOCALS + *number))?;
        }
        CoreForm::Print(pieces) => {
            push_words(alloc, code, round, pieces.as_slice())?;
            push_print(code, pieces.as_slice())?;
        }
        CoreForm::When(test, first, second) => {
            push_word(alloc, code, round, test)?;
            let inner = Round::If(&*round);
            let mut chosen = Vec::new(alloc);
            push_forms(alloc, &mut chosen, &inner, first.as_slice())?;
            let mut other = Vec::new(alloc);
            push_forms(alloc, &mut other, &inner, second.as_slice())?;
            push_choice(alloc, code, None, chosen, other)?;
        }
        CoreForm::Block(forms) => {
            let mut body = Vec::new(alloc);
            push_forms(alloc, &mut body, &Round::Block(&*round), forms.as_slice())?;
            code.push(Instr::Block(None, Items::from_vec(body)))?;
        }
        CoreForm::Loop(forms) => {
            let mut body = Vec::new(alloc);
            push_forms(alloc, &mut body, &Round::Block(&*round), forms.as_slice())?;
            body.push(Instr::Br(0))?;
            code.push(Instr::Loop(None, Items::from_vec(body)))?;
        }
        CoreForm::Jump(jumped) => code.push(Instr::Br(label(round, *jumped)))?,
        CoreForm::Call(function) => {
            push_next_frame(code)?;
            code.push(Instr::Call(OWN + *function))?;
        }
        CoreForm::CallHere(function) => {
            code.push(Instr::LocalGet(0))?;
            code.push(Instr::Call(OWN + *function))?;
        }
        CoreForm::CallWord(word) => {
            push_next_frame(code)?;
            push_word(alloc, code, round, word)?;
            code.push(Instr::I32WrapI64)?;
            code.push(Instr::CallIndirect(FUNCTION))?;
        }
        CoreForm::Copy(more, from, to) => push_copy(alloc, code, *more, from, to)?,
        CoreForm::Trap(number, at) => push_trap(code, *number, *at)?,
    }
    Ok(())
}

/// Adds the code of forms, one after another.
#[cycle(code)]
pub(crate) fn push_forms(
    alloc: Global,
    code: &mut Vec<Instr>,
    round: &Round<'_>,
    forms: &[CoreForm],
) -> Result<(), AllocError>
    requires fits { CodeFits (code_of (map form_view forms.now)) }
    requires depth { labels_in (round_view round.now) + depth (code_of (map form_view forms.now)) ≤ MOST_DEPTH }
    ensures { OnOk result (code.new.items
        ≡ code.old.items ++ forms_code (code_of (map form_view forms.now)) (round_view round.now)) }
{
    for form in forms {
        push_form(alloc, code, round, form)?;
    }
    Ok(())
}
