//! The count of words, pieces and forms. Each function takes the bytes of its part from those that are left, and is Ok
//! only where the part fits in the room.

ghost use Rattle.std.specs.Prelude.{◌≡◌, ◌+◌, ◌*◌, ◌≤◌, OnOk, map};
ghost use Rattle.core_form.specs.CoreSource.{words_in};
ghost use Rattle.core_form.specs.CoreView.{at_view, code_of, form_view, piece_view, pieces_of, word_view};
ghost use Rattle.core_form.specs.Sizes.{CodeFits, FormFits, PiecesFit, PlaceFits, WordFits, bytes, depth, form_bytes, form_depth, form_height, height, pieces_bytes, pieces_depth, pieces_height, place_bytes, said_bytes, word_bytes, word_depth, word_height};
ghost use Rattle.core_form.specs.declared.limits.TheConstants.{MOST_PRINTED};

use crate::room::{Room, TooLarge, spend, within};
use core_form::limits::{
    AREA, MOST_CORE_TEXTS, MOST_DISPLACEMENT, MOST_FUNCTIONS, MOST_JUMPED, MOST_LOCAL_WORDS,
    MOST_PRINTED,
};
use core_form::{CoreAt, CoreForm, CorePiece, CoreWord};

/// Counts a place.
fn count_place(left: &mut u64, at: &CoreAt) -> Result<(), TooLarge>
    ensures fits { OnOk result (PlaceFits (at_view at.now)) }
    ensures bytes { OnOk result (left.new + place_bytes (at_view at.now) ≡ left.old) }
{
    match at {
        CoreAt::Mine(words) => within(*words, MOST_DISPLACEMENT)?,
        CoreAt::Next(words) => within(*words, MOST_DISPLACEMENT)?,
        CoreAt::Common(words) => within(*words, MOST_DISPLACEMENT)?,
        CoreAt::Far(pointer, words) => {
            count_place(left, pointer.get())?;
            within(*words, MOST_DISPLACEMENT)?;
            return spend(left, 22);
        }
    }
    spend(left, 11)
}

/// Counts a word.
#[cycle(code)]
fn count_word(left: &mut u64, room: Room, word: &CoreWord) -> Result<(), TooLarge>
    ensures fits { OnOk result (WordFits (word_view word.now)) }
    ensures depth { OnOk result (word_depth (word_view word.now) ≤ room.labels) }
    ensures height { OnOk result (word_height (word_view word.now) ≤ room.operands) }
    ensures bytes { OnOk result (left.new + word_bytes (word_view word.now) ≡ left.old) }
{
    match word {
        CoreWord::Constant(number) => {
            let _whole = *number;
            within(1, room.operands)?;
            spend(left, 11)
        }
        CoreWord::Load(at) => {
            count_place(left, at)?;
            within(2, room.operands)?;
            spend(left, 11)
        }
        CoreWord::Local(number) => {
            within(*number, MOST_LOCAL_WORDS)?;
            within(1, room.operands)?;
            spend(left, 11)
        }
        CoreWord::Address(at) => {
            count_place(left, at)?;
            within(2, room.operands)?;
            spend(left, 33)
        }
        CoreWord::Arithmetic(_, at, first, second) => {
            let _offset = *at;
            within(2, room.labels)?;
            let upper = room.above(4)?;
            count_word(left, upper, first.get())?;
            count_word(left, upper.above(1)?, second.get())?;
            spend(left, 310)
        }
        CoreWord::Negate(at, operand) => {
            let _offset = *at;
            within(2, room.labels)?;
            count_word(left, room.above(4)?, operand.get())?;
            spend(left, 310)
        }
        CoreWord::Wrap(_, first, second) => {
            count_word(left, room, first.get())?;
            count_word(left, room.above(1)?, second.get())?;
            spend(left, 11)
        }
        CoreWord::Compare(_, first, second) => {
            count_word(left, room, first.get())?;
            count_word(left, room.above(1)?, second.get())?;
            spend(left, 22)
        }
        CoreWord::Pick(test, first, second) => {
            count_word(left, room, test.get())?;
            let inner = room.inside()?;
            count_word(left, inner, first.get())?;
            count_word(left, inner, second.get())?;
            spend(left, 15)
        }
        CoreWord::Following(forms, last) => {
            count_forms(left, room, forms.as_slice())?;
            count_word(left, room, last.get())
        }
        CoreWord::ReadInt => {
            within(1, room.operands)?;
            spend(left, 11)
        }
    }
}

/// Counts pieces, with what writes them.
#[cycle(code)]
fn count_pieces(left: &mut u64, room: Room, pieces: &[CorePiece]) -> Result<(), TooLarge>
    ensures fits { OnOk result (PiecesFit (pieces_of (map piece_view pieces.now))) }
    ensures few { OnOk result (words_in (pieces_of (map piece_view pieces.now)) ≤ MOST_PRINTED) }
    ensures depth { OnOk result (pieces_depth (pieces_of (map piece_view pieces.now)) ≤ room.labels) }
    ensures height { OnOk result (pieces_height (pieces_of (map piece_view pieces.now)) ≤ room.operands) }
    ensures bytes { OnOk result (left.new + (pieces_bytes (pieces_of (map piece_view pieces.now))
        + 11 * words_in (pieces_of (map piece_view pieces.now))
        + said_bytes (pieces_of (map piece_view pieces.now))) ≡ left.old) }
{
    let mut upper = room;
    let mut words = 0;
    for piece in pieces {
        match piece {
            CorePiece::Text(from, size) => {
                within(*from, MOST_CORE_TEXTS)?;
                within(*size, MOST_CORE_TEXTS)?;
                spend(left, 33)?;
            }
            CorePiece::Int(word) => {
                count_word(left, upper, word)?;
                spend(left, 33)?;
                upper = upper.above(1)?;
                words += 1;
            }
            CorePiece::Bool(word) => {
                count_word(left, upper, word)?;
                spend(left, 55)?;
                upper = upper.above(1)?;
                words += 1;
            }
        }
    }
    within(words, MOST_PRINTED)
}

/// Counts a form.
#[cycle(code)]
fn count_form(left: &mut u64, room: Room, form: &CoreForm) -> Result<(), TooLarge>
    ensures fits { OnOk result (FormFits (form_view form.now)) }
    ensures depth { OnOk result (form_depth (form_view form.now) ≤ room.labels) }
    ensures height { OnOk result (form_height (form_view form.now) ≤ room.operands) }
    ensures bytes { OnOk result (left.new + form_bytes (form_view form.now) ≡ left.old) }
{
    match form {
        CoreForm::Store(at, word) => {
            count_place(left, at)?;
            count_word(left, room.above(2)?, word)?;
            spend(left, 11)
        }
        CoreForm::StoreLocal(number, word) => {
            within(*number, MOST_LOCAL_WORDS)?;
            count_word(left, room, word)?;
            spend(left, 11)
        }
        CoreForm::Print(pieces) => {
            within(2, room.operands)?;
            count_pieces(left, room, pieces.as_slice())
        }
        CoreForm::When(test, first, second) => {
            count_word(left, room, test)?;
            let inner = room.inside()?;
            count_forms(left, inner, first.as_slice())?;
            count_forms(left, inner, second.as_slice())?;
            spend(left, 15)
        }
        CoreForm::Block(forms) => {
            count_forms(left, room.inside()?, forms.as_slice())?;
            spend(left, 3)
        }
        CoreForm::Loop(forms) => {
            count_forms(left, room.inside()?, forms.as_slice())?;
            spend(left, 14)
        }
        CoreForm::Jump(jumped) => {
            within(*jumped, MOST_JUMPED)?;
            spend(left, 11)
        }
        CoreForm::Call(function) => {
            within(*function, MOST_FUNCTIONS)?;
            within(2, room.operands)?;
            spend(left, 44)
        }
        CoreForm::CallHere(function) => {
            within(*function, MOST_FUNCTIONS)?;
            within(1, room.operands)?;
            spend(left, 22)
        }
        CoreForm::CallWord(word) => {
            count_word(left, room.above(2)?, word)?;
            spend(left, 55)
        }
        CoreForm::Copy(more, from, to) => {
            within(*more, AREA)?;
            count_place(left, from)?;
            count_place(left, to)?;
            within(1, room.labels)?;
            within(4, room.operands)?;
            spend(left, 280)
        }
        CoreForm::Trap(number, at) => {
            let _number = *number;
            let _offset = *at;
            within(2, room.operands)?;
            spend(left, 33)
        }
    }
}

/// Counts forms, one after another.
#[cycle(code)]
pub(crate) fn count_forms(left: &mut u64, room: Room, forms: &[CoreForm]) -> Result<(), TooLarge>
    ensures fits { OnOk result (CodeFits (code_of (map form_view forms.now))) }
    ensures depth { OnOk result (depth (code_of (map form_view forms.now)) ≤ room.labels) }
    ensures height { OnOk result (height (code_of (map form_view forms.now)) ≤ room.operands) }
    ensures bytes { OnOk result (left.new + bytes (code_of (map form_view forms.now)) ≡ left.old) }
{
    for form in forms {
        count_form(left, room, form)?;
    }
    Ok(())
}
