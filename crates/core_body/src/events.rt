//! Births of tracked values, and the lines of events in a traced build.

use crate::coder::Coder;
use crate::texts::{BY_DEINIT, BY_DISCARD, ENDED, LINE, MADE, NUMBER, Piece, USED};
use core_form::{CoreForm, CorePiece};
use core_layout::types;
use core_place::{Spot, constant};
use own_tree::{Arith, Ty};
use sqlite_items::Items;
use std::alloc::AllocError;

/// The word that counts births.
const BIRTHS: Spot = Spot::Common(0);

pub(crate) fn text_piece(piece: Piece) -> CorePiece {
    CorePiece::Text(piece.from, piece.size)
}

impl Coder<'_> {
    /// Adds the line of an event of a tracked value, whose first word is its number.
    fn push_event(
        &self,
        code: &mut Vec<CoreForm>,
        word: Piece,
        ty: Ty,
        at: Spot,
        end: Piece,
    ) -> Result<(), AllocError> {
        if !self.traced {
            return Ok(());
        }
        let pieces = vec![in self.alloc;
            text_piece(word),
            text_piece(self.texts.name(ty)),
            text_piece(NUMBER),
            CorePiece::Int(self.places.load(at)?),
            text_piece(end),
        ]?;
        code.push(CoreForm::Print(Items::from_vec(pieces)))?;
        Ok(())
    }

    /// Adds the birth of a tracked value: its mark is its number, or 1 where no event is written.
    pub(crate) fn push_birth(
        &self,
        code: &mut Vec<CoreForm>,
        ty: Ty,
        at: Spot,
    ) -> Result<(), AllocError> {
        if !types::tracked(self.places.table, ty) {
            return Ok(());
        }
        if !self.traced {
            return self.push_store(code, at, constant(1));
        }
        let next = self.wrapped(Arith::Add, self.places.load(BIRTHS)?, constant(1))?;
        self.push_store(code, BIRTHS, next)?;
        self.push_store(code, at, self.places.load(BIRTHS)?)?;
        self.push_event(code, MADE, ty, at, LINE)
    }

    /// Adds the event of a value that is lent, if its type is tracked.
    pub(crate) fn push_use(
        &self,
        code: &mut Vec<CoreForm>,
        ty: Ty,
        at: Spot,
    ) -> Result<(), AllocError> {
        if types::tracked(self.places.table, ty) {
            self.push_event(code, USED, ty, at, LINE)?;
        }
        Ok(())
    }

    pub(crate) fn push_ended_by_deinit(
        &self,
        code: &mut Vec<CoreForm>,
        ty: Ty,
        at: Spot,
    ) -> Result<(), AllocError> {
        self.push_event(code, ENDED, ty, at, BY_DEINIT)
    }

    pub(crate) fn push_ended_by_discard(
        &self,
        code: &mut Vec<CoreForm>,
        ty: Ty,
        at: Spot,
    ) -> Result<(), AllocError> {
        self.push_event(code, ENDED, ty, at, BY_DISCARD)
    }
}
