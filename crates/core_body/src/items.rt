//! What a `print` writes.

use crate::coder::Coder;
use crate::events::text_piece;
use crate::texts::{LINE, Piece};
use core_form::{CoreForm, CorePiece, CoreWord};
use core_layout::holder;
use own_tree::Ty;
use own_tree::typed::TypedExpr;
use sqlite_items::Items;
use std::alloc::AllocError;

/// The piece of a number or a truth.
pub(crate) fn value_piece(ty: Ty, word: CoreWord) -> CorePiece {
    match ty {
        Ty::Bool => CorePiece::Bool(word),
        _ => CorePiece::Int(word),
    }
}

impl Coder<'_> {
    /// The text that an item is.
    pub(crate) fn text_of(&self, item: &TypedExpr) -> Option<Piece> {
        match holder(item) {
            TypedExpr::Text(at, _) => Some(self.texts.text(at.id)),
            _ => None,
        }
    }

    /// Adds what writes pieces as a line.
    pub(crate) fn push_line(
        &self,
        code: &mut Vec<CoreForm>,
        mut pieces: Vec<CorePiece>,
    ) -> Result<(), AllocError> {
        pieces.push(text_piece(LINE))?;
        code.push(CoreForm::Print(Items::from_vec(pieces)))?;
        Ok(())
    }
}
