//! What code is made from, and the parts of forms that all constructs share.

use crate::texts::Texts;
use core_form::limits::ROOM;
use core_form::{CoreForm, CoreWord};
use core_place::{Places, Spot, push_store};
use own_tree::typed::Comparison;
use own_tree::{Arith, Ty};
use sqlite_items::{Boxed, Items};
use std::alloc::{AllocError, Global};

/// Where a value on its way stands: in the room of the frame of the next level.
pub(crate) const ON_ITS_WAY: Spot = Spot::Next(ROOM);
/// Where a value of this frame waits that has no words of its own.
pub(crate) const OWN_ROOM: Spot = Spot::Mine(ROOM);

/// The places of a body, the texts of its program, and whether events are written.
#[derive(Clone, Copy)]
pub(crate) struct Coder<'t> {
    pub(crate) alloc: Global,
    pub(crate) places: Places<'t>,
    pub(crate) texts: &'t Texts,
    pub(crate) traced: bool,
}

/// Whether a value is a word by itself.
pub(crate) fn is_word(ty: Ty) -> bool {
    matches!(ty, Ty::Int | Ty::Bool)
}

impl<'t> Coder<'t> {
    /// That of the body of that number.
    pub(crate) fn within(&self, body: u32) -> Coder<'t> {
        Coder {
            alloc: self.alloc,
            places: Places {
                alloc: self.alloc,
                typed: self.places.typed,
                table: self.places.table,
                layout: self.places.layout,
                body,
            },
            texts: self.texts,
            traced: self.traced,
        }
    }
}

impl Coder<'_> {
    /// No forms yet.
    pub(crate) fn no_code(&self) -> Vec<CoreForm> {
        Vec::new(self.alloc)
    }

    /// One form.
    pub(crate) fn one(&self, form: CoreForm) -> Result<Vec<CoreForm>, AllocError> {
        let mut code = self.no_code();
        code.push(form)?;
        Ok(code)
    }

    pub(crate) fn boxed(&self, word: CoreWord) -> Result<Boxed<CoreWord>, AllocError> {
        Boxed::new(self.alloc, word)
    }

    pub(crate) fn compare(
        &self,
        op: Comparison,
        first: CoreWord,
        second: CoreWord,
    ) -> Result<CoreWord, AllocError> {
        let first = self.boxed(first)?;
        let second = self.boxed(second)?;
        Ok(CoreWord::Compare(op, first, second))
    }

    pub(crate) fn pick(
        &self,
        test: CoreWord,
        first: CoreWord,
        second: CoreWord,
    ) -> Result<CoreWord, AllocError> {
        let test = self.boxed(test)?;
        let first = self.boxed(first)?;
        let second = self.boxed(second)?;
        Ok(CoreWord::Pick(test, first, second))
    }

    /// Arithmetic that traps at that offset of the text.
    pub(crate) fn arithmetic(
        &self,
        op: Arith,
        at: u32,
        first: CoreWord,
        second: CoreWord,
    ) -> Result<CoreWord, AllocError> {
        let first = self.boxed(first)?;
        let second = self.boxed(second)?;
        Ok(CoreWord::Arithmetic(op, at, first, second))
    }

    /// A sum, a difference or a product in two's complement.
    pub(crate) fn wrapped(
        &self,
        op: Arith,
        first: CoreWord,
        second: CoreWord,
    ) -> Result<CoreWord, AllocError> {
        let first = self.boxed(first)?;
        let second = self.boxed(second)?;
        Ok(CoreWord::Wrap(op, first, second))
    }

    /// A word that is evaluated after some forms.
    pub(crate) fn following(
        &self,
        code: Vec<CoreForm>,
        word: CoreWord,
    ) -> Result<CoreWord, AllocError> {
        let word = self.boxed(word)?;
        Ok(CoreWord::Following(Items::from_vec(code), word))
    }

    pub(crate) fn push_store(
        &self,
        code: &mut Vec<CoreForm>,
        to: Spot,
        word: CoreWord,
    ) -> Result<(), AllocError> {
        push_store(self.alloc, code, to, word)
    }

    /// Adds the store of an address.
    pub(crate) fn push_address(
        &self,
        code: &mut Vec<CoreForm>,
        to: Spot,
        of: Spot,
    ) -> Result<(), AllocError> {
        let address = self.places.address(of)?;
        self.push_store(code, to, address)
    }

    /// Adds a block.
    pub(crate) fn push_block(
        &self,
        code: &mut Vec<CoreForm>,
        forms: Vec<CoreForm>,
    ) -> Result<(), AllocError> {
        code.push(CoreForm::Block(Items::from_vec(forms)))?;
        Ok(())
    }
}
