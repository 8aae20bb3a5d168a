ghost use Rattle.std.specs.Prelude.{◌≡◌, [], ◌∷◌, ◌++◌, ◌<◌, ◌↔◌, IsTrue, IfOk, OnOk, OnErr, OnSome, length, slice_get};
ghost use Rattle.std.specs.Option.{option_copied};

use std::alloc::{AllocError, Global};
use std::marker::Model;

/// A list over a `Vec`. Contracts see the list of its elements, and neither capacity nor place.
#[derive(Debug, Drop)]
pub struct Row<T> {
    elements: Vec<T>,
}

/// A list of bytes.
pub type Bytes = Row<u8>;

impl<T> Model for Row<T> {
    ghost use Rattle.std.specs.Prelude.{List};
    ghost use Rattle.std.specs.Coded.{coded_list};

    ghost Value = { List T };

    ghost coded = { coded_list T.code };

    ghost view = { λ row. row.elements.items };
}

impl<T> Row<T> {
    /// The empty list, which takes no memory yet.
    pub fn new(alloc: Global) -> Row<T>
        ensures { result ≡ [] }
    {
        Row {
            elements: Vec::new(alloc),
        }
    }

    /// The elements of a `Vec`, moved without taking memory.
    pub fn from_vec(elements: Vec<T>) -> Row<T>
        ensures { result ≡ elements.items }
    {
        Row { elements }
    }

    /// The `Vec` under it, given back without taking memory.
    pub fn into_vec(self) -> Vec<T>
        ensures { result.items ≡ self }
    {
        let Row { elements } = self;
        elements
    }

    pub fn as_slice(&self) -> &[T]
        ensures { result.now ≡ self.now }
    {
        self.elements.as_slice()
    }

    pub fn len(&self) -> usize
        ensures { result ≡ length self.now }
    {
        self.elements.len()
    }

    pub fn is_empty(&self) -> bool
        ensures { IsTrue result ↔ (self.now ≡ []) }
    {
        self.elements.is_empty()
    }

    pub fn get(&self, at: usize) -> Option<&T>
        ensures value { option_copied result ≡ slice_get self.now at }
        ensures within { OnSome result (at < length self.now) }
    {
        self.elements.get(at)
    }
}

impl<T: Drop> Row<T> {
    /// Adds an element at the end, or leaves the list as it was.
    pub fn push(&mut self, element: T) -> Result<(), AllocError>
        ensures ok { OnOk result (self.new ≡ self.old ++ element ∷ []) }
        ensures err { OnErr result (self.new ≡ self.old) }
    {
        self.elements.push(element)?;
        Ok(())
    }
}

impl<T: Copy> Row<T> {
    /// A copy of the elements.
    pub fn from_slice(alloc: Global, elements: &[T]) -> Result<Row<T>, AllocError>
        ensures { IfOk result (λ row. row ≡ elements.now) }
    {
        Ok(Row {
            elements: Vec::from_slice(alloc, elements)?,
        })
    }
}
