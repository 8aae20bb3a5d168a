//! The forms of a core and the words that they compute. A contract sees them through
//! `specs/CoreView.antt`, as plain data of `specs/CoreSource.antt`. What they do is said in
//! `specs/CoreRun.antt`.

use own_tree::arithmetic::Arith;
use own_tree::typed::Comparison;
use sqlite_items::{Boxed, Items};

/// Where a word stands.
#[derive(Drop)]
pub enum CoreAt {
    /// In the frame that runs, so many words from its first.
    Mine(u32),
    /// In the frame of the next level.
    Next(u32),
    /// Behind all frames, where it belongs to no level.
    Common(u32),
    /// So many words after the address that another word holds.
    Far(Boxed<CoreAt>, u32),
}

/// An expression of one word, which is an `Int`. A `Bool` is 1 or 0, an address is that of its first byte.
#[cycle(code)]
#[derive(Drop)]
pub enum CoreWord {
    Constant(i64),
    /// The word that stands there.
    Load(CoreAt),
    /// A local word, which no address names.
    Local(u32),
    Address(CoreAt),
    /// Arithmetic that traps on overflow, with the offset of its operator in bytes of the text.
    Arithmetic(Arith, u32, Boxed<CoreWord>, Boxed<CoreWord>),
    Negate(u32, Boxed<CoreWord>),
    /// A sum, a difference or a product in two's complement.
    Wrap(Arith, Boxed<CoreWord>, Boxed<CoreWord>),
    Compare(Comparison, Boxed<CoreWord>, Boxed<CoreWord>),
    /// The second word where the first is not 0, else the third. The other is not evaluated.
    Pick(Boxed<CoreWord>, Boxed<CoreWord>, Boxed<CoreWord>),
    /// A word that is evaluated after some forms.
    Following(Items<CoreForm>, Boxed<CoreWord>),
    /// The next number of the input, or 0 after its end.
    ReadInt,
}

/// A piece of what is written.
#[cycle(code)]
#[derive(Drop)]
pub enum CorePiece {
    /// Bytes of the texts of the core: the first, and how many.
    Text(u32, u32),
    /// In decimal.
    Int(CoreWord),
    /// `true`, or `false` for 0.
    Bool(CoreWord),
}

/// A form.
#[cycle(code)]
#[derive(Drop)]
pub enum CoreForm {
    Store(CoreAt, CoreWord),
    StoreLocal(u32, CoreWord),
    /// Evaluates the words of all pieces and then writes the pieces. A line of an event is a print too.
    Print(Items<CorePiece>),
    /// The first forms where the word is not 0, else the second ones.
    When(CoreWord, Items<CoreForm>, Items<CoreForm>),
    /// Forms whose end a jump can go to.
    Block(Items<CoreForm>),
    /// Forms that take a turn and are done again after their end, and after a jump to the loop.
    Loop(Items<CoreForm>),
    /// Leaves the block, or begins the loop again, that is so many blocks and loops farther out.
    Jump(u32),
    /// A call of a function in the next frame: a turn and a level.
    Call(u32),
    /// The call of a function that ends a value, in the frame that runs: a level and no turn.
    CallHere(u32),
    /// As a call, of the function whose number the word is: so a closure is called.
    CallWord(CoreWord),
    /// Moves one word and so many more to another place, word by word, the first one first.
    Copy(u32, CoreAt, CoreAt),
    /// A trap, by its code and its offset in bytes of the text.
    Trap(u32, u32),
}
