ghost use Rattle.std.specs.Prelude.{◌≡◌};

use crate::code::CoreForm;
use own_tree::placement::Flag;
use own_tree::row::{Bytes, Row};
use sqlite_items::Items;

/// A function of a core. It takes its arguments in its frame, and leaves its result there.
#[derive(Drop)]
pub struct CoreFunction {
    /// How many local words it has. They are 0 where it begins.
    pub locals: u32,
    pub code: Items<CoreForm>,
}

/// A core: the program over words. A contract sees it through `core_view` of `specs/CoreView.antt`.
#[derive(Drop)]
pub struct Core {
    pub functions: Row<CoreFunction>,
    /// The number of the function that a run calls.
    pub main: u32,
    /// The bytes that text pieces are taken from.
    pub texts: Bytes,
    /// The leaves for which the running program remembers whether they have a value.
    pub flags: Row<Flag>,
}

impl Core {
    /// The flags of the placement that the core was made by, in its order. Takes no memory.
    pub fn flags(&self) -> &[Flag]
        ensures { result.now ≡ self.now.flags }
    {
        self.flags.as_slice()
    }
}
