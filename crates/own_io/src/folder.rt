ghost use Rattle.std.specs.Prelude.{◌≡◌, ◌≢◌, ℕ, ◌≤◌, ◌⊎◌, Bool, List, Option, None, Some, IsTrue, OnOk};
ghost use Rattle.own_io.specs.Outside.{HasRisen};
ghost use Rattle.own_io.specs.Folder.{OnLoadFailed, TellsTaken, TellsContent, OnSaveFailed, OnSaveMemory};

use own_tree::Bytes;

/// Why a content was not read.
#[derive(Clone, Copy, Debug, PartialEq, Eq)]
pub enum LoadError {
    /// The outside failed, or the name is not there.
    Failed,
    /// The content is longer than was asked for; `taken` bytes of it were taken.
    TooLong { taken: usize },
    /// Memory was refused.
    Memory,
}

/// Why a content was not written.
#[derive(Clone, Copy, Debug, PartialEq, Eq)]
pub enum SaveError {
    /// The outside failed.
    Failed,
    /// Memory was refused.
    Memory,
}

/// Contents by name, which are read and written whole.
pub trait Folder {
    /// Whether the folder tells its content. What it tells of a name binds only where it does.
    ghost tells: { Self → Bool };

    /// The content of a name, and `None` where the name is not there.
    ghost held: { Self → List ℕ → Option (List ℕ) };

    /// How often the outside failed. The count never falls, and stands still at its end.
    ghost faults: { Self → ℕ };

    /// How many bytes the last `load` took.
    ghost taken: { Self → ℕ };

    /// The whole content of a name, if it is no longer than `most` bytes.
    fn load(&mut self, name: &str, most: usize) -> Result<Bytes, LoadError>
        ensures count { faults self.old ≤ faults self.new }
        // A name that is merely missing is no fault of the outside.
        ensures failed { OnLoadFailed result
            (HasRisen (faults self.old) (faults self.new)
            ⊎ (IsTrue (tells self.old) × (held self.old name.now ≡ None) × (faults self.new ≡ faults self.old))) }
        ensures taken_is { TellsTaken result most (taken self.new) }
        ensures content { IsTrue (tells self.old) → TellsContent result most (held self.old name.now) }

        ensures tells_stays { tells self.new ≡ tells self.old }
        ensures held_stays { (other : List ℕ) → held self.new other ≡ held self.old other };

    /// Makes the bytes the whole content of a name. After `Failed` the content of that name is open.
    fn save(&mut self, name: &str, bytes: &[u8]) -> Result<(), SaveError>
        ensures count { faults self.old ≤ faults self.new }
        ensures failed { OnSaveFailed result (HasRisen (faults self.old) (faults self.new)) }
        ensures content { IsTrue (tells self.old) → OnOk result (held self.new name.now ≡ Some bytes.now) }
        ensures others { (other : List ℕ) → other ≢ name.now → held self.new other ≡ held self.old other }
        ensures memory { OnSaveMemory result ((other : List ℕ) → held self.new other ≡ held self.old other) }

        ensures taken_stays { taken self.new ≡ taken self.old }
        ensures tells_stays { tells self.new ≡ tells self.old };
}
