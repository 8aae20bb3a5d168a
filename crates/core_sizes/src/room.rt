//! What is left of the room of a module, and what does not fit in it.

ghost use Rattle.std.specs.Prelude.{◌≡◌, ◌+◌, ◌≤◌, IfOk, OnOk};

/// More than there is room for.
#[derive(Debug, Clone, Copy)]
pub(crate) struct TooLarge;

/// The room of code where it stands.
#[derive(Clone, Copy)]
pub(crate) struct Room {
    /// How many labels of the machine may stand in one another.
    pub(crate) labels: u32,
    /// How many operands may lie on the stack at once.
    pub(crate) operands: u32,
}

impl Room {
    /// The room inside a label.
    pub(crate) fn inside(self) -> Result<Room, TooLarge>
        ensures labels { IfOk result (λ inner. inner.labels + 1 ≡ self.labels) }
        ensures operands { IfOk result (λ inner. inner.operands ≡ self.operands) }
    {
        if self.labels == 0 {
            return Err(TooLarge);
        }
        Ok(Room {
            labels: self.labels - 1,
            operands: self.operands,
        })
    }

    /// The room above so many operands.
    pub(crate) fn above(self, operands: u32) -> Result<Room, TooLarge>
        ensures labels { IfOk result (λ upper. upper.labels ≡ self.labels) }
        ensures operands { IfOk result (λ upper. upper.operands + operands ≡ self.operands) }
    {
        if self.operands < operands {
            return Err(TooLarge);
        }
        Ok(Room {
            labels: self.labels,
            operands: self.operands - operands,
        })
    }
}

/// Whether a count is at most so large.
pub(crate) fn within(count: u32, most: u32) -> Result<(), TooLarge>
    ensures { OnOk result (count ≤ most) }
{
    if count > most {
        return Err(TooLarge);
    }
    Ok(())
}

/// Takes so many bytes of those that are left.
pub(crate) fn spend(left: &mut u64, bytes: u64) -> Result<(), TooLarge>
    ensures { OnOk result (left.new + bytes ≡ left.old) }
{
    if *left < bytes {
        return Err(TooLarge);
    }
    *left -= bytes;
    Ok(())
}
