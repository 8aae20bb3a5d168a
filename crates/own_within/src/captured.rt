//! What a closure captures.

/// A binding that is mentioned or captured, and whether it is changed: in whole or in part it is assigned,
/// passed `inout`, or has a mutating method called on it.
#[derive(Clone, Copy, Debug, PartialEq, Eq)]
pub struct Captured {
    pub binding: u32,
    pub change: bool,
}
