//! An order of the declared types in which each comes after what it contains. The search goes down from
//! each type to what it contains, along a path of its own in place of a recursion.

ghost use Rattle.std.specs.Prelude.{vec_len, ◌≤◌, ◌≡◌, ◌≢◌, ◌∷◌, [], ◌++◌, ◌<◌, ◌^◌, length, slice_get, Some, None, Contains, IfOk, IfErr, OnOk, MatchOption};
ghost use Rattle.own_tree.specs.declared.limits.TheConstants.{MOST_TYPES};
ghost use Rattle.own_shapes.specs.Types.{PartsAreTypes, contained, field_types, all_case_types};
ghost use Rattle.own_table.specs.declared.mark.Mark.TheVariants as mark;
ghost use Rattle.own_table.specs.Order.{HasPart, ComeAfterParts, IsContainmentOrder, IsCircle, first_unsettled, unsettled};
ghost use Rattle.own_table.specs.Settling.{Settles, SettlesWith, IsOpened, IsOpenedBelow, IsSettledAs, Keeps, work_of, work_with};

use crate::mark::{Mark, Unordered};
use own_shapes::{CaseInfo, FieldInfo, TypeInfo};
use own_tree::Ty;
use std::alloc::{AllocError, Global};

/// A declared type that is not settled yet.
fn unsettled(ty: Ty, marks: &[Mark]) -> Option<u32>
    ensures { result ≡ unsettled marks.now ty }
{
    match ty {
        Ty::Named(k) => match marks.get(k as usize) {
            Some(Mark::Settled) => None,
            _ => Some(k),
        },
        _ => None,
    }
}

fn unsettled_payload(payloads: &[Ty], marks: &[Mark]) -> Option<u32>
    ensures { result ≡ first_unsettled marks.now payloads.now }
{
    for ty in payloads {
        if let Some(k) = unsettled(*ty, marks) {
            return Some(k);
        }
    }
    None
}

fn unsettled_field(fields: &[FieldInfo], marks: &[Mark]) -> Option<u32>
    ensures { result ≡ first_unsettled marks.now (field_types fields.now) }
{
    for field in fields {
        if let Some(k) = unsettled(field.ty, marks) {
            return Some(k);
        }
    }
    None
}

fn unsettled_in_cases(cases: &[CaseInfo], marks: &[Mark]) -> Option<u32>
    ensures { result ≡ first_unsettled marks.now (all_case_types cases.now) }
{
    for case in cases {
        if let Some(k) = unsettled_payload(case.payloads.as_slice(), marks) {
            return Some(k);
        }
    }
    None
}

/// The first part of a type that is not settled yet.
fn unsettled_part(info: &TypeInfo, marks: &[Mark]) -> Option<u32>
    ensures { result ≡ first_unsettled marks.now (contained info.now) }
{
    if info.is_enum {
        unsettled_in_cases(info.cases.as_slice(), marks)
    } else {
        unsettled_field(info.fields.as_slice(), marks)
    }
}

/// A search for an order: how far each type is, the open types, each of which contains the next one, and
/// the settled ones in order.
#[derive(Drop)]
pub struct Settling {
    marks: Vec<Mark>,
    path: Vec<u32>,
    order: Vec<u32>,
}

impl Settling {
    /// A search that has not looked at any type.
    fn new(alloc: Global, types: &[TypeInfo]) -> Result<Settling, AllocError>
        ensures settles { IfOk result (Settles types.now) }
        ensures path { IfOk result (λ s. s.path.items ≡ []) }
    {
        Ok(Settling {
            marks: vec![in alloc; Mark::New; types.len()]?,
            path: Vec::new(alloc),
            order: Vec::new(alloc),
        })
    }

    /// Puts a type on the path.
    fn open(&mut self, number: u32) -> Result<(), AllocError>
        requires { number < vec_len self.old.marks }
        ensures { OnOk result (IsOpened self.old self.new number) }
    {
        self.path.push(number)?;
        self.marks[number as usize] = Mark::Open;
        Ok(())
    }

    /// Puts a type on the path, and a part of it.
    fn open_below(&mut self, number: u32, part: u32) -> Result<(), AllocError>
        requires { part < vec_len self.old.marks }
        ensures { OnOk result (IsOpenedBelow self.old self.new number part) }
    {
        self.path.push(number)?;
        self.open(part)
    }

    /// Puts a type into the order.
    fn settle(&mut self, number: u32) -> Result<(), AllocError>
        requires { number < vec_len self.old.marks }
        ensures { OnOk result (IsSettledAs self.old self.new number) }
    {
        self.order.push(number)?;
        self.marks[number as usize] = Mark::Settled;
        Ok(())
    }

    /// Goes on with `last`, which was the last type on the path: opens a part of it that is not settled,
    /// or else settles it.
    fn advance(&mut self, types: &[TypeInfo], last: u32) -> Result<(), Unordered>
        requires settling { SettlesWith types.now self.old last }
        requires closed { PartsAreTypes types.now }
        ensures ok { OnOk result (Settles types.now self.new) }
        ensures less { OnOk result (work_of self.new < work_with self.old last) }
        ensures kept { OnOk result (Keeps self.old self.new) }
        ensures err { IfErr result (IsCircle types.now) }
    {
        match unsettled_part(&types[last as usize], self.marks.as_slice()) {
            None => self.settle(last)?,
            Some(part) => match self.marks[part as usize] {
                Mark::New => self.open_below(last, part)?,
                _ => return Err(Unordered::ContainsItself(part)),
            },
        }
        Ok(())
    }

    /// Settles a type and all that it contains.
    fn reach(&mut self, types: &[TypeInfo], number: u32) -> Result<(), Unordered>
        requires declared { number < length types.now }
        requires settles { Settles types.now self.old }
        requires path { self.old.path.items ≡ [] }
        requires closed { PartsAreTypes types.now }
        ensures settles { OnOk result (Settles types.now self.new) }
        ensures path { OnOk result (self.new.path.items ≡ []) }
        ensures kept { OnOk result (Keeps self.old self.new) }
        ensures reached { OnOk result (slice_get self.new.marks.items number ≢ Some mark.New) }
        ensures err { IfErr result (IsCircle types.now) }
    {
        if let Mark::New = self.marks[number as usize] {
            self.open(number)?;
        }
        while let Some(last) = self.path.pop() {
            self.advance(types, last)?;
        }
        Ok(())
    }
}

/// The declared types in an order in which each comes after what it contains, or one that contains
/// itself.
pub fn containment_order(alloc: Global, types: &[TypeInfo]) -> Result<Vec<u32>, Unordered>
    requires few { length types.now ≤ MOST_TYPES }
    requires closed { PartsAreTypes types.now }
    ensures ok { IfOk result (λ order. IsContainmentOrder types.now order.items) }
    ensures err { IfErr result (IsCircle types.now) }
{
    let mut settling = Settling::new(alloc, types)?;
    for number in 0..types.len() {
        settling.reach(types, number as u32)?;
    }
    let Settling { order, .. } = settling;
    Ok(order)
}
