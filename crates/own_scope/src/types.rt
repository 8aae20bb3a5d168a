//! What the table says of any type. Of a number that is not in it these functions say what the definitions
//! do: it has no parts, and is copied.

ghost use Rattle.std.specs.Prelude.{◌≡◌, ◌≤◌, length, true, false};
ghost use Rattle.own_tree.specs.declared.limits.TheConstants.{MOST_FIELDS};
ghost use Rattle.own_judged.specs.Names.{case_from, on_found, property_from};
ghost use Rattle.own_scope.specs.Members.{case_held, property_held};
ghost use Rattle.own_shapes.specs.Types.{is_copyable, no_value};
ghost use Rattle.own_table.specs.Table.{types_in, IsTypeIn, shape_in_table};

use own_shapes::{CaseInfo, FieldInfo};
use own_table::TypeTable;
use own_tree::Ty;

/// Whether it is a type of the table.
#[tactic(auto, using(crate::proofs::Undeclared::shapeless))]
pub fn is_type(table: &TypeTable, ty: Ty) -> bool
    ensures here { result ≡ true → IsTypeIn table.now ty }
    ensures absent { result ≡ false → IsTypeIn table.now ty → ⊥ }
    ensures shape { result ≡ false → shape_in_table table.now ty ≡ no_value }
{
    match ty {
        Ty::Named(number) => number < table.count(),
        Ty::Int | Ty::Bool | Ty::Unit | Ty::Fun(_) => true,
    }
}

/// The stored properties of a type, in order of declaration.
#[tactic(auto, using(crate::proofs::Undeclared::without_properties))]
pub fn properties<'t>(table: &'t TypeTable, ty: Ty) -> &'t [FieldInfo]
    ensures { result.now ≡ (types_in table.now).properties ty }
{
    if is_type(table, ty) {
        table.fields(ty)
    } else {
        &[]
    }
}

/// The cases of a type, in order of declaration.
#[tactic(auto, using(crate::proofs::Undeclared::without_cases))]
pub fn cases<'t>(table: &'t TypeTable, ty: Ty) -> &'t [CaseInfo]
    ensures { result.now ≡ (types_in table.now).cases ty }
{
    if is_type(table, ty) {
        table.cases(ty)
    } else {
        &[]
    }
}

/// Whether it is a declared enum.
#[tactic(auto, using(crate::proofs::Undeclared::no_enum))]
pub fn is_enum(table: &TypeTable, ty: Ty) -> bool
    ensures { result ≡ (types_in table.now).is_enum ty }
{
    is_type(table, ty) && table.is_enum(ty)
}

/// Whether a value of the type may be copied (SE-0390).
#[tactic(auto, using(crate::proofs::Undeclared::copied))]
pub fn copyable(table: &TypeTable, ty: Ty) -> bool
    ensures { result ≡ is_copyable (types_in table.now) ty }
{
    !is_type(table, ty) || table.copyable(ty)
}

/// The stored property of that name, with its number.
fn property_in<'t>(fields: &'t [FieldInfo], name: &[u8]) -> Option<(u32, &'t FieldInfo)>
    requires { length fields.now ≤ MOST_FIELDS }
    ensures { on_found property_held result ≡ property_from 0 fields.now name.now }
{
    for number in 0..fields.len() {
        if fields[number].name.as_slice() == name {
            return Some((number as u32, &fields[number]));
        }
    }
    None
}

/// The stored property of that name of a type, with its number.
#[tactic(auto, using(crate::proofs::Undeclared::few_properties))]
pub fn property<'t>(table: &'t TypeTable, ty: Ty, name: &[u8]) -> Option<(u32, &'t FieldInfo)>
    ensures { on_found property_held result ≡ property_from 0 ((types_in table.now).properties ty) name.now }
{
    if !is_type(table, ty) {
        return None;
    }
    property_in(table.fields(ty), name)
}

/// The case of that name, with its number.
fn case_in<'t>(cases: &'t [CaseInfo], name: &[u8]) -> Option<(u32, &'t CaseInfo)>
    requires { length cases.now ≤ MOST_FIELDS }
    ensures { on_found case_held result ≡ case_from 0 cases.now name.now }
{
    for number in 0..cases.len() {
        if cases[number].name.as_slice() == name {
            return Some((number as u32, &cases[number]));
        }
    }
    None
}

/// The case of that name of a type, with its number.
#[tactic(auto, using(crate::proofs::Undeclared::few_cases))]
pub fn case_of_type<'t>(table: &'t TypeTable, ty: Ty, name: &[u8]) -> Option<(u32, &'t CaseInfo)>
    ensures { on_found case_held result ≡ case_from 0 ((types_in table.now).cases ty) name.now }
{
    if !is_type(table, ty) {
        return None;
    }
    case_in(table.cases(ty), name)
}
