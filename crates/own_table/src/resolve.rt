//! The declarations of a tree, with each name resolved.

ghost use Rattle.std.specs.Prelude.{true, false, ◌≡◌, ◌++◌, ◌∷◌, [], map, IfOk, OnOk};
ghost use Rattle.std.specs.List.{list_any};
ghost use Rattle.own_tree.specs.View.{declaration_view, enum_member_view, struct_member_view};
ghost use Rattle.own_shapes.specs.Types.{declared_as, declared_types, is_var, resolved_by, resolved_case, resolved_field, resolved_types};
ghost use Rattle.own_survey.specs.Names.{Knows, type_in};
ghost use Rattle.own_table.specs.Resolving.{declared_infos, is_deinitializer, member_cases, member_fields};

use own_shapes::{CaseInfo, FieldInfo, TypeInfo};
use own_survey::names::TypeNames;
use own_tree::tree::{
    CaseItem, Declaration, EnumDeclaration, EnumMember, Field, Keyword, Name, StructDeclaration,
    StructMember,
};
use own_tree::{Bytes, Row, Ty};
use std::alloc::{AllocError, Global};

fn is_var(keyword: Keyword) -> bool
    ensures { result ≡ is_var keyword }
{
    match keyword {
        Keyword::Let => false,
        Keyword::Var => true,
    }
}

fn field_info(alloc: Global, field: &Field, names: &TypeNames) -> Result<FieldInfo, AllocError>
    ensures { IfOk result (λ info. info ≡ resolved_field (type_in names.now) field.now) }
{
    Ok(FieldInfo {
        name: Bytes::from_slice(alloc, field.name.text.as_slice())?,
        ty: names.written_type(field.written.text.as_slice()),
        changes: is_var(field.keyword),
    })
}

fn push_field(
    alloc: Global,
    fields: &mut Row<FieldInfo>,
    member: &StructMember,
    names: &TypeNames,
) -> Result<(), AllocError>
    ensures { OnOk result (fields.new ≡ fields.old
        ++ member_fields (type_in names.now) (struct_member_view member.now ∷ [])) }
{
    match member {
        StructMember::Field(field) => {
            fields.push(field_info(alloc, field, names)?)?;
            Ok(())
        }
        StructMember::Initializer(_) => Ok(()),
        StructMember::Deinitializer(_) => Ok(()),
        StructMember::Method(_) => Ok(()),
    }
}

fn struct_fields(
    alloc: Global,
    members: &[StructMember],
    names: &TypeNames,
) -> Result<Row<FieldInfo>, AllocError>
    ensures { IfOk result (λ fields. fields ≡ member_fields (type_in names.now) (map struct_member_view members.now)) }
{
    let mut fields = Row::new(alloc);
    for member in members {
        push_field(alloc, &mut fields, member, names)?;
    }
    Ok(fields)
}

fn is_struct_deinit(member: &StructMember) -> bool
    ensures { result ≡ is_deinitializer (struct_member_view member.now) }
{
    match member {
        StructMember::Deinitializer(_) => true,
        _ => false,
    }
}

fn struct_has_deinit(members: &[StructMember]) -> bool
    ensures { result ≡ list_any is_deinitializer (map struct_member_view members.now) }
{
    for member in members {
        if is_struct_deinit(member) {
            return true;
        }
    }
    false
}

fn written_types(alloc: Global, written: &[Name], names: &TypeNames) -> Result<Row<Ty>, AllocError>
    ensures { IfOk result (λ tys. tys ≡ map (λ name. type_in names.now name.text) written.now) }
{
    let mut tys = Row::new(alloc);
    for name in written {
        tys.push(names.written_type(name.text.as_slice()))?;
    }
    Ok(tys)
}

fn case_info(alloc: Global, item: &CaseItem, names: &TypeNames) -> Result<CaseInfo, AllocError>
    ensures { IfOk result (λ info. info ≡ resolved_case (type_in names.now) item.now) }
{
    Ok(CaseInfo {
        name: Bytes::from_slice(alloc, item.name.text.as_slice())?,
        payloads: written_types(alloc, item.payloads.as_slice(), names)?,
    })
}

fn push_items(
    alloc: Global,
    cases: &mut Row<CaseInfo>,
    items: &[CaseItem],
    names: &TypeNames,
) -> Result<(), AllocError>
    ensures { OnOk result (cases.new ≡ cases.old ++ map (resolved_case (type_in names.now)) items.now) }
{
    for item in items {
        cases.push(case_info(alloc, item, names)?)?;
    }
    Ok(())
}

fn push_cases(
    alloc: Global,
    cases: &mut Row<CaseInfo>,
    member: &EnumMember,
    names: &TypeNames,
) -> Result<(), AllocError>
    ensures { OnOk result (cases.new ≡ cases.old
        ++ member_cases (type_in names.now) (enum_member_view member.now ∷ [])) }
{
    match member {
        EnumMember::Cases(_, items) => push_items(alloc, cases, items.as_slice(), names),
        EnumMember::Deinitializer(_) => Ok(()),
        EnumMember::Method(_) => Ok(()),
    }
}

fn enum_cases(
    alloc: Global,
    members: &[EnumMember],
    names: &TypeNames,
) -> Result<Row<CaseInfo>, AllocError>
    ensures { IfOk result (λ cases. cases ≡ member_cases (type_in names.now) (map enum_member_view members.now)) }
{
    let mut cases = Row::new(alloc);
    for member in members {
        push_cases(alloc, &mut cases, member, names)?;
    }
    Ok(cases)
}

fn is_enum_deinit(member: &EnumMember) -> bool
    ensures { result ≡ is_deinitializer (enum_member_view member.now) }
{
    match member {
        EnumMember::Deinitializer(_) => true,
        _ => false,
    }
}

fn enum_has_deinit(members: &[EnumMember]) -> bool
    ensures { result ≡ list_any is_deinitializer (map enum_member_view members.now) }
{
    for member in members {
        if is_enum_deinit(member) {
            return true;
        }
    }
    false
}

fn struct_info(
    alloc: Global,
    tree: &StructDeclaration,
    names: &TypeNames,
) -> Result<TypeInfo, AllocError>
    ensures { IfOk result (λ info.
        info ≡ resolved_by (type_in names.now)
        (declared_as false tree.now.name tree.now.noncopyable (map struct_member_view tree.now.members))) }
{
    let members = tree.members.as_slice();
    Ok(TypeInfo {
        name: Bytes::from_slice(alloc, tree.name.text.as_slice())?,
        is_enum: false,
        noncopyable: tree.noncopyable,
        has_deinit: struct_has_deinit(members),
        fields: struct_fields(alloc, members, names)?,
        cases: Row::new(alloc),
    })
}

fn enum_info(
    alloc: Global,
    tree: &EnumDeclaration,
    names: &TypeNames,
) -> Result<TypeInfo, AllocError>
    ensures { IfOk result (λ info.
        info ≡ resolved_by (type_in names.now)
        (declared_as true tree.now.name tree.now.noncopyable (map enum_member_view tree.now.members))) }
{
    let members = tree.members.as_slice();
    Ok(TypeInfo {
        name: Bytes::from_slice(alloc, tree.name.text.as_slice())?,
        is_enum: true,
        noncopyable: tree.noncopyable,
        has_deinit: enum_has_deinit(members),
        fields: Row::new(alloc),
        cases: enum_cases(alloc, members, names)?,
    })
}

fn push_type(
    alloc: Global,
    infos: &mut Row<TypeInfo>,
    declaration: &Declaration,
    names: &TypeNames,
) -> Result<(), AllocError>
    ensures { OnOk result (infos.new ≡ infos.old
        ++ declared_infos (type_in names.now) (declaration_view declaration.now ∷ [])) }
{
    match declaration {
        Declaration::Struct(tree) => {
            infos.push(struct_info(alloc, tree, names)?)?;
            Ok(())
        }
        Declaration::Enum(tree) => {
            infos.push(enum_info(alloc, tree, names)?)?;
            Ok(())
        }
        Declaration::Function(_) => Ok(()),
    }
}

fn declared_infos(
    alloc: Global,
    declarations: &[Declaration],
    names: &TypeNames,
) -> Result<Row<TypeInfo>, AllocError>
    ensures { IfOk result (λ infos.
        infos ≡ declared_infos (type_in names.now) (map declaration_view declarations.now)) }
{
    let mut infos = Row::new(alloc);
    for declaration in declarations {
        push_type(alloc, &mut infos, declaration, names)?;
    }
    Ok(infos)
}

/// The declared types in order. A written name that names no type counts as `Unit`.
pub fn resolved_types(
    alloc: Global,
    declarations: &[Declaration],
    names: &TypeNames,
) -> Result<Row<TypeInfo>, AllocError>
    requires { Knows names.now.types.entries (declared_types (map declaration_view declarations.now)) }
    ensures { IfOk result (λ infos. infos ≡ resolved_types (declared_types (map declaration_view declarations.now))) }
{
    declared_infos(alloc, declarations, names)
}
