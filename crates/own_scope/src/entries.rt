//! The declarations with bodies of a text, with the numbers of their bodies.

ghost use Rattle.std.specs.Prelude.{◌≡◌, ◌+◌, ◌∷◌, ◌++◌, [], map, IfOk, OnOk};
ghost use Rattle.own_tree.specs.View.{block_view, declaration_view, enum_member_view, method_view, struct_member_view};
ghost use Rattle.own_judged.specs.Text.{bodies_of, callable as callable_rule, entries as entries_rule, for_function, member_bodies, member_entries};
ghost use Rattle.own_scope.specs.TypeNames.{written_in};
ghost use Rattle.own_scope.specs.Entries.{declaration_bodies, declaration_types};
ghost use Rattle.own_scope.specs.Known.{callable_of, entry_of};

use crate::callable::{Callable, Entry, Method};
use crate::counting::count_block;
use crate::declared::DeclaredTypes;
use crate::signatures::{given_result, params_of};
use own_tree::tree::{
    Block, Declaration, EnumMember, FunctionDeclaration, Method as MethodDeclaration, Parameter,
    ResultType, StructMember,
};
use own_tree::{Bytes, Signature};
use std::alloc::{AllocError, Global};

/// Counts a body and those in it.
#[tactic(auto, using(crate::proofs::Counted::body_counted))]
fn count_body(bodies: &mut u32, block: &Block) -> Result<(), AllocError>
    ensures { OnOk result (bodies.new ≡ bodies.old + bodies_of (block_view block.now)) }
{
    if *bodies == u32::MAX {
        return Err(AllocError);
    }
    *bodies += 1;
    count_block(bodies, block)
}

/// A body with that number, as it is called.
fn callable(
    alloc: Global,
    types: &DeclaredTypes,
    signatures: &[Signature],
    body: u32,
    parameters: &[Parameter],
    written: &Option<ResultType>,
) -> Result<Callable, AllocError>
    ensures { IfOk result (λ c. callable_of c
        ≡ callable_rule (written_in types.now.names.items) signatures.now body parameters.now written.now) }
{
    Ok(Callable {
        body,
        params: params_of(alloc, types, signatures, parameters)?,
        result: given_result(types, written),
    })
}

/// A function with the number of its body.
fn called(
    alloc: Global,
    types: &DeclaredTypes,
    signatures: &[Signature],
    body: u32,
    function: &FunctionDeclaration,
) -> Result<Callable, AllocError>
    ensures { IfOk result (λ c. callable_of c
        ≡ callable_rule (written_in types.now.names.items) signatures.now body function.now.parameters
        function.now.result) }
{
    callable(
        alloc,
        types,
        signatures,
        body,
        function.parameters.as_slice(),
        &function.result,
    )
}

/// A method of the type of that number.
fn add_method(
    alloc: Global,
    types: &DeclaredTypes,
    signatures: &[Signature],
    owner: u32,
    bodies: &mut u32,
    entries: &mut Vec<Entry>,
    method: &MethodDeclaration,
) -> Result<(), AllocError>
    ensures entries { OnOk result (map entry_of entries.new.items ≡ map entry_of entries.old.items
        ++ member_entries (written_in types.now.names.items) signatures.now owner bodies.old
        (method_view method.now ∷ [])) }
    ensures bodies { OnOk result (bodies.new ≡ bodies.old
        + member_bodies (written_in types.now.names.items) signatures.now (method_view method.now ∷ [])) }
{
    let function = &method.function;
    let entry = Entry::Method(
        owner,
        Bytes::from_slice(alloc, function.name.text.as_slice())?,
        Method {
            mode: method.mode,
            callable: called(alloc, types, signatures, *bodies, function)?,
        },
    );
    entries.push(entry)?;
    count_body(bodies, &function.block)
}

/// A member of the struct of that number.
fn add_struct_member(
    alloc: Global,
    types: &DeclaredTypes,
    signatures: &[Signature],
    owner: u32,
    bodies: &mut u32,
    entries: &mut Vec<Entry>,
    member: &StructMember,
) -> Result<(), AllocError>
    ensures entries { OnOk result (map entry_of entries.new.items ≡ map entry_of entries.old.items
        ++ member_entries (written_in types.now.names.items) signatures.now owner bodies.old
        (struct_member_view member.now ∷ [])) }
    ensures bodies { OnOk result (bodies.new ≡ bodies.old
        + member_bodies (written_in types.now.names.items) signatures.now (struct_member_view member.now ∷ [])) }
{
    match member {
        StructMember::Field(_) => Ok(()),
        StructMember::Initializer(init) => {
            let parameters = init.parameters.as_slice();
            let made = callable(alloc, types, signatures, *bodies, parameters, &None)?;
            entries.push(Entry::Initializer(owner, made))?;
            count_body(bodies, &init.block)
        }
        StructMember::Deinitializer(deinit) => count_body(bodies, &deinit.block),
        StructMember::Method(method) => {
            add_method(alloc, types, signatures, owner, bodies, entries, method)
        }
    }
}

/// The members of the struct of that number.
fn add_struct_members(
    alloc: Global,
    types: &DeclaredTypes,
    signatures: &[Signature],
    owner: u32,
    bodies: &mut u32,
    entries: &mut Vec<Entry>,
    members: &[StructMember],
) -> Result<(), AllocError>
    ensures entries { OnOk result (map entry_of entries.new.items ≡ map entry_of entries.old.items
        ++ member_entries (written_in types.now.names.items) signatures.now owner bodies.old
        (map struct_member_view members.now)) }
    ensures bodies { OnOk result (bodies.new ≡ bodies.old
        + member_bodies (written_in types.now.names.items) signatures.now (map struct_member_view members.now)) }
{
    for member in members {
        add_struct_member(alloc, types, signatures, owner, bodies, entries, member)?;
    }
    Ok(())
}

/// A member of the enum of that number.
fn add_enum_member(
    alloc: Global,
    types: &DeclaredTypes,
    signatures: &[Signature],
    owner: u32,
    bodies: &mut u32,
    entries: &mut Vec<Entry>,
    member: &EnumMember,
) -> Result<(), AllocError>
    ensures entries { OnOk result (map entry_of entries.new.items ≡ map entry_of entries.old.items
        ++ member_entries (written_in types.now.names.items) signatures.now owner bodies.old
        (enum_member_view member.now ∷ [])) }
    ensures bodies { OnOk result (bodies.new ≡ bodies.old
        + member_bodies (written_in types.now.names.items) signatures.now (enum_member_view member.now ∷ [])) }
{
    match member {
        EnumMember::Cases(_, _) => Ok(()),
        EnumMember::Deinitializer(deinit) => count_body(bodies, &deinit.block),
        EnumMember::Method(method) => {
            add_method(alloc, types, signatures, owner, bodies, entries, method)
        }
    }
}

/// The members of the enum of that number.
fn add_enum_members(
    alloc: Global,
    types: &DeclaredTypes,
    signatures: &[Signature],
    owner: u32,
    bodies: &mut u32,
    entries: &mut Vec<Entry>,
    members: &[EnumMember],
) -> Result<(), AllocError>
    ensures entries { OnOk result (map entry_of entries.new.items ≡ map entry_of entries.old.items
        ++ member_entries (written_in types.now.names.items) signatures.now owner bodies.old
        (map enum_member_view members.now)) }
    ensures bodies { OnOk result (bodies.new ≡ bodies.old
        + member_bodies (written_in types.now.names.items) signatures.now (map enum_member_view members.now)) }
{
    for member in members {
        add_enum_member(alloc, types, signatures, owner, bodies, entries, member)?;
    }
    Ok(())
}

/// A function at the top.
fn add_function(
    alloc: Global,
    types: &DeclaredTypes,
    signatures: &[Signature],
    bodies: &mut u32,
    entries: &mut Vec<Entry>,
    function: &FunctionDeclaration,
) -> Result<(), AllocError>
    ensures entries { OnOk result (map entry_of entries.new.items ≡ map entry_of entries.old.items
        ++ for_function function.now.name.text (callable_rule (written_in types.now.names.items) signatures.now
        bodies.old function.now.parameters function.now.result) ∷ []) }
    ensures bodies { OnOk result (bodies.new ≡ bodies.old + bodies_of (block_view function.now.block)) }
{
    let entry = Entry::Function(
        Bytes::from_slice(alloc, function.name.text.as_slice())?,
        called(alloc, types, signatures, *bodies, function)?,
    );
    entries.push(entry)?;
    count_body(bodies, &function.block)
}

/// One more type.
fn next_type(owner: &mut u32) -> Result<(), AllocError>
    ensures { OnOk result (owner.new ≡ owner.old + 1) }
{
    if *owner == u32::MAX {
        return Err(AllocError);
    }
    *owner += 1;
    Ok(())
}

/// A declaration at the top.
fn add_declaration(
    alloc: Global,
    types: &DeclaredTypes,
    signatures: &[Signature],
    owner: &mut u32,
    bodies: &mut u32,
    entries: &mut Vec<Entry>,
    declaration: &Declaration,
) -> Result<(), AllocError>
    ensures entries { OnOk result (map entry_of entries.new.items ≡ map entry_of entries.old.items
        ++ entries_rule (written_in types.now.names.items) signatures.now owner.old bodies.old
        (declaration_view declaration.now ∷ [])) }
    ensures bodies { OnOk result (bodies.new ≡ bodies.old
        + declaration_bodies (written_in types.now.names.items) signatures.now (declaration_view declaration.now)) }
    ensures types { OnOk result (owner.new ≡ owner.old + declaration_types (declaration_view declaration.now)) }
{
    match declaration {
        Declaration::Struct(declared) => {
            let members = declared.members.as_slice();
            add_struct_members(alloc, types, signatures, *owner, bodies, entries, members)?;
            next_type(owner)
        }
        Declaration::Enum(declared) => {
            let members = declared.members.as_slice();
            add_enum_members(alloc, types, signatures, *owner, bodies, entries, members)?;
            next_type(owner)
        }
        Declaration::Function(function) => {
            add_function(alloc, types, signatures, bodies, entries, function)
        }
    }
}

/// The declarations with bodies of a text, in order.
pub(crate) fn entries_of(
    alloc: Global,
    types: &DeclaredTypes,
    signatures: &[Signature],
    declarations: &[Declaration],
) -> Result<Vec<Entry>, AllocError>
    ensures { IfOk result (λ entries. map entry_of entries.items
        ≡ entries_rule (written_in types.now.names.items) signatures.now 0 0 (map declaration_view declarations.now)) }
{
    let mut entries = Vec::new(alloc);
    let mut owner = 0u32;
    let mut bodies = 0u32;
    for declaration in declarations {
        add_declaration(
            alloc,
            types,
            signatures,
            &mut owner,
            &mut bodies,
            &mut entries,
            declaration,
        )?;
    }
    Ok(entries)
}
