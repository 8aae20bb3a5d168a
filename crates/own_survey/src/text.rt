//! The walk over a whole text.

ghost use Rattle.std.specs.Prelude.{◌≡◌, ◌++◌, OnOk, IfOk, map};
ghost use Rattle.own_tree.specs.View.{struct_member_view, enum_member_view, declaration_view, function_view, tree_view};
ghost use Rattle.own_survey.specs.Judgements.{is_reserved as reserved, notes, nothing, written_name};
ghost use Rattle.own_survey.specs.Names.{Knows, written_in};
ghost use Rattle.own_survey.specs.Parts.{file_parts, is_main as main_declared, declared_name, has_main, gives_nothing, item_names, names_of_member, member_names};
ghost use Rattle.own_shapes.specs.Types.{declared_types};
ghost use Rattle.own_survey.specs.TextWalks.{top_walk, main_walk, declaration_walk, declarations_walk, file_walk};
ghost use Rattle.own_survey.specs.Walks.{scope_walk};

use crate::declarations::{fault_unless, walk_enum_members, walk_function, walk_struct_members};
use crate::names::TypeNames;
use crate::notes::note_scope;
use crate::survey::{Judgement, Survey};
use own_tree::tree::{
    CaseItem, Declaration, EnumMember, FunctionDeclaration, Name, ResultType, StructMember, Tree,
};
use std::alloc::{AllocError, Global};

/// Whether a name may not be declared at the top.
fn is_reserved(name: &[u8]) -> bool
    ensures { result ≡ reserved name.now }
{
    name == b"Int".as_slice()
        || name == b"Bool".as_slice()
        || name == b"Void".as_slice()
        || name == b"Copyable".as_slice()
        || name == b"print".as_slice()
        || name == b"readInt".as_slice()
}

/// A name at the top.
fn note_top(survey: &mut Survey, name: &Name)
    ensures { survey.new ≡ top_walk name.now survey.old }
{
    let allowed = !is_reserved(name.text.as_slice());
    survey.note_fault(fault_unless(allowed, Judgement::TopNames, name.span));
}

/// Whether a function gives nothing: it writes no result, or `Void` or `()`.
fn has_no_result(given: &Option<ResultType>) -> bool
    ensures { result ≡ gives_nothing given.now }
{
    match given {
        None => true,
        Some(ResultType::Empty(_)) => true,
        Some(ResultType::Named(name)) => name.text.as_slice() == b"Void".as_slice(),
    }
}

/// `func main` takes nothing and gives nothing.
fn note_main(survey: &mut Survey, function: &FunctionDeclaration)
    ensures { survey.new ≡ main_walk (function_view function.now) survey.old }
{
    if function.name.text.as_slice() == b"main".as_slice() {
        let plain = function.parameters.is_empty() && has_no_result(&function.result);
        survey.note_fault(fault_unless(plain, Judgement::TopNames, function.name.span));
    }
}

/// The names of cases.
#[tactic(auto, using(crate::proofs::Walked::next_item))]
fn push_items<'t>(names: &mut Vec<&'t Name>, cases: &'t [CaseItem]) -> Result<(), AllocError>
    ensures { OnOk result (map (λ n. n.now) names.new.items ≡ map (λ n. n.now) names.old.items ++ item_names cases.now) }
{
    for case in cases {
        names.push(&case.name)?;
    }
    Ok(())
}

/// The names of a member of a struct.
fn push_struct_member<'t>(
    names: &mut Vec<&'t Name>,
    member: &'t StructMember,
) -> Result<(), AllocError>
    ensures { OnOk result (map (λ n. n.now) names.new.items ≡ map (λ n. n.now) names.old.items ++ names_of_member (struct_member_view member.now)) }
{
    match member {
        StructMember::Field(field) => {
            names.push(&field.name)?;
            Ok(())
        }
        StructMember::Method(method) => {
            names.push(&method.function.name)?;
            Ok(())
        }
        StructMember::Initializer(_) | StructMember::Deinitializer(_) => Ok(()),
    }
}

/// The names of a member of an enum.
fn push_enum_member<'t>(names: &mut Vec<&'t Name>, member: &'t EnumMember) -> Result<(), AllocError>
    ensures { OnOk result (map (λ n. n.now) names.new.items ≡ map (λ n. n.now) names.old.items ++ names_of_member (enum_member_view member.now)) }
{
    match member {
        EnumMember::Cases(_, cases) => push_items(names, cases.as_slice()),
        EnumMember::Method(method) => {
            names.push(&method.function.name)?;
            Ok(())
        }
        EnumMember::Deinitializer(_) => Ok(()),
    }
}

/// The members of a struct are a scope.
#[tactic(auto, using(crate::proofs::Walked::next_struct_member))]
fn note_struct_names(
    alloc: Global,
    survey: &mut Survey,
    members: &[StructMember],
) -> Result<(), AllocError>
    ensures { OnOk result (survey.new ≡ scope_walk (member_names (map struct_member_view members.now)) survey.old) }
{
    let mut names = Vec::new(alloc);
    for member in members {
        push_struct_member(&mut names, member)?;
    }
    note_scope(alloc, survey, &names)
}

/// The members of an enum are a scope.
#[tactic(auto, using(crate::proofs::Walked::next_enum_member))]
fn note_enum_names(
    alloc: Global,
    survey: &mut Survey,
    members: &[EnumMember],
) -> Result<(), AllocError>
    ensures { OnOk result (survey.new ≡ scope_walk (member_names (map enum_member_view members.now)) survey.old) }
{
    let mut names = Vec::new(alloc);
    for member in members {
        push_enum_member(&mut names, member)?;
    }
    note_scope(alloc, survey, &names)
}

/// A declaration.
fn walk_declaration(
    alloc: Global,
    names: &TypeNames,
    survey: &mut Survey,
    declaration: &Declaration,
) -> Result<(), AllocError>
    ensures { OnOk result (survey.new ≡ declaration_walk (written_in names.now) (declaration_view declaration.now) survey.old) }
{
    match declaration {
        Declaration::Struct(declared) => {
            note_top(survey, &declared.name);
            note_struct_names(alloc, survey, declared.members.as_slice())?;
            walk_struct_members(
                alloc,
                names,
                survey,
                declared.noncopyable,
                declared.members.as_slice(),
            )
        }
        Declaration::Enum(declared) => {
            note_top(survey, &declared.name);
            note_enum_names(alloc, survey, declared.members.as_slice())?;
            walk_enum_members(
                alloc,
                names,
                survey,
                declared.noncopyable,
                declared.members.as_slice(),
            )
        }
        Declaration::Function(function) => {
            note_top(survey, &function.name);
            note_main(survey, function);
            walk_function(alloc, names, survey, function)
        }
    }
}

/// The declarations, one after the other.
fn walk_declarations(
    alloc: Global,
    names: &TypeNames,
    survey: &mut Survey,
    declarations: &[Declaration],
) -> Result<(), AllocError>
    ensures { OnOk result (survey.new ≡ declarations_walk (written_in names.now) (map declaration_view declarations.now) survey.old) }
{
    for declaration in declarations {
        walk_declaration(alloc, names, survey, declaration)?;
    }
    Ok(())
}

/// The name of a declaration.
fn name_of(declaration: &Declaration) -> &Name
    ensures { result.now ≡ declared_name (declaration_view declaration.now) }
{
    match declaration {
        Declaration::Struct(declared) => &declared.name,
        Declaration::Enum(declared) => &declared.name,
        Declaration::Function(function) => &function.name,
    }
}

/// The names at the top are a scope.
#[tactic(auto, using(crate::proofs::Walked::next_name))]
fn note_top_names(
    alloc: Global,
    survey: &mut Survey,
    declarations: &[Declaration],
) -> Result<(), AllocError>
    ensures { OnOk result (survey.new ≡ scope_walk (map declared_name (map declaration_view declarations.now)) survey.old) }
{
    let mut names = Vec::new(alloc);
    for declaration in declarations {
        names.push(name_of(declaration))?;
    }
    note_scope(alloc, survey, &names)
}

/// Whether a declaration is `func main`.
fn is_main(declaration: &Declaration) -> bool
    ensures { result ≡ main_declared (declaration_view declaration.now) }
{
    match declaration {
        Declaration::Struct(_) | Declaration::Enum(_) => false,
        Declaration::Function(function) => function.name.text.as_slice() == b"main".as_slice(),
    }
}

/// Whether there is a `func main`.
fn declares_main(declarations: &[Declaration]) -> bool
    ensures { result ≡ has_main (map declaration_view declarations.now) }
{
    for declaration in declarations {
        if is_main(declaration) {
            return true;
        }
    }
    false
}

/// What a text has that is counted and judged before its bodies are typed.
fn survey_of(alloc: Global, names: &TypeNames, tree: &Tree) -> Result<Survey, AllocError>
    ensures { IfOk result (λ survey. survey ≡ file_walk (written_in names.now) (tree_view tree.now)) }
{
    let mut survey = Survey::new();
    note_top_names(alloc, &mut survey, tree.declarations.as_slice())?;
    walk_declarations(alloc, names, &mut survey, tree.declarations.as_slice())?;
    if !declares_main(tree.declarations.as_slice()) {
        survey.note_fault(fault_unless(false, Judgement::TopNames, tree.main));
    }
    Ok(survey)
}

/// What a text has that is counted and judged before its bodies are typed: its bodies (M6), what takes too
/// much (M7), and the judgement of the type table but T03 that is false at the earliest place. The names are
/// those of its types.
pub fn survey(alloc: Global, names: &TypeNames, tree: &Tree) -> Result<Survey, AllocError>
    requires { Knows names.now.types.entries (declared_types (tree_view tree.now).declarations) }
    ensures { IfOk result (λ found. found ≡ notes (written_name (declared_types (tree_view tree.now).declarations)) nothing (file_parts (tree_view tree.now))) }
{
    survey_of(alloc, names, tree)
}
