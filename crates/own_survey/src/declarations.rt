//! The walk over the declarations of a text.

ghost use Rattle.std.specs.Prelude.{◌≡◌, ◌++◌, OnOk, map};
ghost use Rattle.own_tree.specs.View.{struct_member_view, enum_member_view, declaration_view, function_view, method_view, deinitializer_view};
ghost use Rattle.own_survey.specs.Judgements.{content_fault, fault_unless as unless, parameter_fault, method_fault, is_reserved};
ghost use Rattle.own_survey.specs.Names.{written_in};
ghost use Rattle.own_survey.specs.Parts.{gives_nothing, item_names, member_names, parameter_names, struct_home, enum_home, word_of};
ghost use Rattle.own_shapes.specs.Types.{is_empty};
ghost use Rattle.own_survey.specs.TextWalks.{type_walk, parameter_walk, inner_walk, result_walk, given_result_walk, parameter_type_walk, parameters_walk, taking_walk, function_walk, content_walk, payloads_walk, cases_walk, member_walk, members_walk, home_after, top_walk, main_walk, declaration_walk, declarations_walk};
ghost use Rattle.own_survey.specs.Walks.{scope_walk};

use crate::expressions::walk_block;
use crate::names::TypeNames;
use crate::notes::{note_scope, unknown_type};
use crate::survey::{Fault, Judgement, Survey, Written};
use own_tree::Span;
use own_tree::tree::{
    CaseItem, Declaration, Deinitializer, EnumMember, FunctionDeclaration, FunctionParameter,
    Method, MethodMode, Name, Parameter, ParameterType, PassingMode, ResultType, StructMember,
};
use std::alloc::{AllocError, Global};

/// What a type says of its members.
#[derive(Clone, Copy, Debug, PartialEq, Eq)]
pub struct Home {
    /// Whether it is declared `: ~Copyable` (SE-0390).
    pub noncopyable: bool,
    /// Whether a `deinit` may still stand in it.
    pub takes_deinit: bool,
    /// Whether an `init` may still stand in it.
    pub takes_init: bool,
}

/// A word of so many bytes that begins a declaration.
fn first_word(bytes: u32, span: Span) -> Span
    ensures { result ≡ word_of bytes span }
{
    Span {
        start: span.start,
        end: span.start.saturating_add(bytes).min(span.end),
    }
}

/// A false judgement at a place, where it is one.
pub(crate) fn fault_unless(holds: bool, judgement: Judgement, at: Span) -> Option<Fault>
    ensures { result ≡ unless holds judgement at }
{
    if holds {
        None
    } else {
        Some(Fault { judgement, at })
    }
}

/// T06 of a parameter.
fn wrong_modifier(mode: Option<PassingMode>, written: Written, at: Span) -> Option<Fault>
    ensures { result ≡ parameter_fault mode written at }
{
    let holds = match (mode, written) {
        (_, Written::Unknown) => true,
        (None, Written::Copyable) => true,
        (None, Written::Noncopyable) => false,
        (Some(PassingMode::Inout), _) => true,
        (Some(_), Written::Copyable) => false,
        (Some(_), Written::Noncopyable) => true,
    };
    if holds {
        None
    } else {
        Some(Fault {
            judgement: Judgement::ParameterModifier,
            at,
        })
    }
}

/// T04 of a stored property or a payload.
fn wrong_content(noncopyable: bool, written: Written, at: Span) -> Option<Fault>
    ensures { result ≡ content_fault noncopyable written at }
{
    match written {
        Written::Noncopyable if !noncopyable => Some(Fault {
            judgement: Judgement::CopyableParts,
            at,
        }),
        _ => None,
    }
}

/// T07 of a method.
fn wrong_method(noncopyable: bool, span: Span, mode: Option<MethodMode>) -> Option<Fault>
    ensures { result ≡ method_fault noncopyable span mode }
{
    match mode {
        Some(MethodMode::Borrowing) | Some(MethodMode::Consuming) if !noncopyable => Some(Fault {
            judgement: Judgement::MethodModifier,
            at: first_word(9, span),
        }),
        _ => None,
    }
}

/// The written name of a type.
fn note_type(names: &TypeNames, survey: &mut Survey, name: &Name)
    ensures { survey.new ≡ type_walk (written_in names.now) name.now survey.old }
{
    survey.note_fault(unknown_type(names.written(name.text.as_slice()), name.span));
}

/// The type of a parameter, with its modifier.
fn note_parameter(
    names: &TypeNames,
    survey: &mut Survey,
    span: Span,
    mode: Option<PassingMode>,
    name: &Name,
)
    ensures { survey.new ≡ parameter_walk (written_in names.now) span mode name.now survey.old }
{
    note_type(names, survey, name);
    survey.note_fault(wrong_modifier(mode, names.written(name.text.as_slice()), span));
}

/// The parameters inside a function type.
fn walk_inner(names: &TypeNames, survey: &mut Survey, parameters: &[FunctionParameter])
    ensures { survey.new ≡ inner_walk (written_in names.now) parameters.now survey.old }
{
    for parameter in parameters {
        note_parameter(
            names,
            survey,
            parameter.span,
            parameter.mode,
            &parameter.name,
        );
    }
}

/// A result, which is none where it is `Void` or `()`.
fn note_result(names: &TypeNames, survey: &mut Survey, written: &ResultType)
    ensures { survey.new ≡ result_walk (written_in names.now) written.now survey.old }
{
    if let ResultType::Named(name) = written {
        if name.text.as_slice() != b"Void".as_slice() {
            note_type(names, survey, name);
        }
    }
}

/// The result that a function writes, where it writes one.
fn note_given_result(names: &TypeNames, survey: &mut Survey, given: &Option<ResultType>)
    ensures { survey.new ≡ given_result_walk (written_in names.now) given.now survey.old }
{
    if let Some(written) = given {
        note_result(names, survey, written);
    }
}

/// The type of a parameter.
fn walk_parameter_type(names: &TypeNames, survey: &mut Survey, written: &ParameterType)
    ensures { survey.new ≡ parameter_type_walk (written_in names.now) written.now survey.old }
{
    match written {
        ParameterType::Named { span, mode, name } => note_parameter(
            names, survey, *span, *mode, name,
        ),
        ParameterType::Function {
            parameters,
            result: given,
            ..
        } => {
            walk_inner(names, survey, parameters.as_slice());
            note_result(names, survey, given);
        }
    }
}

/// The types of parameters.
fn walk_parameters(names: &TypeNames, survey: &mut Survey, parameters: &[Parameter])
    ensures { survey.new ≡ parameters_walk (written_in names.now) parameters.now survey.old }
{
    for parameter in parameters {
        walk_parameter_type(names, survey, &parameter.written);
    }
}

/// The names of parameters are a scope.
fn note_parameter_names(
    alloc: Global,
    survey: &mut Survey,
    parameters: &[Parameter],
) -> Result<(), AllocError>
    ensures { OnOk result (survey.new ≡ scope_walk (parameter_names parameters.now) survey.old) }
{
    let mut found = Vec::new(alloc);
    for parameter in parameters {
        found.push(&parameter.name)?;
    }
    note_scope(alloc, survey, &found)
}

/// A body at its place, with what it takes.
fn walk_taking(
    alloc: Global,
    names: &TypeNames,
    survey: &mut Survey,
    at: Span,
    parameters: &[Parameter],
) -> Result<(), AllocError>
    ensures { OnOk result (survey.new ≡ taking_walk (written_in names.now) at parameters.now survey.old) }
{
    survey.note_body(at);
    survey.note_taken(parameters.len(), at);
    note_parameter_names(alloc, survey, parameters)?;
    walk_parameters(names, survey, parameters);
    Ok(())
}

/// A function: what it takes and gives, and its body.
pub(crate) fn walk_function(
    alloc: Global,
    names: &TypeNames,
    survey: &mut Survey,
    function: &FunctionDeclaration,
) -> Result<(), AllocError>
    ensures { OnOk result (survey.new ≡ function_walk (written_in names.now) (function_view function.now) survey.old) }
{
    walk_taking(
        alloc,
        names,
        survey,
        function.name.span,
        function.parameters.as_slice(),
    )?;
    note_given_result(names, survey, &function.result);
    walk_block(alloc, names, survey, &function.block)
}

/// The type of a stored property or a payload.
fn note_content(names: &TypeNames, survey: &mut Survey, noncopyable: bool, name: &Name)
    ensures { survey.new ≡ content_walk (written_in names.now) noncopyable name.now survey.old }
{
    note_type(names, survey, name);
    survey.note_fault(wrong_content(noncopyable, names.written(name.text.as_slice()), name.span));
}

/// The payloads of a case.
fn walk_payloads(names: &TypeNames, survey: &mut Survey, noncopyable: bool, payloads: &[Name])
    ensures { survey.new ≡ payloads_walk (written_in names.now) noncopyable payloads.now survey.old }
{
    for payload in payloads {
        note_content(names, survey, noncopyable, payload);
    }
}

/// The items of a `case`.
fn walk_cases(names: &TypeNames, survey: &mut Survey, noncopyable: bool, cases: &[CaseItem])
    ensures { survey.new ≡ cases_walk (written_in names.now) noncopyable cases.now survey.old }
{
    for case in cases {
        survey.note_taken(case.payloads.len(), case.name.span);
        walk_payloads(names, survey, noncopyable, case.payloads.as_slice());
    }
}

/// A member of a struct.
fn walk_struct_member(
    alloc: Global,
    names: &TypeNames,
    survey: &mut Survey,
    home: Home,
    member: &StructMember,
) -> Result<(), AllocError>
    ensures { OnOk result (survey.new ≡ member_walk (written_in names.now) home (struct_member_view member.now) survey.old) }
{
    match member {
        StructMember::Field(field) => {
            note_content(names, survey, home.noncopyable, &field.written);
            Ok(())
        }
        StructMember::Initializer(initializer) => {
            let at = first_word(4, initializer.span);
            survey.note_fault(fault_unless(home.takes_init, Judgement::Lifetime, at));
            walk_taking(alloc, names, survey, at, initializer.parameters.as_slice())?;
            walk_block(alloc, names, survey, &initializer.block)
        }
        StructMember::Deinitializer(deinitializer) => walk_deinitializer(
            alloc,
            names,
            survey,
            home,
            deinitializer,
        ),
        StructMember::Method(method) => walk_method(alloc, names, survey, home, method),
    }
}

/// A `deinit`, which takes nothing.
fn walk_deinitializer(
    alloc: Global,
    names: &TypeNames,
    survey: &mut Survey,
    home: Home,
    deinitializer: &Deinitializer,
) -> Result<(), AllocError>
    ensures { OnOk result (survey.new ≡ member_walk (written_in names.now) home (deinitializer_view deinitializer.now) survey.old) }
{
    let at = first_word(6, deinitializer.span);
    survey.note_fault(fault_unless(home.takes_deinit, Judgement::Lifetime, at));
    survey.note_body(at);
    survey.note_taken(0, at);
    walk_block(alloc, names, survey, &deinitializer.block)
}

/// A method.
fn walk_method(
    alloc: Global,
    names: &TypeNames,
    survey: &mut Survey,
    home: Home,
    method: &Method,
) -> Result<(), AllocError>
    ensures { OnOk result (survey.new ≡ member_walk (written_in names.now) home (method_view method.now) survey.old) }
{
    survey.note_fault(wrong_method(home.noncopyable, method.span, method.mode));
    walk_function(alloc, names, survey, &method.function)
}

/// A member of an enum.
fn walk_enum_member(
    alloc: Global,
    names: &TypeNames,
    survey: &mut Survey,
    home: Home,
    member: &EnumMember,
) -> Result<(), AllocError>
    ensures { OnOk result (survey.new ≡ member_walk (written_in names.now) home (enum_member_view member.now) survey.old) }
{
    match member {
        EnumMember::Cases(_, cases) => {
            walk_cases(names, survey, home.noncopyable, cases.as_slice());
            Ok(())
        }
        EnumMember::Deinitializer(deinitializer) => walk_deinitializer(
            alloc,
            names,
            survey,
            home,
            deinitializer,
        ),
        EnumMember::Method(method) => walk_method(alloc, names, survey, home, method),
    }
}

impl Home {
    /// What may still stand in a struct after a member.
    fn after_struct_member(self, member: &StructMember) -> Home
        ensures { result ≡ home_after (struct_member_view member.now) self }
    {
        match member {
            StructMember::Initializer(_) => Home {
                takes_init: false,
                ..self
            },
            StructMember::Deinitializer(_) => Home {
                takes_deinit: false,
                ..self
            },
            StructMember::Field(_) | StructMember::Method(_) => self,
        }
    }

    /// What may still stand in an enum after a member.
    fn after_enum_member(self, member: &EnumMember) -> Home
        ensures { result ≡ home_after (enum_member_view member.now) self }
    {
        match member {
            EnumMember::Deinitializer(_) => Home {
                takes_deinit: false,
                ..self
            },
            EnumMember::Cases(..) | EnumMember::Method(_) => self,
        }
    }
}

/// The members of a struct.
pub(crate) fn walk_struct_members(
    alloc: Global,
    names: &TypeNames,
    survey: &mut Survey,
    noncopyable: bool,
    members: &[StructMember],
) -> Result<(), AllocError>
    ensures { OnOk result (survey.new ≡ members_walk (written_in names.now) (struct_home noncopyable) (map struct_member_view members.now) survey.old) }
{
    let mut home = Home {
        noncopyable,
        takes_deinit: noncopyable,
        takes_init: true,
    };
    for member in members {
        walk_struct_member(alloc, names, survey, home, member)?;
        home = home.after_struct_member(member);
    }
    Ok(())
}

/// The members of an enum.
pub(crate) fn walk_enum_members(
    alloc: Global,
    names: &TypeNames,
    survey: &mut Survey,
    noncopyable: bool,
    members: &[EnumMember],
) -> Result<(), AllocError>
    ensures { OnOk result (survey.new ≡ members_walk (written_in names.now) (enum_home noncopyable) (map enum_member_view members.now) survey.old) }
{
    let mut home = Home {
        noncopyable,
        takes_deinit: false,
        takes_init: false,
    };
    for member in members {
        walk_enum_member(alloc, names, survey, home, member)?;
        home = home.after_enum_member(member);
    }
    Ok(())
}
