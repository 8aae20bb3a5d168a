//! What parameters and results are written as, and the function types of a text, each of which has one
//! number.

ghost use Rattle.std.specs.Prelude.{◌≡◌, ◌∷◌, [], map, IfOk, OnOk};
ghost use Rattle.own_tree.specs.View.{declaration_view, enum_member_view, struct_member_view};
ghost use Rattle.own_judged.specs.Signatures.{given_result as given_rule, has_signature as has_rule, inner_param as inner_rule, label_of as label_rule, member_signatures, mode_of as mode_rule, number_from, param_of as param_rule, param_type as param_type_rule, result_of as result_rule, same_mode as same_mode_rule, same_params as same_params_rule, same_signature as same_rule, signature_of as signature_rule, signatures_after as after_rule, signatures_in as signatures_rule, signatures_with as with_rule, with_signature};
ghost use Rattle.own_scope.specs.TypeNames.{written_in};

use crate::declared::{DeclaredTypes, written_type};
use own_tree::tree::{
    Declaration, EnumMember, FunctionParameter, Label, Name, Parameter, ParameterType, PassingMode,
    ResultType, StructMember,
};
use own_tree::{Bytes, Mode, ParamInfo, Row, Signature, Ty};
use std::alloc::{AllocError, Global};

fn same_mode(a: Mode, b: Mode) -> bool
    ensures { result ≡ same_mode_rule a b }
{
    match (a, b) {
        (Mode::Plain, Mode::Plain) => true,
        (Mode::Borrowing, Mode::Borrowing) => true,
        (Mode::Consuming, Mode::Consuming) => true,
        (Mode::Inout, Mode::Inout) => true,
        _ => false,
    }
}

fn same_params(a: &[ParamInfo], b: &[ParamInfo]) -> bool
    ensures { result ≡ same_params_rule a.now b.now }
{
    let mut left = a;
    let mut right = b;
    'left: while let [first, left_after @ ..] = left {
        let [second, right_after @ ..] = right else {
            return false;
        };
        if !same_mode(first.mode, second.mode) || first.ty != second.ty {
            return false;
        }
        left = left_after;
        right = right_after;
    }
    right.is_empty()
}

fn same_signature(a: &Signature, b: &Signature) -> bool
    ensures { result ≡ same_rule a.now b.now }
{
    same_params(a.params.as_slice(), b.params.as_slice()) && a.result == b.result
}

/// How many function types stand before an equal one.
fn number_of(signatures: &[Signature], wanted: &Signature) -> usize
    ensures { result ≡ number_from 0 signatures.now wanted.now }
{
    for number in 0..signatures.len() {
        if same_signature(&signatures[number], wanted) {
            return number;
        }
    }
    signatures.len()
}

fn has_signature(signatures: &[Signature], wanted: &Signature) -> bool
    ensures { result ≡ has_rule signatures.now wanted.now }
{
    for signature in signatures {
        if same_signature(signature, wanted) {
            return true;
        }
    }
    false
}

/// Adds a function type, unless an equal one is there.
fn add_signature(signatures: &mut Row<Signature>, wanted: Signature) -> Result<(), AllocError>
    ensures { OnOk result (signatures.new ≡ with_signature signatures.old wanted) }
{
    if has_signature(signatures.as_slice(), &wanted) {
        return Ok(());
    }
    signatures.push(wanted)
}

fn mode_of(mode: Option<PassingMode>) -> Mode
    ensures { result ≡ mode_rule mode }
{
    match mode {
        None => Mode::Plain,
        Some(PassingMode::Borrowing) => Mode::Borrowing,
        Some(PassingMode::Consuming) => Mode::Consuming,
        Some(PassingMode::Inout) => Mode::Inout,
    }
}

fn label_of(alloc: Global, label: &Label, name: &Name) -> Result<Option<Bytes>, AllocError>
    ensures { IfOk result (λ l. l ≡ label_rule label.now name.now) }
{
    match label {
        Label::Same => Ok(Some(Bytes::from_slice(alloc, name.text.as_slice())?)),
        Label::Omitted => Ok(None),
        Label::Other(other) => Ok(Some(Bytes::from_slice(alloc, other.text.as_slice())?)),
    }
}

fn result_of(types: &DeclaredTypes, written: &ResultType) -> Ty
    ensures { result ≡ result_rule (written_in types.now.names.items) written.now }
{
    match written {
        ResultType::Named(name) => {
            if name.text.as_slice() == b"Void".as_slice() {
                return Ty::Unit;
            }
            written_type(types, name.text.as_slice())
        }
        ResultType::Empty(_) => Ty::Unit,
    }
}

/// The result of a body: where none is written there is none.
pub fn given_result(types: &DeclaredTypes, written: &Option<ResultType>) -> Ty
    ensures { result ≡ given_rule (written_in types.now.names.items) written.now }
{
    match written {
        None => Ty::Unit,
        Some(written) => result_of(types, written),
    }
}

/// A parameter of a function type.
fn inner_param(types: &DeclaredTypes, parameter: &FunctionParameter) -> ParamInfo
    ensures { result ≡ inner_rule (written_in types.now.names.items) parameter.now }
{
    ParamInfo {
        label: None,
        mode: mode_of(parameter.mode),
        ty: written_type(types, parameter.name.text.as_slice()),
    }
}

/// The parameters of a function type.
fn inner_params(
    alloc: Global,
    types: &DeclaredTypes,
    parameters: &[FunctionParameter],
) -> Result<Row<ParamInfo>, AllocError>
    ensures { IfOk result (λ params.
        params ≡ map (inner_rule (written_in types.now.names.items)) parameters.now) }
{
    let mut params = Row::new(alloc);
    for parameter in parameters {
        params.push(inner_param(types, parameter))?;
    }
    Ok(params)
}

fn signature_of(
    alloc: Global,
    types: &DeclaredTypes,
    parameters: &[FunctionParameter],
    written: &ResultType,
) -> Result<Signature, AllocError>
    ensures { IfOk result (λ signature.
        signature ≡ signature_rule (written_in types.now.names.items) parameters.now written.now) }
{
    Ok(Signature {
        params: inner_params(alloc, types, parameters)?,
        result: result_of(types, written),
    })
}

/// How a parameter is passed, and its type.
fn param_type(
    alloc: Global,
    types: &DeclaredTypes,
    signatures: &[Signature],
    written: &ParameterType,
) -> Result<(Mode, Ty), AllocError>
    ensures { IfOk result (λ p.
        p ≡ param_type_rule (written_in types.now.names.items) signatures.now written.now) }
{
    match written {
        ParameterType::Named { mode, name, .. } => {
            Ok((mode_of(*mode), written_type(types, name.text.as_slice())))
        }
        ParameterType::Function {
            parameters,
            result: given,
            ..
        } => {
            let wanted = signature_of(alloc, types, parameters.as_slice(), given)?;
            let number = number_of(signatures, &wanted);
            if number > u32::MAX as usize {
                return Err(AllocError);
            }
            Ok((Mode::Closure, Ty::Fun(number as u32)))
        }
    }
}

/// What a parameter says to its callers.
pub fn param_of(
    alloc: Global,
    types: &DeclaredTypes,
    signatures: &[Signature],
    parameter: &Parameter,
) -> Result<ParamInfo, AllocError>
    ensures { IfOk result (λ p. p ≡ param_rule (written_in types.now.names.items) signatures.now parameter.now) }
{
    let (mode, ty) = param_type(alloc, types, signatures, &parameter.written)?;
    Ok(ParamInfo {
        label: label_of(alloc, &parameter.label, &parameter.name)?,
        mode,
        ty,
    })
}

/// What parameters say to their callers.
pub fn params_of(
    alloc: Global,
    types: &DeclaredTypes,
    signatures: &[Signature],
    parameters: &[Parameter],
) -> Result<Row<ParamInfo>, AllocError>
    ensures { IfOk result (λ params.
        params ≡ map (param_rule (written_in types.now.names.items) signatures.now) parameters.now) }
{
    let mut params = Row::new(alloc);
    for parameter in parameters {
        params.push(param_of(alloc, types, signatures, parameter)?)?;
    }
    Ok(params)
}

// ---- the function types of a text, in order of the first place of each

fn note_written(
    alloc: Global,
    types: &DeclaredTypes,
    signatures: &mut Row<Signature>,
    written: &ParameterType,
) -> Result<(), AllocError>
    ensures { OnOk result (signatures.new
        ≡ with_rule (written_in types.now.names.items) signatures.old written.now) }
{
    match written {
        ParameterType::Named { .. } => Ok(()),
        ParameterType::Function {
            parameters,
            result: given,
            ..
        } => {
            let signature = signature_of(alloc, types, parameters.as_slice(), given)?;
            add_signature(signatures, signature)
        }
    }
}

fn note_parameters(
    alloc: Global,
    types: &DeclaredTypes,
    signatures: &mut Row<Signature>,
    parameters: &[Parameter],
) -> Result<(), AllocError>
    ensures { OnOk result (signatures.new
        ≡ after_rule (written_in types.now.names.items) signatures.old parameters.now) }
{
    for parameter in parameters {
        note_written(alloc, types, signatures, &parameter.written)?;
    }
    Ok(())
}

fn note_struct_members(
    alloc: Global,
    types: &DeclaredTypes,
    signatures: &mut Row<Signature>,
    members: &[StructMember],
) -> Result<(), AllocError>
    ensures { OnOk result (signatures.new
        ≡ member_signatures (written_in types.now.names.items) signatures.old (map struct_member_view members.now)) }
{
    for member in members {
        match member {
            StructMember::Initializer(init) => {
                note_parameters(alloc, types, signatures, init.parameters.as_slice())?;
            }
            StructMember::Method(method) => {
                let parameters = method.function.parameters.as_slice();
                note_parameters(alloc, types, signatures, parameters)?;
            }
            StructMember::Field(_) | StructMember::Deinitializer(_) => {}
        }
    }
    Ok(())
}

fn note_enum_members(
    alloc: Global,
    types: &DeclaredTypes,
    signatures: &mut Row<Signature>,
    members: &[EnumMember],
) -> Result<(), AllocError>
    ensures { OnOk result (signatures.new
        ≡ member_signatures (written_in types.now.names.items) signatures.old (map enum_member_view members.now)) }
{
    for member in members {
        if let EnumMember::Method(method) = member {
            let parameters = method.function.parameters.as_slice();
            note_parameters(alloc, types, signatures, parameters)?;
        }
    }
    Ok(())
}

fn note_declaration(
    alloc: Global,
    types: &DeclaredTypes,
    signatures: &mut Row<Signature>,
    declaration: &Declaration,
) -> Result<(), AllocError>
    ensures { OnOk result (signatures.new
        ≡ signatures_rule (written_in types.now.names.items) signatures.old (declaration_view declaration.now ∷ [])) }
{
    match declaration {
        Declaration::Struct(declared) => {
            note_struct_members(alloc, types, signatures, declared.members.as_slice())
        }
        Declaration::Enum(declared) => {
            note_enum_members(alloc, types, signatures, declared.members.as_slice())
        }
        Declaration::Function(function) => {
            note_parameters(alloc, types, signatures, function.parameters.as_slice())
        }
    }
}

/// The function types of a text. Equal ones have one entry.
pub fn signatures_of(
    alloc: Global,
    types: &DeclaredTypes,
    declarations: &[Declaration],
) -> Result<Row<Signature>, AllocError>
    ensures { IfOk result (λ signatures.
        signatures ≡ signatures_rule (written_in types.now.names.items) [] (map declaration_view declarations.now)) }
{
    let mut signatures = Row::new(alloc);
    for declaration in declarations {
        note_declaration(alloc, types, &mut signatures, declaration)?;
    }
    Ok(signatures)
}
