//! Trees in a short form, nearly that of their text. A block shows how many statements it has.

use own_tree::tree::{
    Block, CaseItem, Declaration, EnumMember, Field, FunctionDeclaration, FunctionParameter,
    Keyword, Label, MethodMode, Name, Parameter, ParameterType, PassingMode, ResultType,
    StructMember, Tree,
};
use std::alloc::AllocError;
use std::fmt::Write;

type Shown = Result<(), AllocError>;

fn put_name(out: &mut String, name: &Name) -> Shown {
    match str::from_utf8(name.text.as_slice()) {
        Ok(text) => out.push_str(text),
        Err(_) => out.push_str("not UTF-8"),
    }
}

fn put_block(out: &mut String, block: &Block) -> Shown {
    let count = block.statements.as_slice().len();
    write!(out, " {{{count}}}")
}

fn put_passing(out: &mut String, mode: &Option<PassingMode>) -> Shown {
    match mode {
        Some(PassingMode::Borrowing) => out.push_str("borrowing "),
        Some(PassingMode::Consuming) => out.push_str("consuming "),
        Some(PassingMode::Inout) => out.push_str("inout "),
        None => Ok(()),
    }
}

fn put_result(out: &mut String, written: &ResultType) -> Shown {
    out.push_str(" -> ")?;
    match written {
        ResultType::Named(name) => put_name(out, name),
        ResultType::Empty(_) => out.push_str("()"),
    }
}

fn put_inner(out: &mut String, parameters: &[FunctionParameter]) -> Shown {
    out.push_str("(")?;
    for (i, parameter) in parameters.iter().enumerate() {
        if i > 0 {
            out.push_str(", ")?;
        }
        put_passing(out, &parameter.mode)?;
        put_name(out, &parameter.name)?;
    }
    out.push_str(")")
}

fn put_type(out: &mut String, written: &ParameterType) -> Shown {
    match written {
        ParameterType::Named { mode, name, .. } => {
            put_passing(out, mode)?;
            put_name(out, name)
        }
        ParameterType::Function {
            parameters,
            result,
            ..
        } => {
            put_inner(out, parameters.as_slice())?;
            put_result(out, result)
        }
    }
}

fn put_label(out: &mut String, label: &Label) -> Shown {
    match label {
        Label::Same => Ok(()),
        Label::Omitted => out.push_str("_ "),
        Label::Other(name) => {
            put_name(out, name)?;
            out.push_str(" ")
        }
    }
}

fn put_parameters(out: &mut String, parameters: &[Parameter]) -> Shown {
    out.push_str("(")?;
    for (i, parameter) in parameters.iter().enumerate() {
        if i > 0 {
            out.push_str(", ")?;
        }
        put_label(out, &parameter.label)?;
        put_name(out, &parameter.name)?;
        out.push_str(": ")?;
        put_type(out, &parameter.written)?;
    }
    out.push_str(")")
}

fn put_function(out: &mut String, function: &FunctionDeclaration) -> Shown {
    out.push_str("func ")?;
    put_name(out, &function.name)?;
    put_parameters(out, function.parameters.as_slice())?;
    if let Some(result) = &function.result {
        put_result(out, result)?;
    }
    put_block(out, &function.block)
}

fn put_changing(out: &mut String, mode: &Option<MethodMode>) -> Shown {
    match mode {
        Some(MethodMode::Borrowing) => out.push_str("borrowing "),
        Some(MethodMode::Consuming) => out.push_str("consuming "),
        Some(MethodMode::Mutating) => out.push_str("mutating "),
        None => Ok(()),
    }
}

fn put_field(out: &mut String, field: &Field) -> Shown {
    match field.keyword {
        Keyword::Let => out.push_str("let ")?,
        Keyword::Var => out.push_str("var ")?,
    }
    put_name(out, &field.name)?;
    out.push_str(": ")?;
    put_name(out, &field.written)
}

fn put_struct_member(out: &mut String, member: &StructMember) -> Shown {
    match member {
        StructMember::Field(field) => put_field(out, field),
        StructMember::Initializer(initializer) => {
            out.push_str("init")?;
            put_parameters(out, initializer.parameters.as_slice())?;
            put_block(out, &initializer.block)
        }
        StructMember::Deinitializer(deinitializer) => {
            out.push_str("deinit")?;
            put_block(out, &deinitializer.block)
        }
        StructMember::Method(method) => {
            put_changing(out, &method.mode)?;
            put_function(out, &method.function)
        }
    }
}

fn put_item(out: &mut String, item: &CaseItem) -> Shown {
    put_name(out, &item.name)?;
    if item.payloads.is_empty() {
        return Ok(());
    }
    out.push_str("(")?;
    for (i, payload) in item.payloads.as_slice().iter().enumerate() {
        if i > 0 {
            out.push_str(", ")?;
        }
        put_name(out, payload)?;
    }
    out.push_str(")")
}

fn put_items(out: &mut String, items: &[CaseItem]) -> Shown {
    out.push_str("case ")?;
    for (i, item) in items.iter().enumerate() {
        if i > 0 {
            out.push_str(", ")?;
        }
        put_item(out, item)?;
    }
    Ok(())
}

fn put_enum_member(out: &mut String, member: &EnumMember) -> Shown {
    match member {
        EnumMember::Cases(_, items) => put_items(out, items.as_slice()),
        EnumMember::Deinitializer(deinitializer) => {
            out.push_str("deinit")?;
            put_block(out, &deinitializer.block)
        }
        EnumMember::Method(method) => {
            put_changing(out, &method.mode)?;
            put_function(out, &method.function)
        }
    }
}

fn put_head(out: &mut String, word: &str, name: &Name, noncopyable: bool) -> Shown {
    out.push_str(word)?;
    put_name(out, name)?;
    if noncopyable {
        out.push_str(": ~Copyable")?;
    }
    out.push_str(" { ")
}

fn put_declaration(out: &mut String, declaration: &Declaration) -> Shown {
    match declaration {
        Declaration::Struct(declared) => {
            put_head(out, "struct ", &declared.name, declared.noncopyable)?;
            for member in declared.members.as_slice() {
                put_struct_member(out, member)?;
                out.push_str("; ")?;
            }
            out.push_str("}")
        }
        Declaration::Enum(declared) => {
            put_head(out, "enum ", &declared.name, declared.noncopyable)?;
            for member in declared.members.as_slice() {
                put_enum_member(out, member)?;
                out.push_str("; ")?;
            }
            out.push_str("}")
        }
        Declaration::Function(function) => put_function(out, function),
    }
}

/// The declarations, where the last `main` begins, and the number of tokens.
pub(super) fn put_tree(out: &mut String, tree: &Tree) -> Shown {
    for declaration in tree.declarations.as_slice() {
        put_declaration(out, declaration)?;
        out.push_str("; ")?;
    }
    let at = tree.main.start;
    let tokens = tree.tokens;
    write!(out, "main {at} of {tokens}")
}
