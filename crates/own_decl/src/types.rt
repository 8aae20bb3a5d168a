//! Results, written types and parameters.
ghost use Rattle.std.specs.Prelude.{◌≡◌, ◌≤◌, ◌<◌, length, [], IfOk};
ghost use Rattle.own_expr.specs.Gives.{Gives};
ghost use Rattle.own_grammar.specs.Declarations as declarations;
ghost use Rattle.own_grammar.specs.Lists as lists;
ghost use Rattle.own_grammar.specs.ReadingFile as spec;

use crate::read::Read;
use own_expr::tokens::{ReadError, after, here, is_mark, kind_at, name_at, till};
use own_tree::tree::{
    FunctionParameter, Label, Name, Parameter, ParameterType, PassingMode, ResultType,
};
use own_tree::{Kind, Mark, Row, Span, Token, Word};
use std::alloc::Global;

fn word_passing(word: Word) -> Option<PassingMode>
    ensures { result ≡ declarations.word_passing word }
{
    match word {
        Word::Borrowing => Some(PassingMode::Borrowing),
        Word::Consuming => Some(PassingMode::Consuming),
        Word::Inout => Some(PassingMode::Inout),
        _ => None,
    }
}

/// The modifier of a type, where one is written.
#[tactic(auto, unfolding(own_grammar::specs::Declarations::passing_at))]
fn passing_at(rest: &[Token]) -> Option<PassingMode>
    ensures { result ≡ declarations.passing_at rest.now }
{
    match kind_at(rest) {
        Some(Kind::Word(word)) => word_passing(*word),
        _ => None,
    }
}

fn result_span(written: &ResultType) -> Span
    ensures { result ≡ declarations.result_span written.now }
{
    match written {
        ResultType::Named(name) => name.span,
        ResultType::Empty(span) => *span,
    }
}

fn type_span(written: &ParameterType) -> Span
    ensures { result ≡ declarations.type_span written.now }
{
    match written {
        ParameterType::Named { span, .. } => *span,
        ParameterType::Function { span, .. } => *span,
    }
}

/// A result, after its `->`.
#[tactic(auto, unfolding(own_grammar::specs::ReadingFile::result_with, own_grammar::specs::ReadingFile::wanted))]
fn result_of(alloc: Global, rest: &[Token]) -> Read<'_, ResultType>
    ensures gives { Gives (λ x. (x.0, x.1.now)) result (spec.result_with rest.now) }
    ensures within { IfOk result (λ x. length x.1.now ≤ length rest.now) }
{
    if let Some(name) = name_at(alloc, rest)? {
        return Ok((ResultType::Named(name), after(rest)));
    }
    if !is_mark(Mark::OpenParen, rest) {
        return Err(ReadError::Syntax(rest.len()));
    }
    let more = after(rest);
    if !is_mark(Mark::CloseParen, more) {
        return Err(ReadError::Syntax(more.len()));
    }
    let span = till(here(rest), here(more));
    Ok((ResultType::Empty(span), after(more)))
}

/// `->` and a result, where they are written.
#[tactic(auto, unfolding(own_grammar::specs::ReadingFile::returns_with))]
pub(crate) fn returns_of(alloc: Global, rest: &[Token]) -> Read<'_, Option<ResultType>>
    ensures gives { Gives (λ x. (x.0, x.1.now)) result (spec.returns_with rest.now) }
    ensures within { IfOk result (λ x. length x.1.now ≤ length rest.now) }
{
    if !is_mark(Mark::Arrow, rest) {
        return Ok((None, rest));
    }
    let (written, more) = result_of(alloc, after(rest))?;
    Ok((Some(written), more))
}

/// A name after its modifier, where one is written.
#[tactic(auto, unfolding(own_grammar::specs::ReadingFile::moded_with))]
fn moded_of(alloc: Global, rest: &[Token]) -> Read<'_, (Option<PassingMode>, Name)>
    ensures gives { Gives (λ x. (x.0, x.1.now)) result (spec.moded_with rest.now) }
    ensures shorter { IfOk result (λ x. length x.1.now < length rest.now) }
{
    if let Some(mode) = passing_at(rest) {
        let more = after(rest);
        return match name_at(alloc, more)? {
            Some(name) => Ok(((Some(mode), name), after(more))),
            None => Err(ReadError::Syntax(more.len())),
        };
    }
    match name_at(alloc, rest)? {
        Some(name) => Ok(((None, name), after(rest))),
        None => Err(ReadError::Syntax(rest.len())),
    }
}

/// A parameter inside a function type.
#[tactic(auto, unfolding(own_grammar::specs::ReadingFile::inner_with))]
fn inner_of(alloc: Global, rest: &[Token]) -> Read<'_, FunctionParameter>
    ensures gives { Gives (λ x. (x.0, x.1.now)) result (spec.inner_with rest.now) }
    ensures shorter { IfOk result (λ x. length x.1.now < length rest.now) }
{
    let ((mode, name), more) = moded_of(alloc, rest)?;
    let span = till(here(rest), name.span);
    Ok((FunctionParameter { span, mode, name }, more))
}

/// The parameters of a function type, with commas between them.
fn inner_list(alloc: Global, rest: &[Token]) -> Read<'_, Row<FunctionParameter>>
    ensures gives { Gives (λ x. (x.0, x.1.now)) result (lists.listed_on spec.inner_with [] rest.now) }
    ensures within { IfOk result (λ x. length x.1.now ≤ length rest.now) }
{
    let mut found = Row::new(alloc);
    let mut left = rest;
    loop {
        let (parameter, more) = inner_of(alloc, left)?;
        found.push(parameter)?;
        if !is_mark(Mark::Comma, more) {
            return Ok((found, more));
        }
        left = after(more);
    }
}

/// The parameters of a function type up to the `)`, which is left.
#[tactic(auto, unfolding(own_grammar::specs::Lists::bracketed_with))]
fn inner_parameters_of(alloc: Global, rest: &[Token]) -> Read<'_, Row<FunctionParameter>>
    ensures gives { Gives (λ x. (x.0, x.1.now)) result (lists.bracketed_with spec.inner_with rest.now) }
    ensures within { IfOk result (λ x. length x.1.now ≤ length rest.now) }
{
    if !is_mark(Mark::OpenParen, rest) {
        return Err(ReadError::Syntax(rest.len()));
    }
    let more = after(rest);
    if is_mark(Mark::CloseParen, more) {
        return Ok((Row::new(alloc), more));
    }
    let (found, last) = inner_list(alloc, more)?;
    if is_mark(Mark::CloseParen, last) {
        Ok((found, last))
    } else {
        Err(ReadError::Syntax(last.len()))
    }
}

/// A function type that begins at `from`, after its parameters.
#[tactic(auto, unfolding(own_grammar::specs::ReadingFile::arrow_with, own_grammar::specs::ReadingFile::wanted))]
fn arrow_of<'a>(
    alloc: Global,
    from: &[Token],
    parameters: Row<FunctionParameter>,
    rest: &'a [Token],
) -> Read<'a, ParameterType>
    ensures gives { Gives (λ x. (x.0, x.1.now)) result (spec.arrow_with from.now parameters rest.now) }
    ensures within { IfOk result (λ x. length x.1.now ≤ length rest.now) }
{
    let more = after(rest);
    if !is_mark(Mark::Arrow, more) {
        return Err(ReadError::Syntax(more.len()));
    }
    let (written, last) = result_of(alloc, after(more))?;
    let span = till(here(from), result_span(&written));
    Ok((
        ParameterType::Function {
            span,
            parameters,
            result: written,
        },
        last,
    ))
}

/// The written type of a parameter.
#[tactic(auto, unfolding(own_grammar::specs::ReadingFile::type_with))]
fn type_of(alloc: Global, rest: &[Token]) -> Read<'_, ParameterType>
    ensures gives { Gives (λ x. (x.0, x.1.now)) result (spec.type_with rest.now) }
    ensures within { IfOk result (λ x. length x.1.now ≤ length rest.now) }
{
    if is_mark(Mark::OpenParen, rest) {
        let (parameters, more) = inner_parameters_of(alloc, rest)?;
        return arrow_of(alloc, rest, parameters, more);
    }
    let ((mode, name), more) = moded_of(alloc, rest)?;
    let span = till(here(rest), name.span);
    Ok((ParameterType::Named { span, mode, name }, more))
}

/// The name of a parameter, and its label where one is written before it.
#[tactic(auto, unfolding(own_grammar::specs::ReadingFile::labelled_with))]
fn labelled_of(alloc: Global, rest: &[Token]) -> Read<'_, (Label, Name)>
    ensures gives { Gives (λ x. (x.0, x.1.now)) result (spec.labelled_with rest.now) }
    ensures shorter { IfOk result (λ x. length x.1.now < length rest.now) }
{
    let more = after(rest);
    if is_mark(Mark::Underscore, rest) {
        return match name_at(alloc, more)? {
            Some(name) => Ok(((Label::Omitted, name), after(more))),
            None => Err(ReadError::Syntax(more.len())),
        };
    }
    let Some(first) = name_at(alloc, rest)? else {
        return Err(ReadError::Syntax(rest.len()));
    };
    match name_at(alloc, more)? {
        Some(name) => Ok(((Label::Other(first), name), after(more))),
        None => Ok(((Label::Same, first), more)),
    }
}

#[tactic(auto, unfolding(own_grammar::specs::ReadingFile::parameter_with, own_grammar::specs::ReadingFile::wanted))]
fn parameter_of(alloc: Global, rest: &[Token]) -> Read<'_, Parameter>
    ensures gives { Gives (λ x. (x.0, x.1.now)) result (spec.parameter_with rest.now) }
    ensures shorter { IfOk result (λ x. length x.1.now < length rest.now) }
{
    let ((label, name), more) = labelled_of(alloc, rest)?;
    if !is_mark(Mark::Colon, more) {
        return Err(ReadError::Syntax(more.len()));
    }
    let (written, last) = type_of(alloc, after(more))?;
    let span = till(here(rest), type_span(&written));
    Ok((
        Parameter {
            span,
            label,
            name,
            written,
        },
        last,
    ))
}

/// Parameters with commas between them.
fn parameter_list(alloc: Global, rest: &[Token]) -> Read<'_, Row<Parameter>>
    ensures gives { Gives (λ x. (x.0, x.1.now)) result (lists.listed_on spec.parameter_with [] rest.now) }
    ensures within { IfOk result (λ x. length x.1.now ≤ length rest.now) }
{
    let mut found = Row::new(alloc);
    let mut left = rest;
    loop {
        let (parameter, more) = parameter_of(alloc, left)?;
        found.push(parameter)?;
        if !is_mark(Mark::Comma, more) {
            return Ok((found, more));
        }
        left = after(more);
    }
}

/// Parameters in parentheses up to the `)`, which is left.
#[tactic(auto, unfolding(own_grammar::specs::Lists::bracketed_with))]
fn bracketed_parameters_of(alloc: Global, rest: &[Token]) -> Read<'_, Row<Parameter>>
    ensures gives { Gives (λ x. (x.0, x.1.now)) result (lists.bracketed_with spec.parameter_with rest.now) }
    ensures within { IfOk result (λ x. length x.1.now ≤ length rest.now) }
{
    if !is_mark(Mark::OpenParen, rest) {
        return Err(ReadError::Syntax(rest.len()));
    }
    let more = after(rest);
    if is_mark(Mark::CloseParen, more) {
        return Ok((Row::new(alloc), more));
    }
    let (found, last) = parameter_list(alloc, more)?;
    if is_mark(Mark::CloseParen, last) {
        Ok((found, last))
    } else {
        Err(ReadError::Syntax(last.len()))
    }
}

/// The parameters of a function, method or `init`.
#[tactic(auto, unfolding(own_grammar::specs::ReadingFile::parameters_with))]
pub(crate) fn parameters_of(alloc: Global, rest: &[Token]) -> Read<'_, Row<Parameter>>
    ensures gives { Gives (λ x. (x.0, x.1.now)) result (spec.parameters_with rest.now) }
    ensures within { IfOk result (λ x. length x.1.now ≤ length rest.now) }
{
    let (found, last) = bracketed_parameters_of(alloc, rest)?;
    Ok((found, after(last)))
}
