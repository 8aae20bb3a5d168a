//! Functions, and the members of structs and enums.
ghost use Rattle.std.specs.Prelude.{◌≡◌, ◌≤◌, ◌<◌, length, [], IfOk};
ghost use Rattle.own_expr.specs.Gives.{Gives};
ghost use Rattle.own_grammar.specs.Declarations as declarations;
ghost use Rattle.own_grammar.specs.Lists as lists;
ghost use Rattle.own_grammar.specs.Reading as reading;
ghost use Rattle.own_grammar.specs.ReadingFile as spec;
ghost use Rattle.own_tree.specs.Source as source;
ghost use Rattle.own_tree.specs.View.{block_view, function_view, method_view, deinitializer_view, struct_member_view, enum_member_view};

use crate::read::Read;
use crate::types::{parameters_of, returns_of};
use own_expr::tokens::{
    ReadError, after, body_goal, here, is_mark, is_word, keyword_at, kind_at, name_at, till,
};
use own_grammar::limits::MOST_PATTERN_LEVELS;
use own_tree::limits::MOST_NESTING;
use own_tree::tree::{
    Block, CaseItem, Deinitializer, EnumMember, Field, FunctionDeclaration, Initializer, Keyword,
    Method, MethodMode, Name, Parameter, StructMember,
};
use own_tree::{Kind, Mark, Row, Span, Token, Word};
use std::alloc::Global;

fn word_changing(word: Word) -> Option<MethodMode>
    ensures { result ≡ declarations.word_changing word }
{
    match word {
        Word::Borrowing => Some(MethodMode::Borrowing),
        Word::Consuming => Some(MethodMode::Consuming),
        Word::Mutating => Some(MethodMode::Mutating),
        _ => None,
    }
}

/// The modifier of a method, where one is written.
#[tactic(auto, unfolding(own_grammar::specs::Declarations::changing_at))]
fn changing_at(rest: &[Token]) -> Option<MethodMode>
    ensures { result ≡ declarations.changing_at rest.now }
{
    match kind_at(rest) {
        Some(Kind::Word(word)) => word_changing(*word),
        _ => None,
    }
}

/// The block of a body. No node stands above it.
fn block_of(alloc: Global, rest: &[Token]) -> Read<'_, Block>
    ensures gives { Gives (λ x. (block_view x.0, x.1.now)) result (reading.read MOST_NESTING MOST_PATTERN_LEVELS reading.Goal.body 0 rest.now) }
    ensures shorter { IfOk result (λ x. length x.1.now < length rest.now) }
{
    let (block, _, more) = body_goal(alloc, rest, 0)?;
    Ok((block, more))
}

/// A function that begins at `from`, after its parameters.
#[tactic(auto, unfolding(own_grammar::specs::ReadingFile::function_body_with))]
fn function_body_of<'a>(
    alloc: Global,
    from: &[Token],
    name: Name,
    parameters: Row<Parameter>,
    rest: &'a [Token],
) -> Read<'a, FunctionDeclaration>
    ensures gives { Gives (λ x. (function_view x.0, x.1.now)) result (spec.function_body_with MOST_NESTING MOST_PATTERN_LEVELS from.now name parameters rest.now) }
    ensures shorter { IfOk result (λ x. length x.1.now < length rest.now) }
{
    let (written, more) = returns_of(alloc, rest)?;
    let (block, last) = block_of(alloc, more)?;
    let span = till(here(from), block.span);
    Ok((
        FunctionDeclaration {
            span,
            name,
            parameters,
            result: written,
            block,
        },
        last,
    ))
}

#[tactic(auto, unfolding(own_grammar::specs::ReadingFile::function_with, own_grammar::specs::ReadingFile::wanted))]
pub(crate) fn function_of(alloc: Global, rest: &[Token]) -> Read<'_, FunctionDeclaration>
    ensures gives { Gives (λ x. (function_view x.0, x.1.now)) result (spec.function_with MOST_NESTING MOST_PATTERN_LEVELS rest.now) }
    ensures shorter { IfOk result (λ x. length x.1.now < length rest.now) }
{
    if !is_word(Word::Func, rest) {
        return Err(ReadError::Syntax(rest.len()));
    }
    let more = after(rest);
    let Some(name) = name_at(alloc, more)? else {
        return Err(ReadError::Syntax(more.len()));
    };
    let (parameters, last) = parameters_of(alloc, after(more))?;
    function_body_of(alloc, rest, name, parameters, last)
}

#[tactic(auto, unfolding(own_grammar::specs::ReadingFile::method_with))]
fn method_of(alloc: Global, rest: &[Token]) -> Read<'_, Method>
    ensures gives { Gives (λ x. (method_view x.0, x.1.now)) result (spec.method_with MOST_NESTING MOST_PATTERN_LEVELS rest.now) }
    ensures shorter { IfOk result (λ x. length x.1.now < length rest.now) }
{
    if let Some(mode) = changing_at(rest) {
        let (function, more) = function_of(alloc, after(rest))?;
        let span = till(here(rest), function.span);
        let mode = Some(mode);
        return Ok((
            Method {
                span,
                mode,
                function,
            },
            more,
        ));
    }
    let (function, more) = function_of(alloc, rest)?;
    let span = till(here(rest), function.span);
    Ok((
        Method {
            span,
            mode: None,
            function,
        },
        more,
    ))
}

/// A stored property, the keyword of which is the next token.
#[tactic(auto, unfolding(own_grammar::specs::ReadingFile::field_with, own_grammar::specs::ReadingFile::wanted))]
fn field_of(alloc: Global, rest: &[Token], keyword: Keyword) -> Read<'_, Field>
    requires some { 0 < length rest.now }
    ensures gives { Gives (λ x. (source.field x.0, x.1.now)) result (spec.field_with rest.now keyword) }
    ensures shorter { IfOk result (λ x. length x.1.now < length rest.now) }
{
    let more = after(rest);
    let Some(name) = name_at(alloc, more)? else {
        return Err(ReadError::Syntax(more.len()));
    };
    let colon = after(more);
    if !is_mark(Mark::Colon, colon) {
        return Err(ReadError::Syntax(colon.len()));
    }
    let last = after(colon);
    let Some(written) = name_at(alloc, last)? else {
        return Err(ReadError::Syntax(last.len()));
    };
    let span = till(here(rest), here(last));
    Ok((
        Field {
            span,
            keyword,
            name,
            written,
        },
        after(last),
    ))
}

/// An `init`, which is the next token.
#[tactic(auto, unfolding(own_grammar::specs::ReadingFile::initializer_with))]
fn initializer_of(alloc: Global, rest: &[Token]) -> Read<'_, Initializer>
    requires some { 0 < length rest.now }
    ensures gives { Gives (λ x. (struct_member_view (StructMember.Initializer x.0), x.1.now)) result (spec.initializer_with MOST_NESTING MOST_PATTERN_LEVELS rest.now) }
    ensures shorter { IfOk result (λ x. length x.1.now < length rest.now) }
{
    let (parameters, more) = parameters_of(alloc, after(rest))?;
    let (block, last) = block_of(alloc, more)?;
    let span = till(here(rest), block.span);
    Ok((
        Initializer {
            span,
            parameters,
            block,
        },
        last,
    ))
}

/// A `deinit`, which is the next token.
#[tactic(auto, unfolding(own_grammar::specs::ReadingFile::deinitializer_with))]
fn deinitializer_of(alloc: Global, rest: &[Token]) -> Read<'_, Deinitializer>
    requires some { 0 < length rest.now }
    ensures gives { Gives (λ x. (deinitializer_view x.0, x.1.now)) result (spec.deinitializer_with MOST_NESTING MOST_PATTERN_LEVELS rest.now) }
    ensures shorter { IfOk result (λ x. length x.1.now < length rest.now) }
{
    let (block, more) = block_of(alloc, after(rest))?;
    let span = till(here(rest), block.span);
    Ok((Deinitializer { span, block }, more))
}

#[tactic(auto, unfolding(own_grammar::specs::ReadingFile::struct_member_with))]
pub(crate) fn struct_member_of(alloc: Global, rest: &[Token]) -> Read<'_, StructMember>
    ensures gives { Gives (λ x. (struct_member_view x.0, x.1.now)) result (spec.struct_member_with MOST_NESTING MOST_PATTERN_LEVELS rest.now) }
    ensures shorter { IfOk result (λ x. length x.1.now < length rest.now) }
{
    if let Some(keyword) = keyword_at(rest) {
        let (field, more) = field_of(alloc, rest, keyword)?;
        return Ok((StructMember::Field(field), more));
    }
    if is_word(Word::Init, rest) {
        let (initializer, more) = initializer_of(alloc, rest)?;
        return Ok((StructMember::Initializer(initializer), more));
    }
    if is_word(Word::Deinit, rest) {
        let (deinitializer, more) = deinitializer_of(alloc, rest)?;
        return Ok((StructMember::Deinitializer(deinitializer), more));
    }
    let (method, more) = method_of(alloc, rest)?;
    Ok((StructMember::Method(method), more))
}

/// The written type of a payload.
#[tactic(auto, unfolding(own_grammar::specs::ReadingFile::name_with))]
fn payload_of(alloc: Global, rest: &[Token]) -> Read<'_, Name>
    ensures gives { Gives (λ x. (x.0, x.1.now)) result (spec.name_with rest.now) }
    ensures shorter { IfOk result (λ x. length x.1.now < length rest.now) }
{
    match name_at(alloc, rest)? {
        Some(name) => Ok((name, after(rest))),
        None => Err(ReadError::Syntax(rest.len())),
    }
}

/// The payloads of a case, with commas between them.
fn payload_list(alloc: Global, rest: &[Token]) -> Read<'_, Row<Name>>
    ensures gives { Gives (λ x. (x.0, x.1.now)) result (lists.listed_on spec.name_with [] rest.now) }
    ensures within { IfOk result (λ x. length x.1.now ≤ length rest.now) }
{
    let mut found = Row::new(alloc);
    let mut left = rest;
    loop {
        let (name, more) = payload_of(alloc, left)?;
        found.push(name)?;
        if !is_mark(Mark::Comma, more) {
            return Ok((found, more));
        }
        left = after(more);
    }
}

/// One name of a `case`, with its payloads.
#[tactic(auto, unfolding(own_grammar::specs::ReadingFile::item_with, own_grammar::specs::ReadingFile::wanted))]
fn item_of(alloc: Global, rest: &[Token]) -> Read<'_, CaseItem>
    ensures gives { Gives (λ x. (x.0, x.1.now)) result (spec.item_with rest.now) }
    ensures shorter { IfOk result (λ x. length x.1.now < length rest.now) }
{
    let Some(name) = name_at(alloc, rest)? else {
        return Err(ReadError::Syntax(rest.len()));
    };
    let more = after(rest);
    if !is_mark(Mark::OpenParen, more) {
        let span = till(here(rest), here(rest));
        let payloads = Row::new(alloc);
        return Ok((
            CaseItem {
                span,
                name,
                payloads,
            },
            more,
        ));
    }
    let (payloads, last) = payload_list(alloc, after(more))?;
    if !is_mark(Mark::CloseParen, last) {
        return Err(ReadError::Syntax(last.len()));
    }
    let span = till(here(rest), here(last));
    Ok((
        CaseItem {
            span,
            name,
            payloads,
        },
        after(last),
    ))
}

/// The items of a `case`, with commas between them.
fn item_list(alloc: Global, rest: &[Token]) -> Read<'_, Row<CaseItem>>
    ensures gives { Gives (λ x. (x.0, x.1.now)) result (lists.listed_on spec.item_with [] rest.now) }
    ensures within { IfOk result (λ x. length x.1.now ≤ length rest.now) }
{
    let mut found = Row::new(alloc);
    let mut left = rest;
    loop {
        let (item, more) = item_of(alloc, left)?;
        found.push(item)?;
        if !is_mark(Mark::Comma, more) {
            return Ok((found, more));
        }
        left = after(more);
    }
}

/// The span of the last item, or the one given where there is none.
fn items_end(before: Span, items: &[CaseItem]) -> Span
    ensures { result ≡ declarations.items_end before items.now }
{
    match items {
        [.., last] => last.span,
        [] => before,
    }
}

/// A `case` with its items, the word of which is the next token.
#[tactic(auto, unfolding(own_grammar::specs::ReadingFile::cases_with))]
fn cases_of(alloc: Global, rest: &[Token]) -> Read<'_, EnumMember>
    requires some { 0 < length rest.now }
    ensures gives { Gives (λ x. (enum_member_view x.0, x.1.now)) result (spec.cases_with rest.now) }
    ensures shorter { IfOk result (λ x. length x.1.now < length rest.now) }
{
    let (items, more) = item_list(alloc, after(rest))?;
    let span = till(here(rest), items_end(here(rest), items.as_slice()));
    Ok((EnumMember::Cases(span, items), more))
}

#[tactic(auto, unfolding(own_grammar::specs::ReadingFile::enum_member_with))]
pub(crate) fn enum_member_of(alloc: Global, rest: &[Token]) -> Read<'_, EnumMember>
    ensures gives { Gives (λ x. (enum_member_view x.0, x.1.now)) result (spec.enum_member_with MOST_NESTING MOST_PATTERN_LEVELS rest.now) }
    ensures shorter { IfOk result (λ x. length x.1.now < length rest.now) }
{
    if is_word(Word::Case, rest) {
        return cases_of(alloc, rest);
    }
    if is_word(Word::Deinit, rest) {
        let (deinitializer, more) = deinitializer_of(alloc, rest)?;
        return Ok((EnumMember::Deinitializer(deinitializer), more));
    }
    let (method, more) = method_of(alloc, rest)?;
    Ok((EnumMember::Method(method), more))
}
