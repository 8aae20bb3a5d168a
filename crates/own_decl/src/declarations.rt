//! Structs, enums, and the declarations of a file.
ghost use Rattle.std.specs.Prelude.{◌≡◌, ◌≤◌, ◌<◌, length, map, [], IfOk};
ghost use Rattle.own_expr.specs.Gives.{Gives};
ghost use Rattle.own_grammar.specs.Declarations as declarations;
ghost use Rattle.own_grammar.specs.Lists as lists;
ghost use Rattle.own_grammar.specs.ReadingFile as spec;
ghost use Rattle.own_grammar.specs.Tests as tests;
ghost use Rattle.own_tree.specs.Source as source;
ghost use Rattle.own_tree.specs.View.{declaration_view, struct_member_view, enum_member_view};

use crate::members::{enum_member_of, function_of, struct_member_of};
use crate::read::Read;
use own_expr::tokens::{ReadError, after, here, is_mark, is_word, kind_at, name_at, sep_at, till};
use own_grammar::limits::MOST_PATTERN_LEVELS;
use own_tree::limits::MOST_NESTING;
use own_tree::tree::{Declaration, EnumDeclaration, EnumMember, StructDeclaration, StructMember};
use own_tree::{Kind, Mark, Row, Token, Word};
use std::alloc::Global;

/// Whether the next token is the name `text`.
#[tactic(auto, unfolding(own_grammar::specs::Declarations::is_named, own_grammar::specs::Tests::name_at))]
fn is_named(text: &[u8], rest: &[Token]) -> bool
    ensures { result ≡ declarations.is_named text.now rest.now }
{
    match kind_at(rest) {
        Some(Kind::Name(name)) => name.as_slice() == text,
        _ => false,
    }
}

/// Whether the next token is the name `main`, with which the last statement of a file begins.
#[tactic(auto, unfolding(own_grammar::specs::ReadingFile::is_main))]
fn is_main(rest: &[Token]) -> bool
    ensures { result ≡ spec.is_main rest.now }
{
    is_named(b"main", rest)
}

/// `: ~Copyable`, where it is written (SE-0390).
#[tactic(auto, unfolding(own_grammar::specs::ReadingFile::noncopyable_with, own_grammar::specs::ReadingFile::wanted))]
fn noncopyable_of(rest: &[Token]) -> Read<'_, bool>
    ensures gives { Gives (λ x. (x.0, x.1.now)) result (spec.noncopyable_with rest.now) }
    ensures within { IfOk result (λ x. length x.1.now ≤ length rest.now) }
{
    if !is_mark(Mark::Colon, rest) {
        return Ok((false, rest));
    }
    let more = after(rest);
    if !is_mark(Mark::Tilde, more) {
        return Err(ReadError::Syntax(more.len()));
    }
    let last = after(more);
    if !is_named(b"Copyable", last) {
        return Err(ReadError::Syntax(last.len()));
    }
    Ok((true, after(last)))
}

/// The members of a struct up to the `}`, which is left.
fn struct_member_list(alloc: Global, rest: &[Token]) -> Read<'_, Row<StructMember>>
    ensures gives { Gives (λ x. (map struct_member_view x.0, x.1.now)) result (lists.separated_on (tests.is_mark Mark.CloseBrace) (spec.struct_member_with MOST_NESTING MOST_PATTERN_LEVELS) [] rest.now) }
    ensures within { IfOk result (λ x. length x.1.now ≤ length rest.now) }
{
    let mut found = Row::new(alloc);
    let mut left = rest;
    while !is_mark(Mark::CloseBrace, left) {
        let (member, more) = struct_member_of(alloc, left)?;
        let next = sep_at(true, more)?;
        found.push(member)?;
        left = next;
    }
    Ok((found, left))
}

/// The members of a struct from its `{` up to the `}`, which is left.
#[tactic(auto, unfolding(own_grammar::specs::ReadingFile::members_with, own_grammar::specs::ReadingFile::wanted))]
fn struct_members_of(alloc: Global, rest: &[Token]) -> Read<'_, Row<StructMember>>
    ensures gives { Gives (λ x. (map struct_member_view x.0, x.1.now)) result (spec.members_with (spec.struct_member_with MOST_NESTING MOST_PATTERN_LEVELS) rest.now) }
    ensures within { IfOk result (λ x. length x.1.now ≤ length rest.now) }
{
    if !is_mark(Mark::OpenBrace, rest) {
        return Err(ReadError::Syntax(rest.len()));
    }
    struct_member_list(alloc, after(rest))
}

/// A struct, the word of which is the next token.
#[tactic(auto, unfolding(own_grammar::specs::ReadingFile::named_with))]
fn struct_of(alloc: Global, rest: &[Token]) -> Read<'_, StructDeclaration>
    requires some { 0 < length rest.now }
    ensures gives { Gives (λ x. (declaration_view (Declaration.Struct x.0), x.1.now)) result (spec.named_with (spec.struct_member_with MOST_NESTING MOST_PATTERN_LEVELS) source.struct_of rest.now) }
    ensures shorter { IfOk result (λ x. length x.1.now < length rest.now) }
{
    let more = after(rest);
    let Some(name) = name_at(alloc, more)? else {
        return Err(ReadError::Syntax(more.len()));
    };
    let (noncopyable, brace) = noncopyable_of(after(more))?;
    let (members, last) = struct_members_of(alloc, brace)?;
    let span = till(here(rest), here(last));
    Ok((
        StructDeclaration {
            span,
            name,
            noncopyable,
            members,
        },
        after(last),
    ))
}

/// The members of an enum up to the `}`, which is left.
fn enum_member_list(alloc: Global, rest: &[Token]) -> Read<'_, Row<EnumMember>>
    ensures gives { Gives (λ x. (map enum_member_view x.0, x.1.now)) result (lists.separated_on (tests.is_mark Mark.CloseBrace) (spec.enum_member_with MOST_NESTING MOST_PATTERN_LEVELS) [] rest.now) }
    ensures within { IfOk result (λ x. length x.1.now ≤ length rest.now) }
{
    let mut found = Row::new(alloc);
    let mut left = rest;
    while !is_mark(Mark::CloseBrace, left) {
        let (member, more) = enum_member_of(alloc, left)?;
        let next = sep_at(true, more)?;
        found.push(member)?;
        left = next;
    }
    Ok((found, left))
}

/// The members of an enum from its `{` up to the `}`, which is left.
#[tactic(auto, unfolding(own_grammar::specs::ReadingFile::members_with, own_grammar::specs::ReadingFile::wanted))]
fn enum_members_of(alloc: Global, rest: &[Token]) -> Read<'_, Row<EnumMember>>
    ensures gives { Gives (λ x. (map enum_member_view x.0, x.1.now)) result (spec.members_with (spec.enum_member_with MOST_NESTING MOST_PATTERN_LEVELS) rest.now) }
    ensures within { IfOk result (λ x. length x.1.now ≤ length rest.now) }
{
    if !is_mark(Mark::OpenBrace, rest) {
        return Err(ReadError::Syntax(rest.len()));
    }
    enum_member_list(alloc, after(rest))
}

/// An enum, the word of which is the next token.
#[tactic(auto, unfolding(own_grammar::specs::ReadingFile::named_with))]
fn enum_of(alloc: Global, rest: &[Token]) -> Read<'_, EnumDeclaration>
    requires some { 0 < length rest.now }
    ensures gives { Gives (λ x. (declaration_view (Declaration.Enum x.0), x.1.now)) result (spec.named_with (spec.enum_member_with MOST_NESTING MOST_PATTERN_LEVELS) source.enum_of rest.now) }
    ensures shorter { IfOk result (λ x. length x.1.now < length rest.now) }
{
    let more = after(rest);
    let Some(name) = name_at(alloc, more)? else {
        return Err(ReadError::Syntax(more.len()));
    };
    let (noncopyable, brace) = noncopyable_of(after(more))?;
    let (members, last) = enum_members_of(alloc, brace)?;
    let span = till(here(rest), here(last));
    Ok((
        EnumDeclaration {
            span,
            name,
            noncopyable,
            members,
        },
        after(last),
    ))
}

#[tactic(auto, unfolding(own_grammar::specs::ReadingFile::declaration_with))]
fn declaration_of(alloc: Global, rest: &[Token]) -> Read<'_, Declaration>
    ensures gives { Gives (λ x. (declaration_view x.0, x.1.now)) result (spec.declaration_with MOST_NESTING MOST_PATTERN_LEVELS rest.now) }
    ensures shorter { IfOk result (λ x. length x.1.now < length rest.now) }
{
    if is_word(Word::Struct, rest) {
        let (declared, more) = struct_of(alloc, rest)?;
        return Ok((Declaration::Struct(declared), more));
    }
    if is_word(Word::Enum, rest) {
        let (declared, more) = enum_of(alloc, rest)?;
        return Ok((Declaration::Enum(declared), more));
    }
    let (function, more) = function_of(alloc, rest)?;
    Ok((Declaration::Function(function), more))
}

/// The declarations of a file up to the `main` of its last statement, which is left.
pub(crate) fn declarations_of(alloc: Global, rest: &[Token]) -> Read<'_, Row<Declaration>>
    ensures { Gives (λ x. (map declaration_view x.0, x.1.now)) result (lists.separated_on spec.is_main (spec.declaration_with MOST_NESTING MOST_PATTERN_LEVELS) [] rest.now) }
{
    let mut found = Row::new(alloc);
    let mut left = rest;
    while !is_main(left) {
        let (declaration, more) = declaration_of(alloc, left)?;
        let next = sep_at(true, more)?;
        found.push(declaration)?;
        left = next;
    }
    Ok((found, left))
}
