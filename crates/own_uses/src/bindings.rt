//! The bindings of a scope.

ghost use Rattle.std.specs.Prelude.{◌≡◌, suc, [], ◌∷◌, ◌++◌, if◌then◌else◌, OnOk, IfOk, map};
ghost use Rattle.std.specs.Option.{option_copied};
ghost use Rattle.own_tree.specs.TypedView.{pats_of, pattern_view, stms_of, stmt_view};
ghost use Rattle.own_paths.specs.Ops.{has_end, ends, ended, closing};
ghost use Rattle.own_paths.specs.Within.{pattern_bindings, patterns_bindings, locals};
ghost use Rattle.own_shapes.specs.Spans.{opening};

use own_tree::typed::TypedStmt;
use own_tree::{Binding, Mode, Row, Span, TPattern};
use std::alloc::{AllocError, Global};

/// Whether the end of its scope ends a binding: what is borrowed or `inout` is its owner's, and `self` is
/// given out by `init` and taken apart after `deinit`.
fn has_end(mode: Mode) -> bool
    ensures { result ≡ has_end mode }
{
    match mode {
        Mode::Let
        | Mode::Var
        | Mode::Plain
        | Mode::Consuming
        | Mode::Turn
        | Mode::PatternOwned
        | Mode::SelfConsuming
        | Mode::Closure => true,
        Mode::Borrowing
        | Mode::Inout
        | Mode::PatternBorrowed
        | Mode::SelfBorrowing
        | Mode::SelfMutating
        | Mode::SelfInit
        | Mode::SelfDeinit => false,
    }
}

/// Whether a binding is there and has an End.
fn ends(binding: Option<&Binding>) -> bool
    ensures { result ≡ ends (option_copied binding.entry) }
{
    match binding {
        Some(binding) => has_end(binding.mode),
        None => false,
    }
}

/// Adds a binding that is wanted.
fn push_if(row: &mut Row<u32>, number: u32, is_wanted: bool) -> Result<(), AllocError>
    ensures { OnOk result (row.new ≡ row.old ++ (if is_wanted then number ∷ [] else [])) }
{
    if is_wanted {
        row.push(number)?;
    }
    Ok(())
}

/// Those that have an End.
pub(crate) fn ended(
    alloc: Global,
    bindings: &Row<Binding>,
    numbers: &[u32],
) -> Result<Row<u32>, AllocError>
    ensures { IfOk result (λ row. row ≡ ended bindings.now numbers.now) }
{
    let mut row = Row::new(alloc);
    for number in numbers {
        let is_wanted = ends(bindings.get(*number as usize));
        push_if(&mut row, *number, is_wanted)?;
    }
    Ok(row)
}

/// Adds the bindings of a pattern, from left to right.
#[cycle(patterns)]
fn push_pattern(numbers: &mut Vec<u32>, pattern: &TPattern) -> Result<(), AllocError>
    ensures { OnOk result (numbers.new.items ≡ numbers.old.items ++ pattern_bindings (pattern_view pattern.now)) }
{
    match pattern {
        TPattern::Bind(number) => {
            numbers.push(*number)?;
            Ok(())
        }
        TPattern::Case(_, parts) => push_patterns(numbers, parts.as_slice()),
        TPattern::Any | TPattern::Number(_) | TPattern::Truth(_) => Ok(()),
    }
}

/// Adds those of each of these.
#[cycle(patterns)]
fn push_patterns(numbers: &mut Vec<u32>, patterns: &[TPattern]) -> Result<(), AllocError>
    ensures { OnOk result (numbers.new.items ≡ numbers.old.items ++ patterns_bindings
        (pats_of (map pattern_view patterns.now))) }
{
    for pattern in patterns {
        push_pattern(numbers, pattern)?;
    }
    Ok(())
}

/// The bindings of a pattern, from left to right.
pub(crate) fn pattern_bindings(alloc: Global, pattern: &TPattern) -> Result<Vec<u32>, AllocError>
    ensures { IfOk result (λ numbers. numbers.items ≡ pattern_bindings (pattern_view pattern.now)) }
{
    let mut numbers = Vec::new(alloc);
    push_pattern(&mut numbers, pattern)?;
    Ok(numbers)
}

/// Those of patterns that stand side by side.
pub(crate) fn patterns_bindings(
    alloc: Global,
    patterns: &[TPattern],
) -> Result<Vec<u32>, AllocError>
    ensures { IfOk result (λ numbers. numbers.items ≡ patterns_bindings (pats_of (map pattern_view patterns.now))) }
{
    let mut numbers = Vec::new(alloc);
    push_patterns(&mut numbers, patterns)?;
    Ok(numbers)
}

/// The owned bindings of a clause that binds its names twice: each stands behind the borrowed one of its
/// name. More than a `u32` counts have no room.
pub(crate) fn owned(alloc: Global, borrowed: &[u32]) -> Result<Vec<u32>, AllocError>
    ensures { IfOk result (λ numbers. numbers.items ≡ map suc borrowed.now) }
{
    let mut numbers = Vec::new(alloc);
    for number in borrowed {
        match number.checked_add(1) {
            Some(next) => numbers.push(next)?,
            None => return Err(AllocError),
        }
    }
    Ok(numbers)
}

/// Adds the bindings that the statements of one scope declare, in order.
pub(crate) fn push_locals(
    numbers: &mut Vec<u32>,
    statements: &[TypedStmt],
) -> Result<(), AllocError>
    ensures { OnOk result (numbers.new.items ≡ numbers.old.items ++ locals (stms_of (map stmt_view statements.now))) }
{
    for statement in statements {
        match statement {
            TypedStmt::Let(_, number, _) | TypedStmt::Declare(_, number) => numbers.push(*number)?,
            _ => {}
        }
    }
    Ok(())
}

/// The `}` of a block or a `switch`, its last byte.
pub(crate) fn closing(span: Span) -> Span
    ensures { result ≡ closing span }
{
    Span {
        start: span.end.saturating_sub(1),
        end: span.end,
    }
}

/// The `{` of a literal, its first byte.
pub(crate) fn opening(span: Span) -> Span
    ensures { result ≡ opening span }
{
    Span {
        start: span.start,
        end: span.start.saturating_add(1).min(span.end),
    }
}
