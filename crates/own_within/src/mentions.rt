//! What the parts of a body mention: each binding that they use, and whether they change it.

ghost use Rattle.std.specs.Prelude.{◌≡◌, ◌++◌, [], ◌∷◌, OnOk, map};
ghost use Rattle.std.specs.Option.{option_copied};
ghost use Rattle.own_tree.specs.TypedView.{exps_of, expr_view, stmt_view};
ghost use Rattle.own_paths.specs.Captures.{mention, called, passed, changed_by_passing, stm_mentions, stms_mention};
ghost use Rattle.own_within.specs.View.{stms_seen, captured_seen};

use crate::captured::Captured;
use crate::nodes::{first_passing, other_passings, path_of};
use own_tree::Passing;
use own_tree::typed::{Target, TypedExpr, TypedPath, TypedStmt};
use std::alloc::AllocError;

/// Adds a mention of a binding.
pub(crate) fn push_mention(
    mentions: &mut Vec<Captured>,
    change: bool,
    binding: u32,
) -> Result<(), AllocError>
    ensures { OnOk result (captured_seen mentions.new.items
        ≡ captured_seen mentions.old.items ++ mention change binding ∷ []) }
{
    mentions.push(Captured { binding, change })?;
    Ok(())
}

/// Adds a parameter of function type that is called.
fn push_called(mentions: &mut Vec<Captured>, target: Target) -> Result<(), AllocError>
    ensures { OnOk result (captured_seen mentions.new.items ≡ captured_seen mentions.old.items ++ called target) }
{
    match target {
        Target::Closure(binding) => push_mention(mentions, false, binding),
        Target::Function(_)
        | Target::Method(_)
        | Target::Init(_)
        | Target::Memberwise(_)
        | Target::Case(..)
        | Target::Print
        | Target::ReadInt => Ok(()),
    }
}

/// Adds what is passed so, if that changes a path.
fn push_passed(
    mentions: &mut Vec<Captured>,
    passing: Passing,
    path: Option<&TypedPath>,
) -> Result<(), AllocError>
    ensures { OnOk result (captured_seen mentions.new.items ≡ captured_seen mentions.old.items ++ passed passing
        (option_copied path.entry)) }
{
    match (passing, path) {
        (Passing::Inout, Some(path)) => push_mention(mentions, true, path.place.binding),
        _ => Ok(()),
    }
}

/// Adds the receivers of mutating methods.
fn push_changed(
    mentions: &mut Vec<Captured>,
    arguments: &[TypedExpr],
    passings: &[Passing],
) -> Result<(), AllocError>
    ensures { OnOk result (captured_seen mentions.new.items
        ≡ captured_seen mentions.old.items ++ changed_by_passing (exps_of (map expr_view arguments.now)) passings.now) }
{
    let mut passings = passings;
    for argument in arguments {
        push_passed(mentions, first_passing(passings), path_of(argument))?;
        passings = other_passings(passings);
    }
    Ok(())
}

/// Adds what a call mentions beside its arguments.
pub(crate) fn push_call(
    mentions: &mut Vec<Captured>,
    target: Target,
    arguments: &[TypedExpr],
    passings: &[Passing],
) -> Result<(), AllocError>
    ensures { OnOk result (captured_seen mentions.new.items
        ≡ captured_seen mentions.old.items ++ (called target ++ changed_by_passing
        (exps_of (map expr_view arguments.now)) passings.now)) }
{
    push_called(mentions, target)?;
    push_changed(mentions, arguments, passings)
}

/// Adds what a statement mentions by itself, without its parts.
fn push_statement_mentions(
    mentions: &mut Vec<Captured>,
    statement: &TypedStmt,
) -> Result<(), AllocError>
    ensures { OnOk result (captured_seen mentions.new.items ≡ captured_seen mentions.old.items ++ stm_mentions
        (stmt_view statement.now)) }
{
    match statement {
        TypedStmt::Assign(_, path, _) | TypedStmt::Update(_, path, _, _, _) => {
            push_mention(mentions, true, path.place.binding)
        }
        TypedStmt::Discard(_, place) => push_mention(mentions, false, place.binding),
        TypedStmt::Let(..)
        | TypedStmt::Declare(..)
        | TypedStmt::Ignore(..)
        | TypedStmt::If(..)
        | TypedStmt::IfElse(..)
        | TypedStmt::ElseIf(..)
        | TypedStmt::While(..)
        | TypedStmt::Repeat(..)
        | TypedStmt::For(..)
        | TypedStmt::Switch(..)
        | TypedStmt::Break(_)
        | TypedStmt::Continue(_)
        | TypedStmt::Return(_)
        | TypedStmt::ReturnValue(..)
        | TypedStmt::Evaluate(..) => Ok(()),
    }
}

/// Adds what each of these mentions by itself.
pub(crate) fn push_statements_mention(
    mentions: &mut Vec<Captured>,
    statements: &[&TypedStmt],
) -> Result<(), AllocError>
    ensures { OnOk result (captured_seen mentions.new.items ≡ captured_seen mentions.old.items ++ stms_mention
        (stms_seen statements.now)) }
{
    for statement in statements {
        push_statement_mentions(mentions, *statement)?;
    }
    Ok(())
}
