//! Statements without statements and expressions in them.

ghost use Rattle.std.specs.Prelude.{◌≡◌, []};
ghost use Rattle.own_tree.specs.View.{expr_view as source_exp, stmt_view as source_stm};
ghost use Rattle.own_tree.specs.TypedView.{stmt_view};
ghost use Rattle.own_paths.specs.Ops.{has_result as has_result_type};
ghost use Rattle.own_judged.specs.Refusals.{Gives};
ghost use Rattle.own_judged.specs.Statements.{is_effect as is_effect_exp};
ghost use Rattle.own_scope.specs.Known.{text_in};
ghost use Rattle.own_scope.specs.Making.{made_of};
ghost use Rattle.own_scope.specs.Scopes.{scope_of};
ghost use Rattle.own_stated.specs.View.{stated_view, stm_run};

use crate::locals::{binding_of, local_of};
use crate::stated::Stated;
use own_calls::TypeError;
use own_scope::{Builder, Known, Scope};
use own_terms::nodes::node_at;
use own_terms::values::holding;
use own_tree::tree::{Expr, Keyword, Stmt};
use own_tree::typed::TypedStmt;
use own_tree::{Mode, Place, Row, Ty};
use std::alloc::Global;

/// The judgement that `return` has a value exactly where the body has a result.
pub const RETURN_DIFFERS: u8 = 18;

/// The judgement that `break` and `continue` stand in a loop, or `break` in a `switch`, of the same body.
pub const NO_LOOP: u8 = 19;

/// The judgement on where `discard self` stands (SE-0390).
pub const NO_DISCARD: u8 = 22;

/// The judgement that an expression statement is a call or a `consume`, or the value of a body.
pub const UNUSED_VALUE: u8 = 23;

/// The judgement that a local has a value or a `var` a type.
pub const NO_VALUE_NO_TYPE: u8 = 25;

/// A statement that declares no local.
pub fn plain(statement: TypedStmt) -> Stated<'static>
    ensures { stated_view result ≡ (stmt_view statement, []) }
{
    Stated {
        statement,
        local: None,
    }
}

/// An error that came after `part` was typed, which is let go.
pub fn without<T: Drop>(_part: T, error: TypeError) -> TypeError
    ensures { result ≡ error }
{
    error
}

/// Whether a body with that result gives a value.
pub fn has_result(ty: Ty) -> bool
    ensures { result ≡ has_result_type ty }
{
    ty != Ty::Unit
}

/// Whether an expression may stand as a statement.
pub fn is_effect(e: &Expr) -> bool
    ensures { result ≡ is_effect_exp (source_exp e.now) }
{
    matches!(
        e,
        Expr::Call(..) | Expr::CallClosing(..) | Expr::CallClosure(..) | Expr::Consume(..)
    )
}

/// A local without a value.
#[tactic(auto, unfolding(crate::specs::View::stm_run))]
fn declared<'t>(
    alloc: Global,
    known: &Known<'_>,
    builder: &mut Builder,
    scope: &Scope<'_>,
    s: &'t Stmt,
    alone: bool,
) -> Result<Stated<'t>, TypeError>
    ensures { Gives (text_in known.now).types stated_view result (made_of builder.new)
        (stm_run (text_in known.now) (scope_of scope.now) (source_stm s.entry.now) alone (made_of builder.old)) }
{
    match s {
        Stmt::Declare(span, Keyword::Var, Some(name), Some(written)) => {
            let id = builder.node()?;
            let ty = known.written(written.text.as_slice());
            let binding = binding_of(alloc, name, ty, Mode::Var, scope.context.body)?;
            let number = builder.declare(binding)?;
            Ok(Stated {
                statement: TypedStmt::Declare(node_at(id, *span, Ty::Unit), number),
                local: Some(local_of(name, number, ty)),
            })
        }
        Stmt::Declare(span, ..) => Err(TypeError::BadType {
            code: NO_VALUE_NO_TYPE,
            at: *span,
        }),
        _ => Err(TypeError::Memory),
    }
}

/// `discard self`.
#[tactic(auto, unfolding(crate::specs::View::stm_run))]
fn discarded<'t>(
    alloc: Global,
    known: &Known<'_>,
    builder: &mut Builder,
    scope: &Scope<'_>,
    s: &'t Stmt,
    alone: bool,
) -> Result<Stated<'t>, TypeError>
    ensures { Gives (text_in known.now).types stated_view result (made_of builder.new)
        (stm_run (text_in known.now) (scope_of scope.now) (source_stm s.entry.now) alone (made_of builder.old)) }
{
    match s {
        Stmt::Discard(span) => {
            let id = builder.node()?;
            holding(scope.context.may_discard, NO_DISCARD, *span)?;
            let Some(receiver) = scope.context.receiver else {
                return Err(TypeError::BadType {
                    code: NO_DISCARD,
                    at: *span,
                });
            };
            let place = Place {
                binding: receiver.binding,
                fields: Row::new(alloc),
            };
            Ok(plain(TypedStmt::Discard(node_at(id, *span, Ty::Unit), place)))
        }
        _ => Err(TypeError::Memory),
    }
}

/// A local without a value, `discard self` or a jump.
#[tactic(auto, unfolding(crate::specs::View::stm_run))]
pub fn alone_standing<'t>(
    alloc: Global,
    known: &Known<'_>,
    builder: &mut Builder,
    scope: &Scope<'_>,
    s: &'t Stmt,
    alone: bool,
) -> Result<Stated<'t>, TypeError>
    ensures { Gives (text_in known.now).types stated_view result (made_of builder.new)
        (stm_run (text_in known.now) (scope_of scope.now) (source_stm s.entry.now) alone (made_of builder.old)) }
{
    match s {
        Stmt::Declare(..) => declared(alloc, known, builder, scope, s, alone),
        Stmt::Discard(_) => discarded(alloc, known, builder, scope, s, alone),
        Stmt::Break(span) => {
            let id = builder.node()?;
            let stands = scope.context.in_loop || scope.context.in_switch;
            holding(stands, NO_LOOP, *span)?;
            Ok(plain(TypedStmt::Break(node_at(id, *span, Ty::Unit))))
        }
        Stmt::Continue(span) => {
            let id = builder.node()?;
            holding(scope.context.in_loop, NO_LOOP, *span)?;
            Ok(plain(TypedStmt::Continue(node_at(id, *span, Ty::Unit))))
        }
        Stmt::Return(span) => {
            let id = builder.node()?;
            holding(scope.context.result == Ty::Unit, RETURN_DIFFERS, *span)?;
            Ok(plain(TypedStmt::Return(node_at(id, *span, Ty::Unit))))
        }
        _ => Err(TypeError::Memory),
    }
}
