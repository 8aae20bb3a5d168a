//! Locals, and what they are bound to.

ghost use Rattle.std.specs.Prelude.{◌≡◌, IfOk, OnOk};
ghost use Rattle.own_tree.specs.TypedView.{expr_view};
ghost use Rattle.own_tree.specs.TypedSource as typed;
ghost use Rattle.own_tree.specs.declared.place.Mode.TheVariants as mode;
ghost use Rattle.own_tree.specs.declared.place.Ty.TheVariants as type;
ghost use Rattle.own_judged.specs.Closures.{binding_of as binding_rule};
ghost use Rattle.own_judged.specs.Conditions.{both, one_type};
ghost use Rattle.own_judged.specs.Names.{inside_loop as within_loop, with_locals};
ghost use Rattle.own_judging.specs.Made.{made};
ghost use Rattle.own_judged.specs.Statements.{local_mode as mode_rule, loop_variable as variable_rule, or_unit as type_or_unit, updating as update_of, written_type_of};
ghost use Rattle.own_judged.specs.Values.{is_of};
ghost use Rattle.own_scope.specs.Known.{text_in};
ghost use Rattle.own_scope.specs.Locals.{declared_local, local_of as local_view};
ghost use Rattle.own_scope.specs.Making.{made_of};
ghost use Rattle.own_scope.specs.Scopes.{scope_of};
ghost use Rattle.own_terms.specs.Says.{Says};
ghost use Rattle.own_stated.specs.Single.{update};
ghost use Rattle.own_stated.specs.View.{bound_of, stated_view};

use crate::jumps::plain;
use crate::stated::Stated;
use own_calls::TypeError;
use own_scope::{Builder, Known, Local, Scope};
use own_terms::nodes::node_of;
use own_terms::operators::OPERANDS_DIFFER;
use own_terms::values::holding;
use own_tree::tree::{AssignOperator, Keyword, Name};
use own_tree::typed::{At, TypedExpr, TypedPath, TypedStmt};
use own_tree::{Arith, Binding, Bytes, Mode, Span, Ty};
use std::alloc::{AllocError, Global};

/// The binding of a name in a body.
pub fn binding_of(
    alloc: Global,
    name: &Name,
    ty: Ty,
    mode: Mode,
    body: u32,
) -> Result<Binding, AllocError>
    ensures { IfOk result (λ b. b ≡ binding_rule name.now.text ty mode name.now.span body) }
{
    Ok(Binding {
        name: Bytes::from_slice(alloc, name.text.as_slice())?,
        ty,
        mode,
        span: name.span,
        body,
    })
}

/// A name with its binding.
pub fn local_of<'t>(name: &'t Name, binding: u32, ty: Ty) -> Local<'t>
    ensures { local_view result ≡ record { name = name.entry.now.text; binding = binding; ty = ty } }
{
    Local {
        name: name.text.as_slice(),
        binding,
        ty,
    }
}

pub fn local_mode(keyword: Keyword) -> Mode
    ensures { result ≡ mode_rule keyword }
{
    match keyword {
        Keyword::Let => Mode::Let,
        Keyword::Var => Mode::Var,
    }
}

/// The type that is written for a local, where one is.
pub fn written_type(known: &Known<'_>, written: &Option<Name>) -> Option<Ty>
    ensures { result ≡ written_type_of (text_in known.now) written.now }
{
    match written {
        Some(name) => Some(known.written(name.text.as_slice())),
        None => None,
    }
}

/// The type of a local until that of its value is known, where none is written.
pub fn or_unit(written: Option<Ty>) -> Ty
    ensures { result ≡ type_or_unit written }
{
    match written {
        Some(ty) => ty,
        None => Ty::Unit,
    }
}

/// Adds the local that a statement declares, where it declares one.
pub fn and_local(
    alloc: Global,
    scope: &mut Scope<'_>,
    local: Option<Local<'_>>,
) -> Result<(), AllocError>
    ensures { OnOk result (scope_of scope.new ≡ with_locals (scope_of scope.old) (declared_local local.entry)) }
{
    match local {
        Some(local) => scope.declare(alloc, local),
        None => Ok(()),
    }
}

/// The variable of a `for`. A `_` is no binding.
pub fn loop_variable<'t>(
    alloc: Global,
    builder: &mut Builder,
    scope: &Scope<'_>,
    name: &'t Option<Name>,
) -> Result<Option<Local<'t>>, AllocError>
    ensures { IfOk result (λ local. (variable_rule (scope_of scope.now) name.entry.now).run (made_of builder.old)
        ≡ made (bound_of local, declared_local local) (made_of builder.new)) }
{
    let Some(name) = name else {
        return Ok(None);
    };
    let binding = binding_of(alloc, name, Ty::Int, Mode::Turn, scope.context.body)?;
    let number = builder.declare(binding)?;
    Ok(Some(local_of(name, number, Ty::Int)))
}

/// The inside of a `for`, with its variable.
pub fn loop_scope<'i>(
    alloc: Global,
    scope: &'i Scope<'_>,
    variable: Option<Local<'_>>,
) -> Result<Scope<'i>, AllocError>
    ensures { IfOk result (λ inner. scope_of inner
        ≡ within_loop (with_locals (scope_of scope.entry.now) (declared_local variable.entry))) }
{
    let mut inner = (&*scope).inside_loop(alloc)?;
    and_local(alloc, &mut inner, variable)?;
    Ok(inner)
}

/// The operation of `op=`.
pub fn updating(operator: AssignOperator) -> Option<Arith>
    ensures { result ≡ update_of operator }
{
    match operator {
        AssignOperator::Plain => None,
        AssignOperator::Plus => Some(Arith::Add),
        AssignOperator::Minus => Some(Arith::Sub),
        AssignOperator::Times => Some(Arith::Mul),
        AssignOperator::Divide => Some(Arith::Div),
        AssignOperator::Remainder => Some(Arith::Rem),
    }
}

/// Whether a place of that type and its right side are both `Int`.
fn are_ints(ty: Ty, typed: &TypedExpr) -> bool
    ensures { result ≡ (both (one_type ty type.Int) (is_of type.Int (expr_view typed.now))).test }
{
    ty == Ty::Int && node_of(typed).ty == Ty::Int
}

/// `op=` with its right side. T15 comes where one of the two is no `Int`.
pub fn updated(
    at: At,
    place: TypedPath,
    operation: Arith,
    mark: Span,
    typed: TypedExpr,
) -> Result<Stated<'static>, TypeError>
    ensures { Says stated_view result (update at place operation mark (expr_view typed)) }
{
    holding(are_ints(place.at.ty, &typed), OPERANDS_DIFFER, at.span)?;
    Ok(plain(TypedStmt::Update(at, place, operation, mark, typed)))
}
