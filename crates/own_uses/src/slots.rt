//! M9: the slots of a body.

ghost use Rattle.std.specs.Prelude.{◌≡◌, IfOk, map};
ghost use Rattle.own_tree.specs.TypedView.{exps_of, expr_view, stmt_view, body_view};
ghost use Rattle.own_paths.specs.BodyLimits.{binding_slots, is_kept, bindings_slots, waiting_slots, arguments_slots, exp_slots, exps_slots, stm_slots, stms_slots, body_slots};
ghost use Rattle.own_uses.specs.Building.{types_for, program_for};
ghost use Rattle.own_uses.specs.Saturating.{held};
ghost use Rattle.own_uses.specs.Slots.{own_slots, argument_slots};
ghost use Rattle.own_within.specs.View.{exps_seen, stms_seen};

use crate::builder::Builder;
use crate::types::{is_copyable, slots_of};
use own_tree::typed::{Body, Target, TypedExpr, TypedStmt};
use own_tree::{Binding, Mode, Passing};
use own_within::{captures, expressions_of, first_passing, node_of, other_passings, statements_in};
use std::alloc::AllocError;

/// Of a binding: those of its type where the body owns it, one address where it is borrowed or `inout`,
/// and two words for a parameter of function type.
fn binding_slots(mode: Mode, own: u32) -> u32
    ensures { result ≡ binding_slots mode own }
{
    match mode {
        Mode::Let
        | Mode::Var
        | Mode::Plain
        | Mode::Consuming
        | Mode::Turn
        | Mode::PatternOwned
        | Mode::SelfConsuming
        | Mode::SelfInit => own,
        Mode::Borrowing
        | Mode::Inout
        | Mode::PatternBorrowed
        | Mode::SelfBorrowing
        | Mode::SelfMutating
        | Mode::SelfDeinit => 1,
        Mode::Closure => 2,
    }
}

/// Whether an argument that is passed so waits in the frame for later ones.
fn is_kept(passing: Passing) -> bool
    ensures { result ≡ is_kept passing }
{
    matches!(passing, Passing::ByValue | Passing::Consume)
}

impl Builder<'_> {
    /// Of a binding, if the body of that number declares it.
    fn own_slots(&self, number: u32, binding: &Binding) -> u32
        ensures { result ≡ own_slots (types_for self.now) (program_for self.now) number binding.now }
    {
        if binding.body == number {
            binding_slots(binding.mode, slots_of(self.table, binding.ty))
        } else {
            0
        }
    }

    /// Of the bindings that a body declares.
    fn bindings_slots(&self, number: u32, bindings: &[Binding]) -> u64
        ensures { result ≡ held (bindings_slots (types_for self.now) (program_for self.now) number bindings.now) }
    {
        let mut sum = 0u64;
        for binding in bindings {
            sum = sum.saturating_add(self.own_slots(number, binding) as u64);
        }
        sum
    }

    /// Of an argument that is passed so, before later ones.
    fn argument_slots(&self, argument: &TypedExpr, passing: Passing, later: &[TypedExpr]) -> u32
        ensures { result ≡ argument_slots (types_for self.now) (program_for self.now) (expr_view argument.now) passing
            (exps_of (map expr_view later.now)) }
    {
        match later.split_first() {
            None => 0,
            Some(_) => {
                if is_kept(passing) {
                    slots_of(self.table, node_of(argument).ty)
                } else {
                    0
                }
            }
        }
    }

    /// Of the arguments that wait for later ones, which are all that are passed by value or consumed but
    /// the last.
    fn waiting_slots(&self, arguments: &[TypedExpr], passings: &[Passing]) -> u64
        ensures { result ≡ held (waiting_slots (types_for self.now) (program_for self.now)
            (exps_of (map expr_view arguments.now)) passings.now) }
    {
        let mut sum = 0u64;
        let mut left = arguments;
        let mut passings = passings;
        while let Some((argument, later)) = left.split_first() {
            let slots = self.argument_slots(argument, first_passing(passings), later);
            sum = sum.saturating_add(slots as u64);
            left = later;
            passings = other_passings(passings);
        }
        sum
    }

    /// Of the arguments of a call. The items of `print` are written one by one.
    fn arguments_slots(&self, target: Target, arguments: &[TypedExpr], passings: &[Passing]) -> u64
        ensures { result ≡ held (arguments_slots (types_for self.now) (program_for self.now) target
            (exps_of (map expr_view arguments.now)) passings.now) }
    {
        match target {
            Target::Print => 0,
            _ => self.waiting_slots(arguments, passings),
        }
    }

    /// Of an expression by itself: the value of a call, a construction, a `consume` or a `?:`, and what a
    /// closure literal captures.
    fn expression_slots(&self, expr: &TypedExpr) -> Result<u64, AllocError>
        ensures { IfOk result (λ n. n
            ≡ held (exp_slots (types_for self.now) (program_for self.now) (expr_view expr.now))) }
    {
        match expr {
            TypedExpr::Call(at, target, arguments, passings) => {
                let own = slots_of(self.table, at.ty) as u64;
                let arguments = arguments.as_slice();
                Ok(own.saturating_add(self.arguments_slots(
                    *target,
                    arguments,
                    passings.as_slice(),
                )))
            }
            TypedExpr::Consume(at, _) | TypedExpr::Choice(at, _, _, _) => {
                Ok(slots_of(self.table, at.ty) as u64)
            }
            TypedExpr::Closure(_, body) => {
                let captured = captures(self.alloc, self.typed, *body)?;
                Ok((captured.len() as u64).saturating_add(1))
            }
            _ => Ok(0),
        }
    }

    /// Of expressions, each by itself.
    fn expressions_slots(&self, exprs: &[&TypedExpr]) -> Result<u64, AllocError>
        ensures { IfOk result (λ n. n
            ≡ held (exps_slots (types_for self.now) (program_for self.now) (exps_seen exprs.now))) }
    {
        let mut sum = 0u64;
        for expr in exprs {
            sum = sum.saturating_add(self.expression_slots(*expr)?);
        }
        Ok(sum)
    }

    /// Of a statement by itself: the bound and the turn of a `for`, and the copyable subject of a
    /// `switch`.
    fn statement_slots(&self, statement: &TypedStmt) -> u32
        ensures { result ≡ stm_slots (types_for self.now) (program_for self.now) (stmt_view statement.now) }
    {
        match statement {
            TypedStmt::For(..) => 2,
            TypedStmt::Switch(_, subject, _) => {
                let ty = node_of(subject).ty;
                if is_copyable(self.table, ty) {
                    slots_of(self.table, ty)
                } else {
                    0
                }
            }
            _ => 0,
        }
    }

    /// Of statements, each by itself.
    fn statements_slots(&self, statements: &[&TypedStmt]) -> u64
        ensures { result ≡ held (stms_slots (types_for self.now) (program_for self.now) (stms_seen statements.now)) }
    {
        let mut sum = 0u64;
        for statement in statements {
            sum = sum.saturating_add(self.statement_slots(*statement) as u64);
        }
        sum
    }

    /// The slots of the body of that number.
    pub(crate) fn body_slots(&self, number: u32, body: &Body) -> Result<u64, AllocError>
        ensures { IfOk result (λ n. n ≡ held (body_slots (types_for self.now) (program_for self.now) number
            (body_view body.now))) }
    {
        let statements = statements_in(self.alloc, &body.block)?;
        let exprs = expressions_of(self.alloc, statements.as_slice())?;
        let of_bindings = self.bindings_slots(number, self.typed.bindings.as_slice());
        let of_statements = self.statements_slots(statements.as_slice());
        let of_exprs = self.expressions_slots(exprs.as_slice())?;
        Ok(
            of_bindings
                .saturating_add(of_statements)
                .saturating_add(of_exprs),
        )
    }
}
