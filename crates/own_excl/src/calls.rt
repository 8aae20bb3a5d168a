//! O10: conflicts of the accesses within one call.

ghost use Rattle.std.specs.Prelude.{◌≡◌, [], ◌∷◌, ◌++◌, if◌then◌else◌, OnOk, IfOk, map};
ghost use Rattle.own_tree.specs.TypedView.{exps_of, expr_view};
ghost use Rattle.own_paths.specs.Fixed.{only_borrows, conflict, conflicts_with, all_conflicts, broken, if_so};
ghost use Rattle.own_tree.specs.declared.finding.Rule.TheVariants as rule;
ghost use Rattle.own_within.specs.View.{exps_seen};
ghost use Rattle.own_excl.specs.Found.{is_claim, claim_of, changes_claim, arg_claims, args_found, call_found, calls_found};
ghost use Rattle.own_excl.specs.View.{access_view, accesses_view, change_view, changes_view, break_view, breaks_view, types_for, program_for};

use crate::access::Access;
use crate::breaks::Break;
use crate::change::Change;
use crate::places::overlaps;
use crate::walk::Walk;
use own_tree::typed::TypedExpr;
use own_tree::{OpKind, Passing, Rule};
use own_within::{first_passing, other_passings};
use std::alloc::AllocError;

/// Whether an access conflicts with one that is held: the places overlap, and one of the two is a change.
fn conflict(held: Access<'_>, later: Access<'_>) -> bool
    ensures { result ≡ conflict (access_view held.entry) (access_view later.entry) }
{
    overlaps(held.place, later.place) && (held.change || later.change)
}

/// Adds the conflict with what is held, if it is one.
fn push_conflict<'t>(
    breaks: &mut Vec<Break<'t>>,
    held: Access<'t>,
    later: Access<'t>,
) -> Result<(), AllocError>
    ensures { OnOk result (breaks_view breaks.new.items ≡ breaks_view breaks.old.items
        ++ if_so (conflict (access_view held.entry) (access_view later.entry))
        (broken rule.O10 later.entry.span (access_view later.entry).place held.entry.span)) }
{
    if conflict(held, later) {
        breaks.push(Break {
            rule: Rule::O10,
            span: later.span,
            place: later.place,
            cause: held.span,
        })?;
    }
    Ok(())
}

/// Adds those of an access with each that is held.
fn push_conflicts<'t>(
    breaks: &mut Vec<Break<'t>>,
    earlier: &[Access<'t>],
    later: Access<'t>,
) -> Result<(), AllocError>
    ensures { OnOk result (breaks_view breaks.new.items ≡ breaks_view breaks.old.items
        ++ conflicts_with (accesses_view earlier.now) (access_view later.entry)) }
{
    for held in earlier {
        push_conflict(breaks, *held, later)?;
    }
    Ok(())
}

/// Adds those of each of these.
fn push_all_conflicts<'t>(
    breaks: &mut Vec<Break<'t>>,
    earlier: &[Access<'t>],
    claims: &[Access<'t>],
) -> Result<(), AllocError>
    ensures { OnOk result (breaks_view breaks.new.items ≡ breaks_view breaks.old.items
        ++ all_conflicts (accesses_view earlier.now) (accesses_view claims.now)) }
{
    for later in claims {
        push_conflicts(breaks, earlier, *later)?;
    }
    Ok(())
}

/// Whether a change is one that an expression makes.
fn is_claim(kind: OpKind) -> bool
    ensures { result ≡ is_claim kind }
{
    matches!(kind, OpKind::Consume | OpKind::Inout | OpKind::Capture)
}

/// Adds the access that a change of an expression is.
fn push_claim<'t>(claims: &mut Vec<Access<'t>>, change: Change<'t>) -> Result<(), AllocError>
    ensures { OnOk result (accesses_view claims.new.items ≡ accesses_view claims.old.items
        ++ claim_of (change_view change.entry)) }
{
    if is_claim(change.kind) {
        claims.push(Access {
            change: true,
            place: change.place,
            span: change.span,
        })?;
    }
    Ok(())
}

/// Adds those of each of these.
fn push_claims<'t>(claims: &mut Vec<Access<'t>>, changes: &[Change<'t>]) -> Result<(), AllocError>
    ensures { OnOk result (accesses_view claims.new.items ≡ accesses_view claims.old.items
        ++ changes_claim (changes_view changes.now)) }
{
    for change in changes {
        push_claim(claims, *change)?;
    }
    Ok(())
}

/// Adds an access that borrows.
fn push_borrow<'t>(claims: &mut Vec<Access<'t>>, held: Access<'t>) -> Result<(), AllocError>
    ensures { OnOk result (accesses_view claims.new.items ≡ accesses_view claims.old.items
        ++ (if held.entry.change then [] else access_view held.entry ∷ [])) }
{
    if !held.change {
        claims.push(held)?;
    }
    Ok(())
}

/// Adds those that borrow.
fn push_borrows<'t>(claims: &mut Vec<Access<'t>>, held: &[Access<'t>]) -> Result<(), AllocError>
    ensures { OnOk result (accesses_view claims.new.items ≡ accesses_view claims.old.items
        ++ only_borrows (accesses_view held.now)) }
{
    for access in held {
        push_borrow(claims, *access)?;
    }
    Ok(())
}

impl<'t> Walk<'t> {
    /// What an argument, passed so, does to places that an earlier one may hold: what changes them while
    /// it is evaluated, and what it borrows.
    fn argument_claims(
        &self,
        argument: &'t TypedExpr,
        given: Passing,
    ) -> Result<Vec<Access<'t>>, AllocError>
        ensures { IfOk result (λ claims. accesses_view claims.items
            ≡ arg_claims (types_for self.now) (program_for self.now) given (expr_view argument.now)) }
    {
        let mut changes = Vec::new(self.alloc);
        self.push_expression(&mut changes, argument, given)?;
        let mut held = Vec::new(self.alloc);
        self.push_held(&mut held, argument, given)?;
        let mut claims = Vec::new(self.alloc);
        push_claims(&mut claims, changes.as_slice())?;
        push_borrows(&mut claims, held.as_slice())?;
        Ok(claims)
    }

    /// Adds the conflicts of an argument with what earlier ones hold.
    fn push_argument_conflicts(
        &self,
        breaks: &mut Vec<Break<'t>>,
        earlier: &[Access<'t>],
        argument: &'t TypedExpr,
        given: Passing,
    ) -> Result<(), AllocError>
        ensures { OnOk result (breaks_view breaks.new.items ≡ breaks_view breaks.old.items
            ++ all_conflicts (accesses_view earlier.now)
            (arg_claims (types_for self.now) (program_for self.now) given (expr_view argument.now))) }
    {
        // Where nothing is held, nothing is walked: calls in calls stay linear.
        if earlier.is_empty() {
            return Ok(());
        }
        let claims = self.argument_claims(argument, given)?;
        push_all_conflicts(breaks, earlier, claims.as_slice())
    }

    /// Adds the conflicts within a call.
    fn push_call(
        &self,
        breaks: &mut Vec<Break<'t>>,
        arguments: &'t [TypedExpr],
        passings: &[Passing],
    ) -> Result<(), AllocError>
        ensures { OnOk result (breaks_view breaks.new.items ≡ breaks_view breaks.old.items
            ++ args_found (types_for self.now) (program_for self.now) [] (exps_of (map expr_view arguments.now))
            passings.now) }
    {
        let mut earlier = Vec::new(self.alloc);
        let mut passings = passings;
        for argument in arguments {
            let given = first_passing(passings);
            self.push_argument_conflicts(breaks, earlier.as_slice(), argument, given)?;
            self.push_held(&mut earlier, argument, given)?;
            passings = other_passings(passings);
        }
        Ok(())
    }

    /// Adds those of an expression that is a call.
    fn push_calls_of(
        &self,
        breaks: &mut Vec<Break<'t>>,
        expr: &'t TypedExpr,
    ) -> Result<(), AllocError>
        ensures { OnOk result (breaks_view breaks.new.items ≡ breaks_view breaks.old.items
            ++ call_found (types_for self.now) (program_for self.now) (expr_view expr.now)) }
    {
        match expr {
            TypedExpr::Call(_, _, arguments, passings) => {
                self.push_call(breaks, arguments.as_slice(), passings.as_slice())
            }
            _ => Ok(()),
        }
    }

    /// Adds those of each of these.
    pub(crate) fn push_calls(
        &self,
        breaks: &mut Vec<Break<'t>>,
        exprs: &[&'t TypedExpr],
    ) -> Result<(), AllocError>
        ensures { OnOk result (breaks_view breaks.new.items ≡ breaks_view breaks.old.items
            ++ calls_found (types_for self.now) (program_for self.now) (exps_seen exprs.now)) }
    {
        for expr in exprs {
            self.push_calls_of(breaks, *expr)?;
        }
        Ok(())
    }
}
