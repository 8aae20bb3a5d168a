//! O7, O8 and O9, which a change breaks by the binding that it names.

ghost use Rattle.std.specs.Prelude.{◌≡◌, ◌&&◌, ◌++◌, not, Some, OnOk};
ghost use Rattle.own_paths.specs.Fixed.{is_borrowed, may_change, sets_property, breaks_O7, breaks_O8, breaks_O9, op_breaks, broken, if_so};
ghost use Rattle.own_excl.specs.Found.{is_capture, op_for, capture_found, change_found, changes_found};
ghost use Rattle.own_excl.specs.View.{place_view, change_view, changes_view, break_view, breaks_view, types_for, program_for};

use crate::breaks::Break;
use crate::change::Change;
use crate::leaves::{is_self_in_init, lies_in_leaf};
use crate::properties::passes_let;
use crate::walk::Walk;
use own_tree::{Binding, Mode, OpKind, Rule};
use std::alloc::AllocError;

/// Whether what a binding holds is not its own to give away: it is borrowed (SE-0377, SE-0432), or it is
/// `self` before `init` has given it out or while `deinit` ends it (SE-0390).
fn is_borrowed(mode: Mode) -> bool
    ensures { result ≡ is_borrowed mode }
{
    match mode {
        Mode::Borrowing
        | Mode::PatternBorrowed
        | Mode::SelfBorrowing
        | Mode::SelfInit
        | Mode::SelfDeinit => true,
        Mode::Let
        | Mode::Var
        | Mode::Plain
        | Mode::Consuming
        | Mode::Inout
        | Mode::Turn
        | Mode::PatternOwned
        | Mode::SelfConsuming
        | Mode::SelfMutating
        | Mode::Closure => false,
    }
}

/// Whether what a binding holds may be changed.
fn may_change(mode: Mode) -> bool
    ensures { result ≡ may_change mode }
{
    match mode {
        Mode::Var
        | Mode::Consuming
        | Mode::Inout
        | Mode::SelfConsuming
        | Mode::SelfMutating
        | Mode::SelfInit => true,
        Mode::Let
        | Mode::Plain
        | Mode::Borrowing
        | Mode::Turn
        | Mode::PatternOwned
        | Mode::PatternBorrowed
        | Mode::SelfBorrowing
        | Mode::SelfDeinit
        | Mode::Closure => false,
    }
}

/// Whether a change sets a stored property of `self` in `init`, of which O6 speaks.
fn sets_property(binding: &Binding, change: Change<'_>) -> bool
    ensures { result ≡ sets_property binding.now (op_for (change_view change.entry)) }
{
    change.kind == OpKind::Assign && is_self_in_init(binding.mode) && change.place.fields.len() == 1
}

/// Whether a change is a changing Capture of what cannot change.
fn captures_in_vain(binding: &Binding, change: Change<'_>) -> bool
    ensures { result ≡ (is_capture change.entry.kind && not (may_change binding.now.mode)) }
{
    change.kind == OpKind::Capture && !may_change(binding.mode)
}

/// Adds a break, if it is one.
fn push_if<'t>(
    breaks: &mut Vec<Break<'t>>,
    is_broken: bool,
    found: Break<'t>,
) -> Result<(), AllocError>
    ensures { OnOk result (breaks_view breaks.new.items ≡ breaks_view breaks.old.items ++ if_so is_broken (break_view found.entry)) }
{
    if is_broken {
        breaks.push(found)?;
    }
    Ok(())
}

/// The break of a rule by a change, whose cause is the declaration of the binding.
fn broken<'t>(rule: Rule, binding: &Binding, change: Change<'t>) -> Break<'t>
    ensures { break_view result ≡ broken rule change.entry.span (place_view change.entry.place) binding.now.span }
{
    Break {
        rule,
        span: change.span,
        place: change.place,
        cause: binding.span,
    }
}

impl<'t> Walk<'t> {
    /// A Consume of what is borrowed, or captured, or of a part of it.
    fn breaks_o7(&self, binding: &Binding, change: Change<'_>) -> bool
        ensures { result ≡ breaks_O7 (types_for self.now) self.now.body binding.now (op_for (change_view change.entry)) }
    {
        change.kind == OpKind::Consume && (is_borrowed(binding.mode) || binding.body != self.body)
    }

    /// A Consume of a part of a leaf (SE-0429).
    fn breaks_o8(&self, binding: &Binding, change: Change<'_>) -> bool
        ensures { result ≡ breaks_O8 (types_for self.now) self.now.body binding.now (op_for (change_view change.entry)) }
    {
        change.kind == OpKind::Consume && lies_in_leaf(self.table, binding, change.place)
    }

    /// An Assign or an Inout of what cannot change, by its binding or through a `let` property.
    fn breaks_o9(&self, binding: &Binding, change: Change<'_>) -> bool
        ensures { result ≡ breaks_O9 (types_for self.now) self.now.body binding.now (op_for (change_view change.entry)) }
    {
        matches!(change.kind, OpKind::Assign | OpKind::Inout)
            && (!may_change(binding.mode)
                || passes_let(self.table, binding.ty, change.place.fields)
                    && !sets_property(binding, change))
    }

    /// Adds the rules that a change of a binding breaks.
    fn push_broken(
        &self,
        breaks: &mut Vec<Break<'t>>,
        binding: &Binding,
        change: Change<'t>,
    ) -> Result<(), AllocError>
        ensures { OnOk result (breaks_view breaks.new.items ≡ breaks_view breaks.old.items
            ++ (op_breaks (types_for self.now) self.now.body (Some binding.now) (op_for (change_view change.entry))
            ++ capture_found (change_view change.entry) (Some binding.now))) }
    {
        let given_away = self.breaks_o7(binding, change);
        push_if(breaks, given_away, broken(Rule::O7, binding, change))?;
        let taken_out = self.breaks_o8(binding, change);
        push_if(breaks, taken_out, broken(Rule::O8, binding, change))?;
        let changed = self.breaks_o9(binding, change);
        push_if(breaks, changed, broken(Rule::O9, binding, change))?;
        let captured = captures_in_vain(binding, change);
        push_if(breaks, captured, broken(Rule::O9, binding, change))
    }

    /// Adds those that a change breaks.
    fn push_change(&self, breaks: &mut Vec<Break<'t>>, change: Change<'t>) -> Result<(), AllocError>
        ensures { OnOk result (breaks_view breaks.new.items ≡ breaks_view breaks.old.items
            ++ change_found (types_for self.now) (program_for self.now) self.now.body (change_view change.entry)) }
    {
        match self.typed.bindings.get(change.place.binding as usize) {
            Some(binding) => self.push_broken(breaks, binding, change),
            None => Ok(()),
        }
    }

    /// Adds those that each of these breaks.
    pub(crate) fn push_changes(
        &self,
        breaks: &mut Vec<Break<'t>>,
        changes: &[Change<'t>],
    ) -> Result<(), AllocError>
        ensures { OnOk result (breaks_view breaks.new.items ≡ breaks_view breaks.old.items
            ++ changes_found (types_for self.now) (program_for self.now) self.now.body (changes_view changes.now)) }
    {
        for change in changes {
            self.push_change(breaks, *change)?;
        }
        Ok(())
    }
}
