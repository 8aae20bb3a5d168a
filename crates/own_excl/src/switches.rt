//! O11: changes within a `switch` to the place that it borrows.

ghost use Rattle.std.specs.Prelude.{◌≡◌, ◌++◌, OnOk, map};
ghost use Rattle.std.specs.Option.{option_copied};
ghost use Rattle.own_tree.specs.TypedView.{clauses_of, clause_view, expr_view, stmt_view};
ghost use Rattle.own_tree.specs.declared.finding.Rule.TheVariants as rule;
ghost use Rattle.own_paths.specs.Fixed.{broken, if_so};
ghost use Rattle.own_paths.specs.Within.{path_of};
ghost use Rattle.own_shapes.specs.Places.{overlaps};
ghost use Rattle.own_within.specs.View.{stms_seen};
ghost use Rattle.own_excl.specs.Found.{subject_found, clauses_found, switch_found, switches_found};
ghost use Rattle.own_excl.specs.View.{place_view, changes_view, breaks_view, types_for, program_for};

use crate::breaks::Break;
use crate::change::Change;
use crate::places::{PlaceRef, overlaps};
use crate::types::is_copyable;
use crate::walk::Walk;
use own_tree::Rule;
use own_tree::typed::{TypedClause, TypedPath, TypedStmt};
use own_within::path_of;
use std::alloc::AllocError;

/// Adds a change of the subject, if it is one.
fn push_if_within<'t>(
    breaks: &mut Vec<Break<'t>>,
    subject: &TypedPath,
    change: Change<'t>,
) -> Result<(), AllocError>
    ensures { OnOk result (breaks_view breaks.new.items ≡ breaks_view breaks.old.items
        ++ if_so (overlaps (place_view change.entry.place) subject.now.place)
        (broken rule.O11 change.entry.span (place_view change.entry.place) subject.now.at.span)) }
{
    let place = PlaceRef {
        binding: subject.place.binding,
        fields: subject.place.fields.as_slice(),
    };
    if overlaps(change.place, place) {
        breaks.push(Break {
            rule: Rule::O11,
            span: change.span,
            place: change.place,
            cause: subject.at.span,
        })?;
    }
    Ok(())
}

/// Adds those of these that are.
fn push_within<'t>(
    breaks: &mut Vec<Break<'t>>,
    subject: &TypedPath,
    changes: &[Change<'t>],
) -> Result<(), AllocError>
    ensures { OnOk result (breaks_view breaks.new.items
        ≡ breaks_view breaks.old.items ++ subject_found subject.now (changes_view changes.now)) }
{
    for change in changes {
        push_if_within(breaks, subject, *change)?;
    }
    Ok(())
}

impl<'t> Walk<'t> {
    /// Adds the changes of a subject, which a `switch` borrows if it is a plain path of noncopyable type
    /// (SE-0432).
    fn push_clauses_of(
        &self,
        breaks: &mut Vec<Break<'t>>,
        subject: Option<&TypedPath>,
        clauses: &'t [TypedClause],
    ) -> Result<(), AllocError>
        ensures { OnOk result (breaks_view breaks.new.items ≡ breaks_view breaks.old.items
            ++ clauses_found (types_for self.now) (program_for self.now) (option_copied subject.entry)
            (clauses_of (map clause_view clauses.now))) }
    {
        match subject {
            Some(path) if !is_copyable(self.table, path.at.ty) => {
                let mut changes = Vec::new(self.alloc);
                self.push_clauses(&mut changes, clauses)?;
                push_within(breaks, path, changes.as_slice())
            }
            _ => Ok(()),
        }
    }

    /// Adds those of a statement that is a `switch`.
    fn push_switch(
        &self,
        breaks: &mut Vec<Break<'t>>,
        statement: &'t TypedStmt,
    ) -> Result<(), AllocError>
        ensures { OnOk result (breaks_view breaks.new.items ≡ breaks_view breaks.old.items
            ++ switch_found (types_for self.now) (program_for self.now) (stmt_view statement.now)) }
    {
        match statement {
            TypedStmt::Switch(_, subject, clauses) => {
                self.push_clauses_of(breaks, path_of(subject), clauses.as_slice())
            }
            _ => Ok(()),
        }
    }

    /// Adds those of each of these.
    pub(crate) fn push_switches(
        &self,
        breaks: &mut Vec<Break<'t>>,
        statements: &[&'t TypedStmt],
    ) -> Result<(), AllocError>
        ensures { OnOk result (breaks_view breaks.new.items ≡ breaks_view breaks.old.items
            ++ switches_found (types_for self.now) (program_for self.now) (stms_seen statements.now)) }
    {
        for statement in statements {
            self.push_switch(breaks, *statement)?;
        }
        Ok(())
    }
}
