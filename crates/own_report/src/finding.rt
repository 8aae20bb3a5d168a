//! The lines of findings.

ghost use Rattle.std.specs.Prelude.{◌≡◌, ◌++◌, ◌<◌, IfOk, OnOk, length};
ghost use Rattle.own_tree.specs.TypedView.{program_view};
ghost use Rattle.own_table.specs.Table.{types_in};
ghost use Rattle.own_report.specs.Findings.{binding_text, finding_line, finding_lines, lines_of, place_text, property_text, way_text};
ghost use Rattle.own_report.specs.Place.{place_at};
ghost use Rattle.own_report.specs.Lines.{place_pair};
ghost use Rattle.own_report.specs.RuleTexts.{subject_text, text_by};

use crate::fields::property;
use crate::line::head;
use crate::places::Places;
use crate::rules::{RuleText, Subject, rule_text};
use own_shapes::FieldInfo;
use own_table::TypeTable;
use own_tree::{Binding, Bytes, Finding, Place, Row, Ty, Typed};
use std::alloc::{AllocError, Global};

/// Adds a stored property after a dot.
fn push_property(line: &mut Vec<u8>, property: &FieldInfo) -> Result<(), AllocError>
    ensures { OnOk result (line.new.items ≡ line.old.items ++ property_text property.now) }
{
    line.extend_from_slice(b".")?;
    line.extend_from_slice(property.name.as_slice())?;
    Ok(())
}

/// Adds the stored properties on a way from a type on, each after a dot.
#[tactic(auto, using(crate::proofs::Ways::way_on, crate::proofs::Ways::way_off))]
fn push_way(line: &mut Vec<u8>, table: &TypeTable, ty: Ty, fields: &[u32]) -> Result<(), AllocError>
    ensures { OnOk result (line.new.items ≡ line.old.items ++ way_text (types_in table.now) ty fields.now) }
{
    let mut ty = ty;
    for number in fields {
        match property(table, ty, *number) {
            Some(property) => {
                push_property(line, property)?;
                ty = property.ty;
            }
            None => return Ok(()),
        }
    }
    Ok(())
}

/// What the lines of findings are about.
#[derive(Drop)]
struct Report<'t> {
    file: &'t str,
    places: Places<'t>,
    bindings: &'t [Binding],
    table: &'t TypeTable,
}

impl<'t> Report<'t> {
    fn of(
        alloc: Global,
        file: &'t str,
        text: &'t [u8],
        typed: &'t Typed,
        table: &'t TypeTable,
    ) -> Result<Report<'t>, AllocError>
        ensures file { IfOk result (λ report. report.file.now ≡ file.entry.now) }
        ensures text { IfOk result (λ report. length text.entry.now < 4294967295 → report.places.text.now ≡ text.entry.now) }
        ensures bindings { IfOk result (λ report. report.bindings.now ≡ typed.entry.now.bindings) }
        ensures table { IfOk result (λ report. report.table.now ≡ table.entry.now) }
    {
        Ok(Report {
            file,
            places: Places::of(alloc, text)?,
            bindings: typed.bindings.as_slice(),
            table,
        })
    }

    /// Adds the name of a binding.
    fn push_binding(&self, line: &mut Vec<u8>, number: u32) -> Result<(), AllocError>
        ensures { OnOk result (line.new.items ≡ line.old.items ++ binding_text self.now.bindings.now number) }
    {
        if let Some(binding) = self.bindings.get(number as usize) {
            line.extend_from_slice(binding.name.as_slice())?;
        }
        Ok(())
    }

    /// Adds a place.
    fn push_place(&self, line: &mut Vec<u8>, place: &Place) -> Result<(), AllocError>
        ensures { OnOk result (line.new.items
            ≡ line.old.items ++ place_text (types_in self.now.table.now) self.now.bindings.now place.now) }
    {
        let Some(binding) = self.bindings.get(place.binding as usize) else {
            return Ok(());
        };
        line.extend_from_slice(binding.name.as_slice())?;
        push_way(line, self.table, binding.ty, place.fields.as_slice())
    }

    /// Adds what the text of a finding begins with.
    fn push_subject(
        &self,
        line: &mut Vec<u8>,
        subject: Subject,
        place: &Place,
    ) -> Result<(), AllocError>
        ensures { OnOk result (line.new.items ≡ line.old.items ++ subject_text subject
            (place_text (types_in self.now.table.now) self.now.bindings.now place.now)
            (binding_text self.now.bindings.now place.now.binding)) }
    {
        if subject == Subject::Nothing {
            return Ok(());
        }
        line.extend_from_slice(b"'")?;
        if subject == Subject::Place {
            self.push_place(line, place)?;
        } else {
            self.push_binding(line, place.binding)?;
        }
        line.extend_from_slice(b"'")?;
        Ok(())
    }

    /// Adds the text of a finding.
    fn push_text(
        &self,
        alloc: Global,
        line: &mut Vec<u8>,
        finding: &Finding,
        said: &RuleText,
    ) -> Result<(), AllocError>
        ensures { OnOk result (line.new.items ≡ line.old.items ++ text_by said.now
            (place_text (types_in self.now.table.now) self.now.bindings.now finding.now.place)
            (binding_text self.now.bindings.now finding.now.place.binding)
            (place_pair (place_at self.now.places.text.now finding.now.cause.start))) }
    {
        self.push_subject(line, said.subject, &finding.place)?;
        line.extend_from_slice(said.says.as_bytes())?;
        if said.names_cause {
            let cause = self.places.at(finding.cause.start).to_string(alloc)?;
            line.extend_from_slice(cause.as_bytes())?;
            line.extend_from_slice(said.ends.as_bytes())?;
        }
        Ok(())
    }

    /// Adds the line of a finding.
    fn push_finding(
        &self,
        alloc: Global,
        lines: &mut Vec<u8>,
        finding: &Finding,
    ) -> Result<(), AllocError>
        ensures { OnOk result (lines.new.items ≡ lines.old.items ++ finding_line self.now.file.now
            self.now.places.text.now (types_in self.now.table.now) self.now.bindings.now finding.now) }
    {
        let said = rule_text(finding.rule);
        let head = head(
            alloc,
            self.file,
            self.places.at(finding.span.start),
            said.code,
        )?;
        lines.extend_from_slice(head.as_bytes())?;
        self.push_text(alloc, lines, finding, &said)?;
        lines.extend_from_slice(b"\n")?;
        Ok(())
    }

    /// The lines of findings, in their order.
    fn lines(&self, alloc: Global, findings: &[Finding]) -> Result<Vec<u8>, AllocError>
        ensures { IfOk result (λ lines. lines.items ≡ lines_of self.now.file.now self.now.places.text.now
            (types_in self.now.table.now) self.now.bindings.now findings.now) }
    {
        let mut lines = Vec::new(alloc);
        for finding in findings {
            self.push_finding(alloc, &mut lines, finding)?;
        }
        Ok(lines)
    }
}

/// The lines of findings, in their order, each `FILE:L:C: error[RULE]: TEXT` and a newline. Line and column
/// are those of the start of its span, from 1, and its text names the place with its stored properties
/// and, where the rule has one, the line and the column of the cause. The text is the one that the program
/// and its table were made of. All places are found in one pass over it.
pub fn finding_lines(
    alloc: Global,
    file: &str,
    text: &[u8],
    typed: &Typed,
    table: &TypeTable,
    findings: &[Finding],
) -> Result<Bytes, AllocError>
    ensures { length text.now < 4294967295 → IfOk result (λ lines. lines
        ≡ finding_lines file.now text.now (types_in table.now) (program_view typed.now) findings.now) }
{
    let report = Report::of(alloc, file, text, typed, table)?;
    Ok(Row::from_vec(report.lines(alloc, findings)?))
}

/// The line of one finding, as `finding_lines` has it.
pub fn finding_text(
    alloc: Global,
    file: &str,
    text: &[u8],
    typed: &Typed,
    table: &TypeTable,
    finding: &Finding,
) -> Result<Bytes, AllocError>
    ensures { length text.now < 4294967295 → IfOk result (λ line. line
        ≡ finding_line file.now text.now (types_in table.now) typed.now.bindings finding.now) }
{
    let report = Report::of(alloc, file, text, typed, table)?;
    let mut line = Vec::new(alloc);
    report.push_finding(alloc, &mut line, finding)?;
    Ok(Row::from_vec(line))
}
