//! The search for the first form that is missing: a matrix of patterns is specialised column by column,
//! from left to right (L. Maranget, Warnings for pattern matching, 2007).

ghost use Rattle.std.specs.Prelude.{◌≡◌, true, IfOk, Some};
ghost use Rattle.own_tree.specs.TypedView.{pattern_view};
ghost use Rattle.own_table.specs.Table.{types_in, shape_in_table, IsTypeIn};
ghost use Rattle.own_shapes.specs.Types.{shapes_of};
ghost use Rattle.own_match.specs.declared.head.Head.TheVariants as head;
ghost use Rattle.own_match.specs.First.{case_with, form_before, least_of, first_form, first_forms};
ghost use Rattle.own_match.specs.Search.{narrowed, rising, led, gap_in_numbers, gap_in_truths, gap_columns};
ghost use Rattle.own_match.specs.View.{said_all, columns_held, form_held, forms_held, rest_of, gap_from, gap_in_case, AreTyped, IsCase};

use crate::column::{Column, is_mentioned, literals, narrowed, payload_columns};
use crate::found::{gap_at_end, gather, joined, put_first};
use crate::head::Head;
use crate::silent::one_is_silent;
use crate::values::all_have_values;
use own_table::{CaseInfo, TypeTable};
use own_tree::{TPattern, Ty};
use sqlite_items::Items;
use std::alloc::{AllocError, Global};

/// What the search goes by.
#[derive(Clone, Copy)]
pub struct Search<'t> {
    pub alloc: Global,
    pub table: &'t TypeTable,
}

/// The least number, or `_` where there is none.
fn least(numbers: &[i64]) -> TPattern
    ensures { pattern_view result ≡ least_of numbers.now }
{
    match numbers.first() {
        Some(number) => TPattern::Number(*number),
        None => TPattern::Any,
    }
}

impl Search<'_> {
    /// The first form of the type of a column, where it has a value and no live pattern says anything.
    #[cycle(first)]
    fn first_form(&self, column: &Column<'_>) -> Result<Option<TPattern>, AllocError>
        requires typed { IsTypeIn self.now.table.now column.now.ty }
        ensures { IfOk result (λ form. form_held form ≡ first_form (shape_in_table self.now.table.now column.now.ty) (said_all column.now.cells.items)) }
    {
        match column.ty {
            Ty::Int => {
                let numbers = literals(self.alloc, column.cells.as_slice())?;
                Ok(Some(least(numbers.as_slice())))
            }
            Ty::Bool => Ok(Some(TPattern::Truth(false))),
            Ty::Unit | Ty::Fun(_) => Ok(Some(TPattern::Any)),
            Ty::Named(_) => {
                if self.table.is_enum(column.ty) {
                    self.first_case(column)
                } else if self.table.has_value(column.ty) {
                    Ok(Some(TPattern::Any))
                } else {
                    Ok(None)
                }
            }
        }
    }

    /// That of an enum.
    #[cycle(first)]
    fn first_case(&self, column: &Column<'_>) -> Result<Option<TPattern>, AllocError>
        requires typed { IsTypeIn self.now.table.now column.now.ty }
        requires is_enum { (types_in self.now.table.now).is_enum column.now.ty ≡ true }
        ensures { IfOk result (λ form. form_held form ≡ first_form (shape_in_table self.now.table.now column.now.ty) (said_all column.now.cells.items)) }
    {
        for (at, info) in self.table.cases(column.ty).iter().enumerate() {
            if all_have_values(self.table, info.payloads.as_slice()) {
                let case = at as u32;
                if let Some(form) = self.first_of_case(case, info, column)? {
                    return Ok(Some(form));
                }
            }
        }
        Ok(None)
    }

    /// That of a case of an enum.
    #[cycle(first)]
    fn first_of_case(
        &self,
        case: u32,
        info: &CaseInfo,
        column: &Column<'_>,
    ) -> Result<Option<TPattern>, AllocError>
        requires typed { IsTypeIn self.now.table.now column.now.ty }
        requires case_is { IsCase self.now.table.now column.now.ty case info.now }
        ensures { IfOk result (λ form. form_held form
            ≡ case_with case (first_forms (shapes_of (shape_in_table self.now.table.now) info.now.payloads) case 0 (said_all column.now.cells.items))) }
    {
        let columns = payload_columns(
            self.alloc,
            self.table,
            info.payloads.as_slice(),
            case,
            column.cells.as_slice(),
        )?;
        let mut forms = Items::new(self.alloc);
        for column in columns.as_slice() {
            match self.first_form(column)? {
                Some(form) => forms.push(form)?,
                None => return Ok(None),
            }
        }
        Ok(Some(TPattern::Case(case, forms)))
    }

    /// That of a case which has a value, before forms that were found behind it.
    fn put_case(
        &self,
        case: u32,
        info: &CaseInfo,
        column: &Column<'_>,
        others: Vec<TPattern>,
    ) -> Result<Option<Vec<TPattern>>, AllocError>
        requires typed { IsTypeIn self.now.table.now column.now.ty }
        requires case_is { IsCase self.now.table.now column.now.ty case info.now }
        ensures { IfOk result (λ gap. forms_held gap
            ≡ form_before (case_with case (first_forms (shapes_of (shape_in_table self.now.table.now) info.now.payloads) case 0 (said_all column.now.cells.items))) (forms_held (Some others))) }
    {
        match self.first_of_case(case, info, column)? {
            Some(form) => put_first(form, others),
            None => Ok(None),
        }
    }

    /// The first forms of the columns that no live pattern matches. Where a live pattern says nothing at
    /// any of them there is none.
    #[cycle(gap)]
    pub fn first_gap(
        &self,
        todo: &[Column<'_>],
        live: &[bool],
    ) -> Result<Option<Vec<TPattern>>, AllocError>
        requires typed { AreTyped self.now.table.now todo.now }
        ensures { IfOk result (λ gap. forms_held gap ≡ gap_columns (columns_held (shape_in_table self.now.table.now) todo.now) live.now) }
    {
        match todo.split_first() {
            Some(_) if one_is_silent(self.table, todo, live) => Ok(None),
            Some((column, rest)) => self.gap_at(column, rest, live),
            None => Ok(gap_at_end(self.alloc, live)),
        }
    }

    /// That of a column and the rest.
    #[cycle(gap)]
    fn gap_at<'p>(
        &self,
        column: &Column<'p>,
        rest: &[Column<'p>],
        live: &[bool],
    ) -> Result<Option<Vec<TPattern>>, AllocError>
        requires typed { IsTypeIn self.now.table.now column.now.ty }
        requires rest_typed { AreTyped self.now.table.now rest.now }
        ensures { IfOk result (λ gap. forms_held gap
            ≡ gap_from (shape_in_table self.now.table.now) column.now rest.now live.now) }
    {
        match column.ty {
            Ty::Int => self.gap_in_numbers(column, rest, live),
            Ty::Bool => self.gap_in_truths(column, rest, live),
            Ty::Unit | Ty::Fun(_) => self.under(Head::Other, TPattern::Any, column, rest, live),
            Ty::Named(_) => {
                if self.table.is_enum(column.ty) {
                    self.gap_in_cases(column, rest, live)
                } else if self.table.has_value(column.ty) {
                    self.under(Head::Other, TPattern::Any, column, rest, live)
                } else {
                    Ok(None)
                }
            }
        }
    }

    /// That of numbers: the literals of the column in rising order, and then all others. Where a literal
    /// that no live pattern mentions has none, the patterns that say nothing of the column cover the rest.
    #[cycle(gap)]
    fn gap_in_numbers<'p>(
        &self,
        column: &Column<'p>,
        rest: &[Column<'p>],
        live: &[bool],
    ) -> Result<Option<Vec<TPattern>>, AllocError>
        requires rest_typed { AreTyped self.now.table.now rest.now }
        ensures { IfOk result (λ gap. forms_held gap
            ≡ gap_in_numbers (rising (said_all column.now.cells.items)) (said_all column.now.cells.items) (rest_of (shape_in_table self.now.table.now) rest.now) live.now) }
    {
        let numbers = literals(self.alloc, column.cells.as_slice())?;
        for number in numbers.as_slice() {
            let head = Head::Number(*number);
            if let Some(forms) = self.under(head, TPattern::Number(*number), column, rest, live)? {
                return Ok(Some(forms));
            }
            if !is_mentioned(live, column.cells.as_slice(), head) {
                return Ok(None);
            }
        }
        self.under(Head::Other, TPattern::Any, column, rest, live)
    }

    /// That of the two truths. Where `false` is not mentioned and has none, the patterns that say nothing
    /// of the column cover the rest.
    #[cycle(gap)]
    fn gap_in_truths<'p>(
        &self,
        column: &Column<'p>,
        rest: &[Column<'p>],
        live: &[bool],
    ) -> Result<Option<Vec<TPattern>>, AllocError>
        requires rest_typed { AreTyped self.now.table.now rest.now }
        ensures { IfOk result (λ gap. forms_held gap
            ≡ gap_in_truths (said_all column.now.cells.items) (rest_of (shape_in_table self.now.table.now) rest.now) live.now) }
    {
        if let Some(forms) = self.under(
            Head::Truth(false),
            TPattern::Truth(false),
            column,
            rest,
            live,
        )? {
            return Ok(Some(forms));
        }
        if !is_mentioned(live, column.cells.as_slice(), Head::Truth(false)) {
            return Ok(None);
        }
        self.under(Head::Truth(true), TPattern::Truth(true), column, rest, live)
    }

    /// That of the cases of an enum, in order of declaration.
    #[cycle(gap)]
    fn gap_in_cases<'p>(
        &self,
        column: &Column<'p>,
        rest: &[Column<'p>],
        live: &[bool],
    ) -> Result<Option<Vec<TPattern>>, AllocError>
        requires typed { IsTypeIn self.now.table.now column.now.ty }
        requires is_enum { (types_in self.now.table.now).is_enum column.now.ty ≡ true }
        requires rest_typed { AreTyped self.now.table.now rest.now }
        ensures { IfOk result (λ gap. forms_held gap
            ≡ gap_from (shape_in_table self.now.table.now) column.now rest.now live.now) }
    {
        for (at, info) in self.table.cases(column.ty).iter().enumerate() {
            if all_have_values(self.table, info.payloads.as_slice()) {
                let case = at as u32;
                if !is_mentioned(live, column.cells.as_slice(), Head::Case(case)) {
                    return self.gap_in_others(case, info, column, rest, live);
                }
                if let Some(forms) = self.under_case(case, info, column, rest, live)? {
                    return Ok(Some(forms));
                }
            }
        }
        Ok(None)
    }

    /// That of a case which has a value and which no live pattern mentions.
    #[cycle(gap)]
    fn gap_in_others<'p>(
        &self,
        case: u32,
        info: &CaseInfo,
        column: &Column<'p>,
        rest: &[Column<'p>],
        live: &[bool],
    ) -> Result<Option<Vec<TPattern>>, AllocError>
        requires typed { IsTypeIn self.now.table.now column.now.ty }
        requires case_is { IsCase self.now.table.now column.now.ty case info.now }
        requires rest_typed { AreTyped self.now.table.now rest.now }
        ensures { IfOk result (λ gap. forms_held gap
            ≡ form_before (case_with case (first_forms (shapes_of (shape_in_table self.now.table.now) info.now.payloads) case 0 (said_all column.now.cells.items)))
            (rest_of (shape_in_table self.now.table.now) rest.now (narrowed head.Other live.now (said_all column.now.cells.items)))) }
    {
        let silent = narrowed(self.alloc, live, column.cells.as_slice(), Head::Other)?;
        match self.first_gap(rest, silent.as_slice())? {
            Some(others) => self.put_case(case, info, column, others),
            None => Ok(None),
        }
    }

    /// That behind a value without payloads which begins so.
    #[cycle(gap)]
    fn under<'p>(
        &self,
        head: Head,
        form: TPattern,
        column: &Column<'p>,
        rest: &[Column<'p>],
        live: &[bool],
    ) -> Result<Option<Vec<TPattern>>, AllocError>
        requires rest_typed { AreTyped self.now.table.now rest.now }
        ensures { IfOk result (λ gap. forms_held gap
            ≡ led (pattern_view form) (rest_of (shape_in_table self.now.table.now) rest.now (narrowed head live.now (said_all column.now.cells.items)))) }
    {
        let left = narrowed(self.alloc, live, column.cells.as_slice(), head)?;
        match self.first_gap(rest, left.as_slice())? {
            Some(forms) => put_first(form, forms),
            None => Ok(None),
        }
    }

    /// That of a case with its payloads.
    #[cycle(gap)]
    fn under_case<'p>(
        &self,
        case: u32,
        info: &CaseInfo,
        column: &Column<'p>,
        rest: &[Column<'p>],
        live: &[bool],
    ) -> Result<Option<Vec<TPattern>>, AllocError>
        requires typed { IsTypeIn self.now.table.now column.now.ty }
        requires case_is { IsCase self.now.table.now column.now.ty case info.now }
        requires rest_typed { AreTyped self.now.table.now rest.now }
        ensures { IfOk result (λ gap. forms_held gap
            ≡ gap_in_case (shape_in_table self.now.table.now) case info.now column.now rest.now live.now) }
    {
        let cells = column.cells.as_slice();
        let left = narrowed(self.alloc, live, cells, Head::Case(case))?;
        let payloads = info.payloads.as_slice();
        let columns = payload_columns(self.alloc, self.table, payloads, case, cells)?;
        let todo = joined(self.alloc, columns, rest)?;
        match self.first_gap(todo.as_slice(), left.as_slice())? {
            Some(forms) => gather(case, payloads.len(), forms),
            None => Ok(None),
        }
    }
}
