//! What is noted of the parts of bodies.

ghost use Rattle.std.specs.Prelude.{◌≡◌, ◌++◌, OnOk, map, suc};
ghost use Rattle.own_tree.specs.View.{args_of, stms_of, let_pats_of, pats_of, argument_view, expr_view, stmt_view, pattern_view, let_pattern_view, closure_view};
ghost use Rattle.own_survey.specs.Judgements.{notes, type_fault};
ghost use Rattle.own_survey.specs.Names.{written_in};
ghost use Rattle.own_survey.specs.Parts.{arg_count, print_call, written_part, closure_names, bound_name, one_name, local_name, local_names, pat_names, all_pat_names, let_names, all_let_names};
ghost use Rattle.own_survey.specs.Walks.{scope_walk, pats_walk, closure_head_walk};

use crate::names::TypeNames;
use crate::scopes::first_repeated;
use crate::survey::{Fault, Judgement, Survey, Written};
use own_tree::Span;
use own_tree::tree::{Argument, Closure, ClosureName, Expr, LetPattern, Name, Pattern, Root, Stmt};
use std::alloc::{AllocError, Global};

/// What is false of a written type name.
pub(crate) fn unknown_type(written: Written, at: Span) -> Option<Fault>
    ensures { result ≡ type_fault written at }
{
    match written {
        Written::Unknown => Some(Fault {
            judgement: Judgement::KnownType,
            at,
        }),
        Written::Copyable | Written::Noncopyable => None,
    }
}

/// The type that a `let` or `var` writes.
pub(crate) fn note_written(names: &TypeNames, survey: &mut Survey, written: &Option<Name>)
    ensures { survey.new ≡ notes (written_in names.now) survey.old (written_part written.now) }
{
    if let Some(name) = written {
        survey.note_fault(unknown_type(names.written(name.text.as_slice()), name.span));
    }
}

/// The word `print` of a call, with the number of its items.
pub(crate) fn note_print(names: &TypeNames, survey: &mut Survey, callee: &Expr, items: usize)
    ensures { survey.new ≡ notes (written_in names.now) survey.old (print_call (expr_view callee.now) items) }
{
    if let Expr::Path(path) = callee {
        if let Root::Named(name) = &path.root {
            if path.fields.is_empty() && name.text.as_slice() == b"print".as_slice() {
                survey.note_taken(items, path.span);
            }
        }
    }
}

/// A call that is written with these arguments.
#[tactic(auto, using(crate::proofs::Walked::arg_count_is))]
pub(crate) fn note_call(
    names: &TypeNames,
    survey: &mut Survey,
    callee: &Expr,
    arguments: &[Argument],
)
    ensures { survey.new ≡ notes (written_in names.now) survey.old (print_call (expr_view callee.now) (arg_count (args_of (map argument_view arguments.now)))) }
{
    note_print(names, survey, callee, arguments.len());
}

/// A call that is written with these arguments and a closure after them.
#[tactic(auto, using(crate::proofs::Walked::arg_count_is))]
pub(crate) fn note_closing_call(
    names: &TypeNames,
    survey: &mut Survey,
    callee: &Expr,
    arguments: &[Argument],
)
    ensures { survey.new ≡ notes (written_in names.now) survey.old (print_call (expr_view callee.now) (suc (arg_count (args_of (map argument_view arguments.now))))) }
{
    note_print(names, survey, callee, arguments.len() + 1);
}

/// Names that have to be different.
pub(crate) fn note_scope(
    alloc: Global,
    survey: &mut Survey,
    names: &[&Name],
) -> Result<(), AllocError>
    ensures { OnOk result (survey.new ≡ scope_walk (map (λ n. n.now) names.now) survey.old) }
{
    if let Some(at) = first_repeated(alloc, names)? {
        survey.note_fault(Some(Fault {
            judgement: Judgement::DifferentNames,
            at,
        }));
    }
    Ok(())
}

/// The name that a statement declares in its own scope.
fn push_local<'t>(names: &mut Vec<&'t Name>, statement: &'t Stmt) -> Result<(), AllocError>
    ensures { OnOk result (map (λ n. n.now) names.new.items ≡ map (λ n. n.now) names.old.items ++ local_name (stmt_view statement.now)) }
{
    match statement {
        Stmt::Let(_, _, name, _, _) => {
            names.push(name)?;
            Ok(())
        }
        Stmt::Declare(_, _, Some(name), _) => {
            names.push(name)?;
            Ok(())
        }
        _ => Ok(()),
    }
}

/// The names that statements declare are a scope.
#[tactic(auto, using(crate::proofs::Walked::next_local))]
pub(crate) fn note_locals(
    alloc: Global,
    survey: &mut Survey,
    statements: &[Stmt],
) -> Result<(), AllocError>
    ensures { OnOk result (survey.new ≡ scope_walk (local_names (stms_of (map stmt_view statements.now))) survey.old) }
{
    let mut names = Vec::new(alloc);
    for statement in statements {
        push_local(&mut names, statement)?;
    }
    note_scope(alloc, survey, &names)
}

/// A name before the `in` of a closure, unless it is `_`.
fn push_written<'t>(names: &mut Vec<&'t Name>, written: &'t ClosureName) -> Result<(), AllocError>
    ensures { OnOk result (map (λ n. n.now) names.new.items ≡ map (λ n. n.now) names.old.items ++ bound_name written.now) }
{
    match written {
        ClosureName::Bind(name) => {
            names.push(name)?;
            Ok(())
        }
        ClosureName::Any(_) => Ok(()),
    }
}

/// The names before the `in` of a closure.
#[tactic(auto, using(crate::proofs::Walked::next_written))]
fn note_closure_names(
    alloc: Global,
    survey: &mut Survey,
    written: &[ClosureName],
) -> Result<(), AllocError>
    ensures { OnOk result (survey.new ≡ scope_walk (closure_names written.now) survey.old) }
{
    let mut names = Vec::new(alloc);
    for written_name in written {
        push_written(&mut names, written_name)?;
    }
    note_scope(alloc, survey, &names)
}

/// A closure is a body, and its names are a scope.
pub(crate) fn note_closure(
    alloc: Global,
    survey: &mut Survey,
    closure: &Closure,
) -> Result<(), AllocError>
    ensures { OnOk result (survey.new ≡ closure_head_walk (closure_view closure.now) survey.old) }
{
    let at = Span {
        start: closure.span.start,
        end: closure.span.start.saturating_add(1).min(closure.span.end),
    };
    survey.note_body(at);
    survey.note_taken(closure.names.len(), at);
    note_closure_names(alloc, survey, closure.names.as_slice())
}

/// What a pattern after `let` binds.
#[cycle(let_names)]
fn push_let_names<'t>(names: &mut Vec<&'t Name>, pattern: &'t LetPattern) -> Result<(), AllocError>
    ensures { OnOk result (map (λ n. n.now) names.new.items ≡ map (λ n. n.now) names.old.items ++ let_names (let_pattern_view pattern.now)) }
{
    match pattern {
        LetPattern::Bind(name) => {
            names.push(name)?;
            Ok(())
        }
        LetPattern::Case(_, _, parts) => push_let_parts(names, parts.as_slice()),
        LetPattern::Any(_) | LetPattern::Number(..) | LetPattern::Truth(..) => Ok(()),
    }
}

/// What the parts of a case after `let` bind.
#[cycle(let_names)]
#[tactic(auto, using(crate::proofs::Walked::next_let))]
fn push_let_parts<'t>(names: &mut Vec<&'t Name>, parts: &'t [LetPattern]) -> Result<(), AllocError>
    ensures { OnOk result (map (λ n. n.now) names.new.items ≡ map (λ n. n.now) names.old.items ++ all_let_names (let_pats_of (map let_pattern_view parts.now))) }
{
    for part in parts {
        push_let_names(names, part)?;
    }
    Ok(())
}

/// What a pattern binds.
#[cycle(names)]
fn push_names<'t>(names: &mut Vec<&'t Name>, pattern: &'t Pattern) -> Result<(), AllocError>
    ensures { OnOk result (map (λ n. n.now) names.new.items ≡ map (λ n. n.now) names.old.items ++ pat_names (pattern_view pattern.now)) }
{
    match pattern {
        Pattern::Bind(_, name) => {
            names.push(name)?;
            Ok(())
        }
        Pattern::BindCase(_, bound) => push_let_names(names, bound),
        Pattern::Case(_, _, parts) => push_parts(names, parts.as_slice()),
        Pattern::Any(_) | Pattern::Number(..) | Pattern::Truth(..) => Ok(()),
    }
}

/// What the parts of a case bind.
#[cycle(names)]
#[tactic(auto, using(crate::proofs::Walked::next_part))]
fn push_parts<'t>(names: &mut Vec<&'t Name>, parts: &'t [Pattern]) -> Result<(), AllocError>
    ensures { OnOk result (map (λ n. n.now) names.new.items ≡ map (λ n. n.now) names.old.items ++ all_pat_names (pats_of (map pattern_view parts.now))) }
{
    for part in parts {
        push_names(names, part)?;
    }
    Ok(())
}

/// The names of a pattern are a scope.
pub(crate) fn note_pattern(
    alloc: Global,
    survey: &mut Survey,
    pattern: &Pattern,
) -> Result<(), AllocError>
    ensures { OnOk result (survey.new ≡ scope_walk (pat_names (pattern_view pattern.now)) survey.old) }
{
    let mut names = Vec::new(alloc);
    push_names(&mut names, pattern)?;
    note_scope(alloc, survey, &names)
}

/// The names of each pattern of a clause are a scope.
pub(crate) fn note_patterns(
    alloc: Global,
    survey: &mut Survey,
    patterns: &[Pattern],
) -> Result<(), AllocError>
    ensures { OnOk result (survey.new ≡ pats_walk (pats_of (map pattern_view patterns.now)) survey.old) }
{
    for pattern in patterns {
        note_pattern(alloc, survey, pattern)?;
    }
    Ok(())
}
