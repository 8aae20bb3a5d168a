//! Expressions in a short form: brackets round each operator with its parts, `x#` before the number of a binding with
//! the numbers of fields behind it, and each call by what it calls.

use crate::words::{
    comparison_word, logic_word, passing_word, put, put_bytes, put_count, put_truth, put_ty,
    trapping_word, wrapping_word,
};
use own_tree::typed::{At, Target, TypedExpr, TypedPath};
use own_tree::{Passing, Place};
use std::fmt::Write;

pub fn put_binding(out: &mut String, number: u32) {
    put(out, "x");
    put_count(out, number)
}

pub fn put_place(out: &mut String, place: &Place) {
    put_binding(out, place.binding);
    for field in place.fields.as_slice() {
        put(out, ".");
        put_count(out, *field);
    }
}

fn put_type(out: &mut String, at: At) {
    put(out, ":");
    put_ty(out, at.ty)
}

/// A place: behind fields stands its type.
fn put_path(out: &mut String, path: &TypedPath) {
    put_place(out, &path.place);
    if !path.place.fields.is_empty() {
        put_type(out, path.at);
    }
}

fn put_numbered(out: &mut String, word: &str, number: u32) {
    put(out, word);
    put_count(out, number)
}

/// A body and a type by their numbers, a case by those of its type and its own.
fn put_target(out: &mut String, target: Target) {
    match target {
        Target::Function(body) => put_numbered(out, "function ", body),
        Target::Method(body) => put_numbered(out, "method ", body),
        Target::Init(body) => put_numbered(out, "init ", body),
        Target::Memberwise(number) => put_numbered(out, "T", number),
        Target::Case(number, case) => {
            put_numbered(out, "T", number);
            put_numbered(out, ".", case)
        }
        Target::Closure(binding) => put_binding(out, binding),
        Target::Print => put(out, "print"),
        Target::ReadInt => put(out, "readInt"),
    }
}

#[cycle(shown)]
fn put_arguments(out: &mut String, arguments: &[TypedExpr], passings: &[Passing]) {
    put(out, "(");
    for number in 0..arguments.len() {
        if number > 0 {
            put(out, ", ");
        }
        match passings.get(number) {
            Some(passing) => put(out, passing_word(*passing)),
            None => put(out, "? "),
        }
        put_expression(out, &arguments[number]);
    }
    put(out, ")")
}

#[cycle(shown)]
pub fn put_expression(out: &mut String, e: &TypedExpr) {
    match e {
        TypedExpr::Number(_, number) => {
            let number = *number;
            let _ = write!(out, "{number}");
        }
        TypedExpr::Text(_, text) => {
            put(out, "'");
            put_bytes(out, text.as_slice());
            put(out, "'")
        }
        TypedExpr::Truth(_, truth) => put_truth(out, *truth),
        TypedExpr::Path(path) => put_path(out, path),
        TypedExpr::Parenthesized(_, inner) => {
            put(out, "(");
            put_expression(out, inner.get());
            put(out, ")")
        }
        TypedExpr::Consume(_, path) => {
            put(out, "consume ");
            put_place(out, &path.place)
        }
        TypedExpr::Negate(_, _, inner) => {
            put(out, "[-");
            put_expression(out, inner.get());
            put(out, "]")
        }
        TypedExpr::Not(_, inner) => {
            put(out, "[!");
            put_expression(out, inner.get());
            put(out, "]")
        }
        TypedExpr::Choice(at, condition, first, second) => {
            put(out, "[");
            put_expression(out, condition.get());
            put(out, " ? ");
            put_expression(out, first.get());
            put(out, " : ");
            put_expression(out, second.get());
            put(out, "]");
            put_type(out, *at)
        }
        TypedExpr::Member(at, inner, field) => {
            put_expression(out, inner.get());
            put_numbered(out, ".", *field);
            put_type(out, *at)
        }
        TypedExpr::Call(at, target, arguments, passings) => {
            put_target(out, *target);
            put_arguments(out, arguments.as_slice(), passings.as_slice());
            put_type(out, *at)
        }
        TypedExpr::Address(path) => {
            put(out, "&");
            put_place(out, &path.place)
        }
        TypedExpr::Closure(_, body) => put_numbered(out, "closure ", *body),
        TypedExpr::Function(_, binding) => put_binding(out, *binding),
        TypedExpr::Arithmetic(..)
        | TypedExpr::Wrapping(..)
        | TypedExpr::Compare(..)
        | TypedExpr::Logic(..) => put_operated(out, e),
    }
}

/// An operator with its parts.
#[cycle(shown)]
fn put_operated(out: &mut String, e: &TypedExpr) {
    put(out, "[");
    match e {
        TypedExpr::Arithmetic(_, operation, _, left, right) => {
            put_expression(out, left.get());
            put(out, trapping_word(*operation));
            put_expression(out, right.get())
        }
        TypedExpr::Wrapping(_, operation, left, right) => {
            put_expression(out, left.get());
            put(out, wrapping_word(*operation));
            put_expression(out, right.get())
        }
        TypedExpr::Compare(_, comparison, left, right) => {
            put_expression(out, left.get());
            put(out, comparison_word(*comparison));
            put_expression(out, right.get())
        }
        TypedExpr::Logic(_, logic, left, right) => {
            put_expression(out, left.get());
            put(out, logic_word(*logic));
            put_expression(out, right.get())
        }
        _ => {}
    }
    put(out, "]")
}
