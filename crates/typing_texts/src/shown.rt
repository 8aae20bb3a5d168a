//! A typed program, or why there is none, in one line.

use crate::statements::put_block;
use crate::words::{mode_word, put, put_bytes, put_count, put_numbers, put_ty};
use own_tree::typed::{Body, BodyKind};
use own_tree::{Binding, Span, Typed};
use own_typing::TypeError;
use std::fmt::Write;

fn put_kind(out: &mut String, kind: BodyKind) {
    match kind {
        BodyKind::Function => put(out, "func"),
        BodyKind::Method => put(out, "method"),
        BodyKind::Initializer => put(out, "init"),
        BodyKind::Deinitializer => put(out, "deinit"),
        BodyKind::Closure(outer) => {
            put(out, "closure in ");
            put_count(out, outer)
        }
    }
}

/// A body: its number, its kind, the type that owns it, the numbers of its parameters, its result and its block.
fn put_body(out: &mut String, number: u32, body: &Body) {
    put_count(out, number);
    put(out, " ");
    put_kind(out, body.kind);
    if let Some(owner) = body.owner {
        put(out, " of T");
        put_count(out, owner);
    }
    put(out, " (");
    put_numbers(out, body.params.as_slice());
    put(out, " ) -> ");
    put_ty(out, body.result);
    put(out, if body.discards { " discards" } else { "" });
    put_block(out, &body.block)
}

/// A binding: its number, its name, its type, how it is bound and its body.
fn put_bound(out: &mut String, number: u32, binding: &Binding) {
    put(out, "x");
    put_count(out, number);
    put(out, " ");
    put_bytes(out, binding.name.as_slice());
    put(out, ": ");
    put_ty(out, binding.ty);
    put(out, " ");
    put(out, mode_word(binding.mode));
    put(out, " in ");
    put_count(out, binding.body)
}

/// The bodies of a program, and then its bindings.
pub fn put_program(out: &mut String, typed: &Typed) {
    put(out, "main ");
    put_count(out, typed.main);
    let mut number = 0;
    for body in typed.bodies.as_slice() {
        put(out, " / ");
        put_body(out, number, body);
        number = number.saturating_add(1);
    }
    put(out, " //");
    number = 0;
    for binding in typed.bindings.as_slice() {
        put(out, if number > 0 { "; " } else { " " });
        put_bound(out, number, binding);
        number = number.saturating_add(1);
    }
}

/// The byte where a judgement is named, and what stands there.
fn put_at(out: &mut String, text: &str, at: Span) {
    let start = at.start;
    let _ = write!(out, " at {start} ");
    match text.as_bytes().get(at.start as usize..at.end as usize) {
        Some(word) => put_bytes(out, word),
        None => put(out, "outside"),
    }
}

/// A judgement that is false, at its place.
pub fn put_refused(out: &mut String, before: &str, code: u8, text: &str, at: Span) {
    put(out, before);
    let _ = write!(out, "T{code:02}");
    put_at(out, text, at)
}

/// Why there is no typing.
pub fn put_refusal(out: &mut String, text: &str, refused: TypeError) {
    match refused {
        TypeError::BadType { code, at } => put_refused(out, "", code, text, at),
        TypeError::Uncovered { at, form } => {
            put_refused(out, "", 20, text, at);
            put(out, " without ");
            put_bytes(out, form.as_slice())
        }
        TypeError::Memory => put(out, "memory"),
    }
}
