//! Words for what has no parts.

use own_tree::tree::RangeOperator;
use own_tree::typed::{Comparison, Logic};
use own_tree::{Arith, Mode, Passing, Ty};
use std::fmt::Write;

/// Where memory is refused, the piece is left out.
pub fn put(out: &mut String, piece: &str) {
    let _ = out.push_str(piece);
}

pub fn put_bytes(out: &mut String, bytes: &[u8]) {
    match str::from_utf8(bytes) {
        Ok(text) => put(out, text),
        Err(_) => put(out, "not UTF-8"),
    }
}

pub fn put_count(out: &mut String, number: u32) {
    let _ = write!(out, "{number}");
}

pub fn put_numbers(out: &mut String, numbers: &[u32]) {
    for number in numbers {
        let number = *number;
        let _ = write!(out, " {number}");
    }
}

pub fn put_truth(out: &mut String, truth: bool) {
    put(out, if truth { "true" } else { "false" });
}

/// A declared type and a function type by their numbers.
pub fn put_ty(out: &mut String, ty: Ty) {
    match ty {
        Ty::Int => put(out, "Int"),
        Ty::Bool => put(out, "Bool"),
        Ty::Unit => put(out, "Unit"),
        Ty::Named(number) => {
            put(out, "T");
            put_count(out, number)
        }
        Ty::Fun(number) => {
            put(out, "F");
            put_count(out, number)
        }
    }
}

pub fn mode_word(mode: Mode) -> &'static str {
    match mode {
        Mode::Let => "let",
        Mode::Var => "var",
        Mode::Plain => "plain",
        Mode::Borrowing => "borrowing",
        Mode::Consuming => "consuming",
        Mode::Inout => "inout",
        Mode::Turn => "turn",
        Mode::PatternOwned => "owned",
        Mode::PatternBorrowed => "borrowed",
        Mode::Closure => "function",
        Mode::SelfBorrowing => "self borrowing",
        Mode::SelfConsuming => "self consuming",
        Mode::SelfMutating => "self mutating",
        Mode::SelfInit => "self init",
        Mode::SelfDeinit => "self deinit",
    }
}

/// What stands before an argument that is passed so.
pub fn passing_word(passing: Passing) -> &'static str {
    match passing {
        Passing::ByValue => "",
        Passing::Borrow => "borrow ",
        Passing::Inout => "inout ",
        Passing::Consume => "move ",
        Passing::Closure => "",
    }
}

pub fn trapping_word(operation: Arith) -> &'static str {
    match operation {
        Arith::Add => " + ",
        Arith::Sub => " - ",
        Arith::Mul => " * ",
        Arith::Div => " / ",
        Arith::Rem => " % ",
        Arith::Neg => " - ",
    }
}

pub fn wrapping_word(operation: Arith) -> &'static str {
    match operation {
        Arith::Add => " &+ ",
        Arith::Sub => " &- ",
        Arith::Mul => " &* ",
        Arith::Div => " &/ ",
        Arith::Rem => " &% ",
        Arith::Neg => " &- ",
    }
}

pub fn comparison_word(comparison: Comparison) -> &'static str {
    match comparison {
        Comparison::Equal => " == ",
        Comparison::Unequal => " != ",
        Comparison::Less => " < ",
        Comparison::LessEqual => " <= ",
        Comparison::Greater => " > ",
        Comparison::GreaterEqual => " >= ",
    }
}

pub fn logic_word(logic: Logic) -> &'static str {
    match logic {
        Logic::And => " && ",
        Logic::Or => " || ",
    }
}

pub fn range_word(operator: RangeOperator) -> &'static str {
    match operator {
        RangeOperator::HalfOpen => " ..< ",
        RangeOperator::Closed => " ... ",
    }
}
