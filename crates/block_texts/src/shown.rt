//! Trees in a short form: parentheses round each operator with its parts, brackets for parentheses.

use own_tree::Span;
use own_tree::tree::{
    Argument, AssignOperator, BinaryOperator, Block, Clause, Closure, ClosureName, Expr, Head,
    Keyword, LetPattern, Name, Passed, Path, Pattern, PrefixOperator, RangeOperator, Root, Stmt,
};
use std::fmt::Write;

/// Where memory is refused, the piece is left out.
fn put(out: &mut String, piece: &str) {
    let _ = out.push_str(piece);
}

fn put_truth(out: &mut String, truth: bool) {
    put(out, if truth { "true" } else { "false" });
}

fn put_bytes(out: &mut String, bytes: &[u8]) {
    match str::from_utf8(bytes) {
        Ok(text) => put(out, text),
        Err(_) => put(out, "not UTF-8"),
    }
}

fn put_name(out: &mut String, name: &Name) {
    put_bytes(out, name.text.as_slice())
}

fn put_optional(out: &mut String, name: &Option<Name>) {
    match name {
        Some(name) => put_name(out, name),
        None => put(out, "_"),
    }
}

/// A name of a closure: a `_` with the bytes where it stands.
fn put_closure_name(out: &mut String, name: &ClosureName) {
    match name {
        ClosureName::Any(Span { start, end }) => {
            let _ = write!(out, "_[{start}..{end}]");
        }
        ClosureName::Bind(name) => put_name(out, name),
    }
}

fn put_number(out: &mut String, negative: bool, number: u64) {
    if negative {
        put(out, "-");
    }
    let _ = write!(out, "{number}");
}

fn put_path(out: &mut String, path: &Path) {
    match &path.root {
        Root::Named(name) => put_name(out, name),
        Root::SelfWord(_) => put(out, "self"),
    }
    for field in path.fields.as_slice() {
        put(out, ".");
        put_name(out, field);
    }
}

fn sign(operator: PrefixOperator) -> &'static str {
    match operator {
        PrefixOperator::Minus => "-",
        PrefixOperator::Not => "!",
    }
}

fn mark(operator: BinaryOperator) -> &'static str {
    match operator {
        BinaryOperator::Or => " || ",
        BinaryOperator::And => " && ",
        BinaryOperator::Equal => " == ",
        BinaryOperator::Unequal => " != ",
        BinaryOperator::Less => " < ",
        BinaryOperator::LessEqual => " <= ",
        BinaryOperator::Greater => " > ",
        BinaryOperator::GreaterEqual => " >= ",
        BinaryOperator::Plus => " + ",
        BinaryOperator::Minus => " - ",
        BinaryOperator::PlusWrapping => " &+ ",
        BinaryOperator::MinusWrapping => " &- ",
        BinaryOperator::Times => " * ",
        BinaryOperator::Divide => " / ",
        BinaryOperator::Remainder => " % ",
        BinaryOperator::TimesWrapping => " &* ",
    }
}

fn assigning(operator: AssignOperator) -> &'static str {
    match operator {
        AssignOperator::Plain => " = ",
        AssignOperator::Plus => " += ",
        AssignOperator::Minus => " -= ",
        AssignOperator::Times => " *= ",
        AssignOperator::Divide => " /= ",
        AssignOperator::Remainder => " %= ",
    }
}

fn range(operator: RangeOperator) -> &'static str {
    match operator {
        RangeOperator::HalfOpen => " ..< ",
        RangeOperator::Closed => " ... ",
    }
}

fn keyword(word: Keyword) -> &'static str {
    match word {
        Keyword::Let => "let ",
        Keyword::Var => "var ",
    }
}

fn put_written(out: &mut String, written: &Option<Name>) {
    if let Some(name) = written {
        put(out, ": ");
        put_name(out, name);
    }
}

/// `fuel` is how many levels are shown, here and below.
fn put_let_pattern(out: &mut String, pattern: &LetPattern, fuel: u32) {
    if fuel == 0 {
        return put(out, "..");
    }
    match pattern {
        LetPattern::Any(_) => put(out, "_"),
        LetPattern::Bind(name) => put_name(out, name),
        LetPattern::Case(_, name, parts) => {
            put(out, ".");
            put_name(out, name);
            if parts.is_empty() {
                return;
            }
            put(out, "(");
            for part in parts.as_slice() {
                put_let_pattern(out, part, fuel - 1);
                put(out, ";");
            }
            put(out, ")")
        }
        LetPattern::Number(_, negative, number) => put_number(out, *negative, *number),
        LetPattern::Truth(_, truth) => put_truth(out, *truth),
    }
}

fn put_pattern(out: &mut String, pattern: &Pattern, fuel: u32) {
    if fuel == 0 {
        return put(out, "..");
    }
    match pattern {
        Pattern::Any(_) => put(out, "_"),
        Pattern::Bind(_, name) => {
            put(out, "let ");
            put_name(out, name)
        }
        Pattern::BindCase(_, inner) => {
            put(out, "let ");
            put_let_pattern(out, inner, fuel)
        }
        Pattern::Case(_, name, parts) => {
            put(out, ".");
            put_name(out, name);
            if parts.is_empty() {
                return;
            }
            put(out, "(");
            for part in parts.as_slice() {
                put_pattern(out, part, fuel - 1);
                put(out, ";");
            }
            put(out, ")")
        }
        Pattern::Number(_, negative, number) => put_number(out, *negative, *number),
        Pattern::Truth(_, truth) => put_truth(out, *truth),
    }
}

#[cycle(shown)]
fn put_arguments(out: &mut String, arguments: &[Argument], fuel: u32) {
    put(out, "(");
    for argument in arguments {
        if let Some(label) = &argument.label {
            put_name(out, label);
            put(out, ": ");
        }
        put_passed(out, &argument.passed, fuel);
        put(out, ",");
    }
    put(out, ")")
}

#[cycle(shown)]
fn put_passed(out: &mut String, passed: &Passed, fuel: u32) {
    if fuel == 0 {
        return put(out, "..");
    }
    match passed {
        Passed::Value(e) => put_expr(out, e, fuel - 1),
        Passed::Address(_, path) => {
            put(out, "&");
            put_path(out, path)
        }
        Passed::Closure(closure) => put_closure(out, closure, fuel - 1),
    }
}

#[cycle(shown)]
fn put_closure(out: &mut String, closure: &Closure, fuel: u32) {
    if fuel == 0 {
        return put(out, "..");
    }
    put(out, "{");
    for name in closure.names.as_slice() {
        put_closure_name(out, name);
        put(out, " in ");
    }
    put_statements(out, closure.statements.as_slice(), fuel - 1);
    put(out, "}")
}

#[cycle(shown)]
fn put_two(out: &mut String, a: &Expr, between: &str, b: &Expr, fuel: u32) {
    if fuel == 0 {
        return put(out, "..");
    }
    put(out, "(");
    put_expr(out, a, fuel - 1);
    put(out, between);
    put_expr(out, b, fuel - 1);
    put(out, ")")
}

#[cycle(shown)]
fn put_expr(out: &mut String, e: &Expr, fuel: u32) {
    if fuel == 0 {
        return put(out, "..");
    }
    match e {
        Expr::Number(_, negative, number) => put_number(out, *negative, *number),
        Expr::Text(_, text) => {
            put(out, "'");
            put_bytes(out, text.as_slice())
        }
        Expr::Truth(_, truth) => put_truth(out, *truth),
        Expr::Path(path) => put_path(out, path),
        Expr::ImplicitMember(_, name) => {
            put(out, ".");
            put_name(out, name)
        }
        Expr::Parenthesized(_, inner) => {
            put(out, "[");
            put_expr(out, inner.get(), fuel - 1);
            put(out, "]")
        }
        Expr::Consume(_, path) => {
            put(out, "consume ");
            put_path(out, path)
        }
        Expr::Prefix(_, operator, inner) => {
            put(out, "(");
            put(out, sign(*operator));
            put_expr(out, inner.get(), fuel - 1);
            put(out, ")")
        }
        Expr::Binary(_, operator, _, a, b) => put_two(
            out,
            a.get(),
            mark(*operator),
            b.get(),
            fuel - 1,
        ),
        Expr::Choice(_, condition, a, b) => {
            put_expr(out, condition.get(), fuel - 1);
            put(out, " ? ");
            put_two(out, a.get(), " : ", b.get(), fuel - 1)
        }
        Expr::Member(_, whole, name) => {
            put_expr(out, whole.get(), fuel - 1);
            put(out, "->");
            put_name(out, name)
        }
        Expr::Call(_, callee, arguments) => {
            put_expr(out, callee.get(), fuel - 1);
            put_arguments(out, arguments.as_slice(), fuel - 1)
        }
        Expr::CallClosing(_, callee, arguments, closure) => {
            put_expr(out, callee.get(), fuel - 1);
            put_arguments(out, arguments.as_slice(), fuel - 1);
            put_closure(out, closure, fuel - 1)
        }
        Expr::CallClosure(_, callee, closure) => {
            put_expr(out, callee.get(), fuel - 1);
            put_closure(out, closure, fuel - 1)
        }
    }
}

/// A word, an expression and a block.
#[cycle(shown)]
fn put_with_block(out: &mut String, word: &str, e: &Expr, block: &Block, fuel: u32) {
    if fuel == 0 {
        return put(out, "..");
    }
    put(out, word);
    put_expr(out, e, fuel - 1);
    put_block(out, block, fuel - 1)
}

#[cycle(shown)]
fn put_stmt(out: &mut String, statement: &Stmt, fuel: u32) {
    if fuel == 0 {
        return put(out, "..");
    }
    match statement {
        Stmt::Let(_, word, name, written, e) => {
            put(out, keyword(*word));
            put_name(out, name);
            put_written(out, written);
            put(out, " = ");
            put_expr(out, e, fuel - 1)
        }
        Stmt::Declare(_, word, name, written) => {
            put(out, keyword(*word));
            put_optional(out, name);
            put_written(out, written)
        }
        Stmt::Assign(_, path, operator, _, e) => {
            put_path(out, path);
            put(out, assigning(*operator));
            put_expr(out, e, fuel - 1)
        }
        Stmt::Ignore(_, written, e) => {
            put(out, "_");
            put_written(out, written);
            put(out, " = ");
            put_expr(out, e, fuel - 1)
        }
        Stmt::Discard(_) => put(out, "discard self"),
        Stmt::If(_, condition, block) => put_with_block(out, "if ", condition, block, fuel - 1),
        Stmt::IfElse(_, condition, block, other) => {
            put_with_block(out, "if ", condition, block, fuel - 1);
            put(out, " else ");
            put_block(out, other, fuel - 1)
        }
        Stmt::ElseIf(_, condition, block, other) => {
            put_with_block(out, "if ", condition, block, fuel - 1);
            put(out, " else ");
            put_stmt(out, other.get(), fuel - 1)
        }
        Stmt::While(_, condition, block) => put_with_block(
            out,
            "while ",
            condition,
            block,
            fuel - 1,
        ),
        Stmt::Repeat(_, block, condition) => {
            put(out, "repeat ");
            put_block(out, block, fuel - 1);
            put(out, " while ");
            put_expr(out, condition, fuel - 1)
        }
        Stmt::For(_, name, low, operator, _, high, block) => {
            put(out, "for ");
            put_optional(out, name);
            put(out, " in ");
            put_expr(out, low, fuel - 1);
            put_with_block(out, range(*operator), high, block, fuel - 1)
        }
        Stmt::Switch(_, subject, clauses) => {
            put(out, "switch ");
            put_expr(out, subject, fuel - 1);
            put_clauses(out, clauses.as_slice(), fuel - 1)
        }
        Stmt::Break(_) => put(out, "break"),
        Stmt::Continue(_) => put(out, "continue"),
        Stmt::Return(_) => put(out, "return"),
        Stmt::ReturnValue(_, e) => {
            put(out, "return ");
            put_expr(out, e, fuel - 1)
        }
        Stmt::Evaluate(e) => put_expr(out, e, fuel - 1),
    }
}

#[cycle(shown)]
fn put_statements(out: &mut String, statements: &[Stmt], fuel: u32) {
    if fuel == 0 {
        return put(out, "..");
    }
    for statement in statements {
        put_stmt(out, statement, fuel - 1);
        put(out, "; ");
    }
}

#[cycle(shown)]
fn put_head(out: &mut String, head: &Head, fuel: u32) {
    if fuel == 0 {
        return put(out, "..");
    }
    match head {
        Head::Case(patterns) => {
            put(out, "case ");
            for pattern in patterns.as_slice() {
                put_pattern(out, pattern, fuel - 1);
                put(out, ", ");
            }
        }
        Head::Guarded(pattern, guard) => {
            put(out, "case ");
            put_pattern(out, pattern, fuel - 1);
            put(out, " where ");
            put_expr(out, guard, fuel - 1)
        }
        Head::Default => put(out, "default"),
    }
}

#[cycle(shown)]
fn put_clauses(out: &mut String, clauses: &[Clause], fuel: u32) {
    if fuel == 0 {
        return put(out, "..");
    }
    put(out, "{");
    for clause in clauses {
        put_head(out, &clause.head, fuel - 1);
        put(out, ": ");
        put_statements(out, clause.statements.as_slice(), fuel - 1);
    }
    put(out, "}")
}

#[cycle(shown)]
pub(crate) fn put_block(out: &mut String, block: &Block, fuel: u32) {
    if fuel == 0 {
        return put(out, "..");
    }
    put(out, "{ ");
    put_statements(out, block.statements.as_slice(), fuel - 1);
    put(out, "}")
}
