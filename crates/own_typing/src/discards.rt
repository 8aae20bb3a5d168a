//! Whether a body has a `discard self` (SE-0390).

use own_tree::typed::{TypedBlock, TypedClause, TypedStmt};

/// Whether one stands in a statement.
#[cycle(discards)]
fn is_in(s: &TypedStmt) -> bool {
    match s {
        TypedStmt::Discard(..) => true,
        TypedStmt::If(_, _, block)
        | TypedStmt::While(_, _, block)
        | TypedStmt::Repeat(_, block, _)
        | TypedStmt::For(_, _, _, _, _, _, block) => in_statements(block.statements.as_slice()),
        TypedStmt::IfElse(_, _, first, second) => {
            in_statements(first.statements.as_slice())
                || in_statements(second.statements.as_slice())
        }
        TypedStmt::ElseIf(_, _, first, other) => {
            in_statements(first.statements.as_slice()) || is_in(other.get())
        }
        TypedStmt::Switch(_, _, clauses) => in_clauses(clauses.as_slice()),
        _ => false,
    }
}

/// Whether one stands in statements.
#[cycle(discards)]
fn in_statements(statements: &[TypedStmt]) -> bool {
    for s in statements {
        if is_in(s) {
            return true;
        }
    }
    false
}

/// Whether one stands in clauses.
#[cycle(discards)]
fn in_clauses(clauses: &[TypedClause]) -> bool {
    for clause in clauses {
        if in_statements(clause.statements.as_slice()) {
            return true;
        }
    }
    false
}

/// Whether a `discard self` stands in a block, in the closures of it not.
pub fn discards(block: &TypedBlock) -> bool {
    in_statements(block.statements.as_slice())
}
