//! Statements and blocks. The walk goes as deep as the statement is nested.

use crate::coder::{Coder, OWN_ROOM};
use crate::jumps::{Round, Way};
use crate::loops::ForHead;
use crate::switches::{Subject, labels_of};
use core_form::CoreForm;
use own_tree::typed::{TypedBlock, TypedClause, TypedStmt};
use std::alloc::{AllocError, Global};

/// Adds the bindings that the statements of one scope declare, in order.
pub(crate) fn push_locals(
    numbers: &mut Vec<u32>,
    statements: &[TypedStmt],
) -> Result<(), AllocError> {
    for statement in statements {
        match statement {
            TypedStmt::Let(_, number, _) | TypedStmt::Declare(_, number) => numbers.push(*number)?,
            _ => {}
        }
    }
    Ok(())
}

/// The bindings of a block.
fn locals(alloc: Global, block: &TypedBlock) -> Result<Vec<u32>, AllocError> {
    let mut numbers = Vec::new(alloc);
    push_locals(&mut numbers, block.statements.as_slice())?;
    Ok(numbers)
}

impl Coder<'_> {
    /// Adds a statement that has no other in it.
    fn push_single(
        &self,
        code: &mut Vec<CoreForm>,
        round: &Round<'_>,
        statement: &TypedStmt,
    ) -> Result<(), AllocError> {
        match statement {
            TypedStmt::Let(_, number, value) => {
                self.push_value(code, value, self.places.binding_at(*number))
            }
            TypedStmt::Declare(_, number) => self.push_declared(code, *number),
            TypedStmt::Ignore(_, value) | TypedStmt::Evaluate(_, value) => {
                self.push_ignored(code, value)
            }
            TypedStmt::Assign(_, path, value) => self.push_assigned(code, path, value),
            TypedStmt::Update(_, path, op, mark, value) => {
                self.push_updated(code, path, *op, *mark, value)
            }
            TypedStmt::Discard(_, place) => self.push_discarded(code, place),
            TypedStmt::Break(_) => self.push_jump(code, round, Way::Break, 0),
            TypedStmt::Continue(_) => self.push_jump(code, round, Way::Continue, 0),
            TypedStmt::Return(_) => self.push_jump(code, round, Way::Return, 0),
            TypedStmt::ReturnValue(_, value) => {
                self.push_value(code, value, OWN_ROOM)?;
                self.push_jump(code, round, Way::Return, 0)
            }
            _ => Ok(()),
        }
    }

    /// Adds a statement.
    #[cycle(statements)]
    fn push_statement(
        &self,
        code: &mut Vec<CoreForm>,
        round: &Round<'_>,
        statement: &TypedStmt,
    ) -> Result<(), AllocError> {
        match statement {
            TypedStmt::If(_, test, block) => {
                let first = self.block_code(round, block)?;
                self.push_choice(code, test, first, self.no_code())
            }
            TypedStmt::IfElse(_, test, block, other) => {
                let first = self.block_code(round, block)?;
                let second = self.block_code(round, other)?;
                self.push_choice(code, test, first, second)
            }
            TypedStmt::ElseIf(_, test, block, other) => {
                let first = self.block_code(round, block)?;
                let mut second = self.no_code();
                self.push_statement(&mut second, round, other.get())?;
                self.push_choice(code, test, first, second)
            }
            TypedStmt::While(_, test, block) => {
                let body = self.block_code(&Round::Continues(&Round::Breaks(&*round)), block)?;
                self.push_while(code, test, body)
            }
            TypedStmt::Repeat(_, block, test) => {
                let inside = Round::Continues(&Round::Label(&Round::Breaks(&*round)));
                let body = self.block_code(&inside, block)?;
                self.push_repeat(code, body, test)
            }
            TypedStmt::For(at, turn, low, range, mark, high, block) => {
                let inside = Round::Continues(&Round::Label(&Round::Breaks(&*round)));
                let body = self.block_code(&inside, block)?;
                let head = ForHead {
                    turn: *turn,
                    range: *range,
                    mark: *mark,
                };
                self.push_for(code, *at, head, low, high, body)
            }
            TypedStmt::Switch(_, subject, clauses) => {
                let subject = self.push_subject(code, subject)?;
                let forms = self.clauses_code(
                    &Round::Breaks(&*round),
                    subject,
                    clauses.as_slice(),
                )?;
                self.push_block(code, forms)
            }
            _ => self.push_single(code, round, statement),
        }
    }

    /// Adds statements, one after another.
    #[cycle(statements)]
    fn push_statements(
        &self,
        code: &mut Vec<CoreForm>,
        round: &Round<'_>,
        statements: &[TypedStmt],
    ) -> Result<(), AllocError> {
        for statement in statements {
            self.push_statement(code, round, statement)?;
        }
        Ok(())
    }

    /// The code of a block, which ends the bindings that it declares.
    #[cycle(statements)]
    pub(crate) fn block_code(
        &self,
        round: &Round<'_>,
        block: &TypedBlock,
    ) -> Result<Vec<CoreForm>, AllocError> {
        let numbers = locals(self.alloc, block)?;
        let mut code = self.no_code();
        let scope = Round::Scope(numbers.as_slice(), &*round);
        self.push_statements(&mut code, &scope, block.statements.as_slice())?;
        self.push_ends(&mut code, numbers.as_slice())?;
        Ok(code)
    }

    /// The code of the clauses of a `switch`.
    #[cycle(statements)]
    fn clauses_code(
        &self,
        round: &Round<'_>,
        subject: Subject,
        clauses: &[TypedClause],
    ) -> Result<Vec<CoreForm>, AllocError> {
        let mut code = self.no_code();
        for clause in clauses {
            let body = self.clause_code(round, subject, clause)?;
            self.push_clause(&mut code, subject, &clause.head, body)?;
        }
        Ok(code)
    }

    /// The code of the body of a clause, which leaves its `switch`.
    #[cycle(statements)]
    fn clause_code(
        &self,
        round: &Round<'_>,
        subject: Subject,
        clause: &TypedClause,
    ) -> Result<Vec<CoreForm>, AllocError> {
        let mut numbers = self.names_of(subject, &clause.head)?;
        push_locals(&mut numbers, clause.statements.as_slice())?;
        let labels = labels_of(&clause.head);
        let statements = clause.statements.as_slice();
        let mut code = self.no_code();
        if labels == 0 {
            let scope = Round::Scope(numbers.as_slice(), &*round);
            self.push_statements(&mut code, &scope, statements)?;
        } else {
            let label = Round::Label(&*round);
            let scope = Round::Scope(numbers.as_slice(), &label);
            self.push_statements(&mut code, &scope, statements)?;
        }
        self.push_ends(&mut code, numbers.as_slice())?;
        code.push(CoreForm::Jump(labels))?;
        Ok(code)
    }
}
