//! The functions of bodies.

use crate::coder::{Coder, OWN_ROOM};
use crate::jumps::Round;
use core_form::{CoreForm, CoreFunction};
use core_layout::types;
use core_place::{Spot, start_of};
use own_tree::typed::{Body, BodyKind, TypedBlock, TypedExpr, TypedStmt};
use own_tree::{Mode, Ty};
use own_within::{expressions_of, node_of, statements_in};
use sqlite_items::Items;
use std::alloc::AllocError;

/// The expression that a block is, if it is one.
fn value_of(block: &TypedBlock) -> Option<&TypedExpr> {
    match block.statements.as_slice() {
        [TypedStmt::Evaluate(_, value)] => Some(value),
        _ => None,
    }
}

impl Coder<'_> {
    /// Adds what takes back the marks of the stored properties of `self`, which `init` gives their values.
    fn push_opened_self(
        &self,
        code: &mut Vec<CoreForm>,
        ty: Ty,
        at: Spot,
    ) -> Result<(), AllocError> {
        let table = self.places.table;
        let mut property = at.on(start_of(table, ty));
        for info in types::properties(table, ty) {
            self.places.push_clear(code, info.ty, property)?;
            property = property.on(types::slots(table, info.ty));
        }
        Ok(())
    }

    /// Adds what takes back the marks of a binding that a body begins without a value in. A frame may have
    /// been used before.
    fn push_begun(&self, code: &mut Vec<CoreForm>, number: u32) -> Result<(), AllocError> {
        let Some(binding) = self.places.typed.bindings.get(number as usize) else {
            return Ok(());
        };
        let at = self.places.binding_at(number);
        match binding.mode {
            Mode::SelfInit => self.push_opened_self(code, binding.ty, at),
            Mode::Let | Mode::Var | Mode::PatternOwned => {
                self.places.push_clear(code, binding.ty, at)
            }
            _ => Ok(()),
        }
    }

    /// Adds what takes back the marks of the words in which the value of an expression waits, if there are some.
    fn push_begun_node(
        &self,
        code: &mut Vec<CoreForm>,
        expr: &TypedExpr,
    ) -> Result<(), AllocError> {
        let node = node_of(expr);
        match self.places.layout.node(node.id) {
            Some(word) => self.places.push_clear(code, node.ty, Spot::Mine(word)),
            None => Ok(()),
        }
    }

    /// Adds what takes back the marks of bindings.
    fn push_begun_bindings(
        &self,
        code: &mut Vec<CoreForm>,
        bindings: &[u32],
    ) -> Result<(), AllocError> {
        for number in bindings {
            self.push_begun(code, *number)?;
        }
        Ok(())
    }

    /// Adds what takes back the marks of the words in which values of a block wait.
    fn push_begun_nodes(
        &self,
        code: &mut Vec<CoreForm>,
        block: &TypedBlock,
    ) -> Result<(), AllocError> {
        let statements = statements_in(self.alloc, block)?;
        let exprs = expressions_of(self.alloc, statements.as_slice())?;
        for expr in exprs.iter() {
            self.push_begun_node(code, *expr)?;
        }
        Ok(())
    }

    /// The code of a block that is the one expression whose value a body returns.
    fn returned_code(&self, value: &TypedExpr) -> Result<Vec<CoreForm>, AllocError> {
        let mut code = self.no_code();
        self.push_value(&mut code, value, OWN_ROOM)?;
        code.push(CoreForm::Jump(0))?;
        Ok(code)
    }

    /// The code of the block of a body. Its value is returned if it is one expression.
    fn code_of_body(&self, body: &Body) -> Result<Vec<CoreForm>, AllocError> {
        if !matches!(body.result, Ty::Unit)
            && let Some(value) = value_of(&body.block)
        {
            return self.returned_code(value);
        }
        self.block_code(&Round::Body, &body.block)
    }

    /// Adds the birth of what an `init` returns.
    fn push_given_out(&self, code: &mut Vec<CoreForm>, body: &Body) -> Result<(), AllocError> {
        match (body.kind, body.params.get(0)) {
            (BodyKind::Initializer, Some(own)) => {
                let ty = self.places.type_of_binding(*own);
                let at = Spot::Mine(self.places.layout.offset(*own));
                self.places.push_copied(code, ty, at, OWN_ROOM)?;
                self.push_birth(code, ty, OWN_ROOM)
            }
            _ => Ok(()),
        }
    }

    /// The function of a body, whose bindings these are. A return leaves its block, and then the parameters
    /// end.
    pub(crate) fn function_of(
        &self,
        body: &Body,
        bindings: &[u32],
    ) -> Result<CoreFunction, AllocError> {
        let mut code = self.no_code();
        self.push_begun_bindings(&mut code, bindings)?;
        self.push_begun_nodes(&mut code, &body.block)?;
        let forms = self.code_of_body(body)?;
        self.push_block(&mut code, forms)?;
        self.push_ends(&mut code, body.params.as_slice())?;
        self.push_given_out(&mut code, body)?;
        Ok(CoreFunction {
            locals: 0,
            code: Items::from_vec(code),
        })
    }
}
