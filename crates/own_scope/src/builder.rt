//! What has been made of a text up to the part that is typed.

ghost use Rattle.std.specs.Prelude.{◌≡◌, IfOk, OnOk};
ghost use Rattle.own_tree.specs.TypedView.{body_view};
ghost use Rattle.own_judging.specs.Made.{made, nothing_made};
ghost use Rattle.own_judged.specs.Rules.{node, declared};
ghost use Rattle.own_scope.specs.Making.{begun, ended, made_of, settled};

use own_tree::{Binding, Body};
use std::alloc::{AllocError, Global};

/// The nodes, the bindings and the bodies up to here. A number that is too large counts as memory that
/// is refused.
#[derive(Drop)]
pub struct Builder {
    /// How many nodes there are.
    pub nodes: u32,
    pub bindings: Vec<Binding>,
    pub bodies: Vec<Body>,
}

impl Builder {
    /// Nothing, which takes no memory yet.
    pub fn new(alloc: Global) -> Builder
        ensures { made_of result ≡ nothing_made }
    {
        Builder {
            nodes: 0,
            bindings: Vec::new(alloc),
            bodies: Vec::new(alloc),
        }
    }

    /// The number of the next node.
    pub fn node(&mut self) -> Result<u32, AllocError>
        ensures { IfOk result (λ id. (node).run (made_of self.old) ≡ made id (made_of self.new)) }
    {
        if self.nodes == u32::MAX {
            return Err(AllocError);
        }
        self.nodes += 1;
        Ok(self.nodes)
    }

    /// The number of the next binding, which is added.
    pub fn declare(&mut self, binding: Binding) -> Result<u32, AllocError>
        ensures { IfOk result (λ x. (declared binding).run (made_of self.old) ≡ made x (made_of self.new)) }
    {
        let number = self.bindings.len();
        if number >= u32::MAX as usize {
            return Err(AllocError);
        }
        self.bindings.push(binding)?;
        Ok(number as u32)
    }

    /// A binding, now that its type is known.
    pub fn settle(&mut self, number: u32, binding: Binding) -> Result<(), AllocError>
        ensures { OnOk result (made_of self.new ≡ settled number binding (made_of self.old)) }
    {
        let at = number as usize;
        if at >= self.bindings.len() {
            return Err(AllocError);
        }
        self.bindings[at] = binding;
        Ok(())
    }

    /// The number of the next body, which is added.
    pub fn embody(&mut self, body: Body) -> Result<u32, AllocError>
        ensures { IfOk result (λ k. made k (made_of self.new) ≡ begun (body_view body) (made_of self.old)) }
    {
        let number = self.bodies.len();
        if number >= u32::MAX as usize {
            return Err(AllocError);
        }
        self.bodies.push(body)?;
        Ok(number as u32)
    }

    /// A body, now that its parts are known.
    #[tactic(auto, using(crate::proofs::Looking::bodies_set))]
    pub fn settle_body(&mut self, number: u32, body: Body) -> Result<(), AllocError>
        ensures { OnOk result (made_of self.new ≡ ended number (body_view body) (made_of self.old)) }
    {
        let at = number as usize;
        if at >= self.bodies.len() {
            return Err(AllocError);
        }
        self.bodies[at] = body;
        Ok(())
    }
}
