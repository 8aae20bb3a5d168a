//! What is known at a place in a body.

ghost use Rattle.std.specs.Prelude.{◌≡◌, ◌∷◌, [], map, IfOk, OnOk};
ghost use Rattle.own_judged.specs.Names.{local_in, on_found, or_else, with_locals, inside_loop as within_loop, inside_switch as within_switch, inside_closure as within_closure};
ghost use Rattle.own_scope.specs.Locals.{local_of};
ghost use Rattle.own_scope.specs.Scopes.{frames_locals, locals_in, scope_of, scope_at};

use crate::frame::Frame;
use crate::local::Local;
use own_tree::{Mode, Ty};
use std::alloc::{AllocError, Global};

/// `self`, and how the body has it.
#[derive(Clone, Copy, Debug, PartialEq, Eq)]
pub struct Receiver {
    pub binding: u32,
    pub ty: Ty,
    pub mode: Mode,
}

/// What is known at a place besides the names of locals.
#[derive(Clone, Copy, Debug, PartialEq, Eq)]
pub struct Context {
    /// The number of the body.
    pub body: u32,
    /// That of the body, or in a closure of the body it stands in.
    pub receiver: Option<Receiver>,
    /// The type whose member that body is.
    pub owner: Option<u32>,
    pub in_closure: bool,
    /// The result of the body.
    pub result: Ty,
    pub in_loop: bool,
    pub in_switch: bool,
    /// Whether `discard self` may stand here (SE-0390).
    pub may_discard: bool,
}

/// A local, unless another hides it.
fn later<'n>(found: Option<Local<'n>>, inner: Option<Local<'n>>) -> Option<Local<'n>>
    ensures { on_found local_of result ≡ or_else (on_found local_of inner.entry) (on_found local_of found.entry) }
{
    match inner {
        Some(local) => Some(local),
        None => found,
    }
}

/// What is known at a place. The names that are declared there stand in a frame of their own, behind those
/// of the scopes round it.
#[derive(Drop)]
pub struct Scope<'s> {
    outer: Vec<&'s Frame>,
    own: Frame,
    pub context: Context,
}

impl<'s> Scope<'s> {
    /// A place without locals.
    pub fn new(alloc: Global, context: Context) -> Scope<'s>
        ensures { scope_of result ≡ scope_at context [] }
    {
        Scope {
            outer: Vec::new(alloc),
            own: Frame::new(alloc),
            context,
        }
    }

    /// The frames that are seen at the place.
    #[tactic(auto, using(crate::proofs::Looking::frames_push))]
    fn frames<'i>(&'i self, alloc: Global) -> Result<Vec<&'i Frame>, AllocError>
        ensures { IfOk result (λ frames. frames_locals frames.items ≡ locals_in self.now) }
    {
        let mut frames: Vec<&'i Frame> = Vec::new(alloc);
        for frame in &self.outer {
            let frame: &'i Frame = *frame;
            frames.push(frame)?;
        }
        frames.push(&self.own)?;
        Ok(frames)
    }

    /// A place inside, where the same names are known, and others may be declared.
    pub fn inside<'i>(&'i self, alloc: Global, context: Context) -> Result<Scope<'i>, AllocError>
        ensures { IfOk result (λ inner. scope_of inner ≡ scope_at context (locals_in self.now)) }
    {
        Ok(Scope {
            outer: self.frames(alloc)?,
            own: Frame::new(alloc),
            context,
        })
    }

    /// A block of its own at the same place.
    pub fn block<'i>(&'i self, alloc: Global) -> Result<Scope<'i>, AllocError>
        ensures { IfOk result (λ inner. scope_of inner ≡ scope_of self.now) }
    {
        self.inside(alloc, self.context)
    }

    /// The inside of a loop.
    pub fn inside_loop<'i>(&'i self, alloc: Global) -> Result<Scope<'i>, AllocError>
        ensures { IfOk result (λ inner. scope_of inner ≡ within_loop (scope_of self.now)) }
    {
        let mut context = self.context;
        context.in_loop = true;
        self.inside(alloc, context)
    }

    /// The inside of a `switch`.
    pub fn inside_switch<'i>(&'i self, alloc: Global) -> Result<Scope<'i>, AllocError>
        ensures { IfOk result (λ inner. scope_of inner ≡ within_switch (scope_of self.now)) }
    {
        let mut context = self.context;
        context.in_switch = true;
        self.inside(alloc, context)
    }

    /// The inside of a closure that is body `body`, before its names. A jump or a `return` in it is its own.
    pub fn inside_closure<'i>(
        &'i self,
        alloc: Global,
        body: u32,
        gives: Ty,
    ) -> Result<Scope<'i>, AllocError>
        ensures { IfOk result (λ inner. scope_of inner ≡ within_closure (scope_of self.now) body gives []) }
    {
        let mut context = self.context;
        context.body = body;
        context.result = gives;
        context.in_closure = true;
        context.in_loop = false;
        context.in_switch = false;
        context.may_discard = false;
        self.inside(alloc, context)
    }

    /// Adds a name.
    pub fn declare(&mut self, alloc: Global, local: Local<'_>) -> Result<(), AllocError>
        ensures { OnOk result (scope_of self.new ≡ with_locals (scope_of self.old) (local_of local.entry ∷ [])) }
    {
        self.own.declare(alloc, local)
    }

    /// Adds names, in order.
    pub fn declare_all(&mut self, alloc: Global, locals: &[Local<'_>]) -> Result<(), AllocError>
        ensures { OnOk result (scope_of self.new ≡ with_locals (scope_of self.old) (map local_of locals.now)) }
    {
        for local in locals {
            self.declare(alloc, *local)?;
        }
        Ok(())
    }

    /// The innermost local of that name that the scopes round it declare.
    fn find_outside<'n>(&self, name: &'n [u8]) -> Option<Local<'n>>
        ensures { on_found local_of result ≡ local_in (frames_locals self.now.outer.items) name.now }
    {
        let mut found = None;
        for frame in &self.outer {
            found = later(found, frame.find(name));
        }
        found
    }

    /// The innermost local of that name.
    #[tactic(auto, using(crate::proofs::Looking::innermost))]
    pub fn find<'n>(&self, name: &'n [u8]) -> Option<Local<'n>>
        ensures { on_found local_of result ≡ local_in (scope_of self.now).locals name.now }
    {
        match self.own.find(name) {
            Some(local) => Some(local),
            None => self.find_outside(name),
        }
    }
}
