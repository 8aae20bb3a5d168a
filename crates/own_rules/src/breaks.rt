//! What breaks the rules O1 to O6 at the nodes of a graph.

ghost use Rattle.std.specs.Prelude.{◌<◌, [], IfOk, OnOk, length};
ghost use Rattle.own_breaks.specs.Settling.{Gathers};
ghost use Rattle.own_rules.specs.Bodies.{BreaksIn, BreaksOf, ExitBreaks, IsBreakWith, IsLackWith, IsWhole, LacksOf, OpBreaks};

use crate::asks::owes;
use crate::body::Body;
use crate::offer::{finding_at, offer};
use own_tree::{Finding, Op, Rule, Span};
use std::alloc::{AllocError, Global};

impl Body<'_> {
    /// Adds what breaks a rule at the op of a node with one leaf.
    fn push_break(
        &self,
        alloc: Global,
        found: &mut Vec<Finding>,
        rule: Rule,
        node: u32,
        op: &Op,
        leaf: usize,
    ) -> Result<(), AllocError>
        requires whole { IsWhole self.now }
        requires node { node < length self.now.nodes.now }
        requires leaf { leaf < length self.now.leaves.now }
        ensures { OnOk result (Gathers (IsBreakWith self.now rule node op.now leaf) found.old.items found.new.items) }
    {
        if !self.asks(rule, op, &self.leaves[leaf]) {
            return Ok(());
        }
        let Some(cause) = self.least_cause(rule, node, leaf) else {
            return Ok(());
        };
        offer(found, finding_at(alloc, rule, op.span, &op.place, cause)?)?;
        Ok(())
    }

    /// Adds what breaks a rule at the op of a node. The leaves are in order of their bindings, so that only
    /// those of the op's own are looked at.
    fn push_breaks(
        &self,
        alloc: Global,
        found: &mut Vec<Finding>,
        rule: Rule,
        node: u32,
        op: &Op,
    ) -> Result<(), AllocError>
        requires whole { IsWhole self.now }
        requires node { node < length self.now.nodes.now }
        ensures { OnOk result (Gathers (BreaksOf self.now rule node op.now) found.old.items found.new.items) }
    {
        let binding = op.place.binding;
        let first = self.leaves.partition_point(|leaf| leaf.binding < binding);
        'leaves: for leaf in first..self.leaves.len() {
            if self.leaves[leaf].binding != binding {
                return Ok(());
            }
            self.push_break(alloc, found, rule, node, op, leaf)?;
        }
        Ok(())
    }

    /// Adds what breaks a rule at the return of a node with one leaf.
    fn push_lack(
        &self,
        alloc: Global,
        found: &mut Vec<Finding>,
        rule: Rule,
        node: u32,
        at: Span,
        leaf: usize,
    ) -> Result<(), AllocError>
        requires whole { IsWhole self.now }
        requires node { node < length self.now.nodes.now }
        requires leaf { leaf < length self.now.leaves.now }
        ensures { OnOk result (Gathers (IsLackWith self.now rule node at leaf) found.old.items found.new.items) }
    {
        let place = &self.leaves[leaf];
        if !owes(self.bindings, rule, place.binding) {
            return Ok(());
        }
        let Some(cause) = self.least_cause(rule, node, leaf) else {
            return Ok(());
        };
        offer(found, finding_at(alloc, rule, at, place, cause)?)?;
        Ok(())
    }

    /// Adds what breaks a rule at the return of a node.
    fn push_lacks(
        &self,
        alloc: Global,
        found: &mut Vec<Finding>,
        rule: Rule,
        node: u32,
        at: Span,
    ) -> Result<(), AllocError>
        requires whole { IsWhole self.now }
        requires node { node < length self.now.nodes.now }
        ensures { OnOk result (Gathers (LacksOf self.now rule node at) found.old.items found.new.items) }
    {
        'leaves: for leaf in 0..self.leaves.len() {
            self.push_lack(alloc, found, rule, node, at, leaf)?;
        }
        Ok(())
    }

    /// Adds what breaks a rule at the op of a node, if it has one.
    fn push_op(
        &self,
        alloc: Global,
        found: &mut Vec<Finding>,
        node: u32,
        op: &Option<Op>,
    ) -> Result<(), AllocError>
        requires whole { IsWhole self.now }
        requires node { node < length self.now.nodes.now }
        ensures { OnOk result (Gathers (OpBreaks self.now node op.now) found.old.items found.new.items) }
    {
        let Some(op) = op else {
            return Ok(());
        };
        self.push_breaks(alloc, found, Rule::O1, node, op)?;
        self.push_breaks(alloc, found, Rule::O2, node, op)?;
        self.push_breaks(alloc, found, Rule::O4, node, op)?;
        self.push_breaks(alloc, found, Rule::O6, node, op)?;
        Ok(())
    }

    /// Adds what breaks a rule at the return of a node, if there is one.
    fn push_exit(
        &self,
        alloc: Global,
        found: &mut Vec<Finding>,
        node: u32,
        exit: Option<Span>,
    ) -> Result<(), AllocError>
        requires whole { IsWhole self.now }
        requires node { node < length self.now.nodes.now }
        ensures { OnOk result (Gathers (ExitBreaks self.now node exit) found.old.items found.new.items) }
    {
        let Some(at) = exit else {
            return Ok(());
        };
        self.push_lacks(alloc, found, Rule::O3, node, at)?;
        self.push_lacks(alloc, found, Rule::O5, node, at)?;
        Ok(())
    }

    /// What breaks a rule at some node, or what is no worse.
    pub(crate) fn all_breaks(&self, alloc: Global) -> Result<Vec<Finding>, AllocError>
        requires whole { IsWhole self.now }
        ensures { IfOk result (λ found. Gathers (BreaksIn self.now) [] found.items) }
    {
        let mut found = Vec::new(alloc);
        'nodes: for node in 0..self.nodes.len() {
            let current = &self.nodes[node];
            self.push_op(alloc, &mut found, node as u32, &current.op)?;
            self.push_exit(alloc, &mut found, node as u32, current.exit)?;
        }
        Ok(found)
    }
}
