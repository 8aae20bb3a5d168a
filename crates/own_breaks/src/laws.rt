//! Laws of the definitions. Each function does nothing; its contract is the law.

ghost use Rattle.own_breaks.specs.Laws.{BestAreFindings, BreaksAreBlamed, FactsAreAtNodes, FactsAreByMakers, OffersGather};

/// O1 to O6 are broken on some trace exactly where they are broken at a node by a maker that reaches it.
pub fn breaks_are_blamed()
    ensures { BreaksAreBlamed }
{}

/// Of all that breaks a path rule, the best of each question are its findings.
pub fn best_are_findings()
    ensures { BestAreFindings }
{}

/// A list that is offered a finding holds it, or one that is no worse.
pub fn offers_gather()
    ensures { OffersGather }
{}

/// What a leaf may be before a node is what the makers say that reach it.
pub fn facts_are_by_makers()
    ensures { FactsAreByMakers }
{}

/// What a leaf may be before an op is what it may be before the nodes of that op.
pub fn facts_are_at_nodes()
    ensures { FactsAreAtNodes }
{}
