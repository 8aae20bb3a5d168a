//! Laws of the definitions. Each function does nothing; its contract is the law.

ghost use Rattle.own_walks.specs.Laws.{BreaksAreAtExits, BreaksAreAtNodes, FallsAreAtOne, GraphsAreExact, MarksAreMakers, PairsAreMakers, WalksAreTracesOfTrees};

/// The function `graph_of` makes a graph of the tree, in which each edge leads to a node.
pub fn graphs_are_exact()
    ensures { GraphsAreExact }
{}

/// The op lists of the walks of a graph are the prefixes of the traces of its tree, for any number of
/// turns, and those of the walks that end at an exit are the traces completed by that return.
pub fn walks_are_traces()
    ensures { WalksAreTracesOfTrees }
{}

/// A path rule is broken at an op of some trace exactly where it is broken at a node.
pub fn breaks_are_at_nodes()
    ensures { BreaksAreAtNodes }
{}

/// A path rule is broken at a return of some trace exactly where it is broken at an exit.
pub fn breaks_are_at_exits()
    ensures { BreaksAreAtExits }
{}

/// A body falls off its end exactly where a walk comes to node 1, its return at the closing brace.
pub fn falls_are_at_one()
    ensures { FallsAreAtOne }
{}

/// The pairs of `pairs_of` are the makers of a graph.
pub fn pairs_are_makers()
    ensures { PairsAreMakers }
{}

/// A maker reaches a node exactly where some walk comes there with what it says of its leaf.
pub fn marks_are_makers()
    ensures { MarksAreMakers }
{}
