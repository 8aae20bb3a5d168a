ghost use Rattle.own_reached.specs.Laws.{FactsAreOfTraces, GraphsAndMakersFit};

/// What `graph` and `makers` answer of one body is what `reach` and `advance` ask for.
pub fn graphs_and_makers_fit()
    ensures { GraphsAndMakersFit }
{}

/// A maker reaches a node exactly where some trace of the op tree comes there on which it is the last of its leaf.
pub fn facts_are_of_traces()
    ensures { FactsAreOfTraces }
{}
