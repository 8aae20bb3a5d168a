//! Laws of the definitions. Each function does nothing; its contract is the law.

ghost use Rattle.low_laws.specs.Laws.{ModulesAreSpelled, ModulesFollow};

/// The module of a core does what the core does, in both directions.
pub fn modules_follow()
    ensures { ModulesFollow }
{}

/// The module of a core that fits is spelled, and its shortest spelling is shorter than 2^32 bytes.
pub fn modules_are_spelled()
    ensures { ModulesAreSpelled }
{}
