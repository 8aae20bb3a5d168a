//! What is known of the spellings of modules, whoever reads them.

ghost use Rattle.wasm_read.specs.Laws.{SpellOne, ShortestSpells, ShortestIsLeast, SpelledIsWithin};

/// Laws about definitions; the call does nothing. Bytes spell at most one module. A module that
/// some bytes spell is spelled by its shortest spelling too, which is no longer than they are, so a
/// module that was read can be written and is then read back. It is within the limits that a
/// machine asks for.
pub fn spelling_law()
    ensures one { SpellOne }
    ensures shortest { ShortestSpells }
    ensures least { ShortestIsLeast }
    ensures within { SpelledIsWithin }
{}
