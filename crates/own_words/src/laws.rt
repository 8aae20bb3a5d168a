//! What is known of the words of a command, whoever reads them.

ghost use Rattle.own_words.specs.Laws.{WordsOne};

/// A law about a definition; the call does nothing. Words are one command at most.
pub fn words_law()
    ensures { WordsOne }
{}
