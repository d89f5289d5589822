//! How the tokens of a C text are read from the left, as definitions, and the law that this reads exactly the sentences of the
//! grammar: the tree of a sentence, and else the place of the first fault.
#![tactic(auto)]

ghost use Rattle.c_reading.specs.Laws.{ReaderIsGrammar};

/// What the reader of whole texts answers is what the tokens are.
pub fn reader_is_grammar()
    ensures { ReaderIsGrammar }
{}
