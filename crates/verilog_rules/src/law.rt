// Laws of the definitions. The function takes and answers nothing: its contract is the laws.

ghost use Rattle.verilog_tree.specs.Reads.{ReadsOne};
ghost use Rattle.verilog_rules.specs.Laws.{ReaderIsGrammar, ReaderReadsNets};

/// What the reader of whole texts answers.
pub fn reader_reads_texts()
    // What it answers is what the tokens are.
    ensures reader_is_grammar { ReaderIsGrammar }
    // It finds the nets of the tree's own grammar, and stops where tokens depart from it.
    ensures reader_reads_nets { ReaderReadsNets }
    // A text reads as at most one net.
    ensures reads_one { ReadsOne }
{}
