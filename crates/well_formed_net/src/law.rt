// The laws. The functions take and answer nothing: their contracts are the laws.

ghost use Rattle.well_formed_net.specs.Example.{OpensOneBit};
ghost use Rattle.well_formed_net.specs.Fitting.{FitsOfWellFormed, OrderedOfWellFormed, PrintingOfWellFormed};
ghost use Rattle.well_formed_net.specs.Openable.{OpenableOfWellFormed, OpenableText};
ghost use Rattle.well_formed_net.specs.ReadAgain.{IsReadAgain, RunsOnce};

/// In the netlist of a well-formed text each signal has 1 to 64 bits and the width of what drives it, and statements and initial constants
/// fit (`fits`); the module of an instance stands earlier, and no two modules have one name (`ordered`); one instance at most has a `$write`
/// (`printing`). A simulator of it can be opened where its module `top` has an output `done` of one bit and where the inputs `pref_k` of `top`
/// have 4 bits or more, said of the netlist (`openable`) and of the text alone (`text`); so can a net that reads bit 0 of a name with a range of
/// one bit, though its netlist is not sound (`one_bit`). A text of a well-formed net whose outermost module has the ports of a net of threads is
/// read as this net (`again`). In a net that settles each state in one way two runs under the choices of `top_rr` have as many cycles, write the
/// same, and show done alike (`once`).
pub fn of_well_formed()
    ensures fits { FitsOfWellFormed }
    ensures ordered { OrderedOfWellFormed }
    ensures printing { PrintingOfWellFormed }
    ensures openable { OpenableOfWellFormed }
    ensures text { OpenableText }
    ensures one_bit { OpensOneBit }
    ensures again { IsReadAgain }
    ensures once { RunsOnce }
{}
