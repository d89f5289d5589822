//! Tables of modules of nets with any number of threads and cores, and the layouts by which they are wired.
#![tactic(auto)]

ghost use Rattle.core_tables.specs.Fits.{CoresFit};
ghost use Rattle.core_tables.specs.Nets.{TablesAreNets};
ghost use Rattle.core_tables.specs.Whole.{TablesAreSound, TablesKeepPromises};
ghost use Rattle.core_tables.specs.Laws.{CoresAreNamed, PrintersWrite, TablesFit, ThreadsFit, ThreadsHavePorts};

/// What holds of a table of modules, and of the net that is wired of it.
pub fn tables_fit()
    // The module of each core has the ports that a layout of any number of threads asks of it, and keeps its promise at them. The
    // cores and the arbiter of a table fit its layout, the layout asks of threads' modules the ports of its cores, and the
    // instances of cores have names of their own. The module of the printer alone writes, in one instance.
    ensures cores { CoresFit }
    ensures tables { TablesFit }
    ensures threads { ThreadsHavePorts }
    ensures modules { ThreadsFit }
    ensures names { CoresAreNamed }
    ensures writer { PrintersWrite }
    // The modules of a whole table are sound together, and each keeps its promise at its places of the layout; so the net that is
    // wired of it is one machine, whose threads, banks and output done are found by their names.
    ensures sound { TablesAreSound }
    ensures promises { TablesKeepPromises }
    ensures nets { TablesAreNets }
{}
