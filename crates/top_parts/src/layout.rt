// What is wired.

use sqlite_items::Items;
use verilog_tree::name::Identifier;

/// Numbers that each thread hands to a core with a request: how many, and of how many bits each.
#[derive(Clone, Copy)]
pub struct Group {
    pub count: usize,
    pub width: u64,
}

/// A core: the number of its module, the name of its instance, the groups of numbers that a request is made of, the
/// first of which says whether a thread asks, and the width of each number that it tells each thread.
///
/// The inputs of its module are `clk`, then for each group and each thread the numbers of that group, then for each
/// thread whether it is granted. Its outputs are for each thread whether its request may be granted, then for each
/// number that it tells and each thread that number.
#[derive(Drop)]
pub struct Core {
    pub module: usize,
    pub name: Identifier,
    pub groups: Items<Group>,
    pub told: Items<u64>,
}

/// For each hardware thread the number of its module; the cores; and the number of the arbiter's module.
///
/// The inputs of a thread's module are `clk`, whether it is enabled, for each core whether it grants, and for each core
/// the numbers that it tells. Its outputs are for each core the numbers of its request, then whether it needs a core, and
/// whether it is done. The inputs of the arbiter's module are `clk`, the preferred thread of 6 bits, and for each thread
/// whether it asks; its outputs are for each thread whether it is granted.
#[derive(Drop)]
pub struct Layout {
    pub threads: Items<usize>,
    pub cores: Items<Core>,
    pub arbiter: usize,
}
