// The instances of a net, the outermost first, and those that stand in one instance side by side.

ghost use Rattle.std.specs.Prelude.{◌≡◌, ◌++◌, ◌∷◌, [], ◌<◌, map, length, slice_get, slice_index_or, IfOk, OnOk};
ghost use Rattle.sim_values.specs.Tree.{instances_of, kinds_of, IsTree, IsGrown};

use crate::sizes::{module_sizes, size_at};
use netlist::netlist::{Instance, Module};
use sqlite_items::at;
use std::alloc::{AllocError, Global};

/// About so many words of memory a simulator takes for each number of a net.
const WORDS: usize = 8;

/// Of each instance the number of its module, and the place of the first instance in it.
pub struct Tree {
    pub kinds: Vec<usize>,
    pub children: Vec<usize>,
}

// A drop that is written here is proved here; a derived one is proved again in each crate that drops the type.

impl Drop for Tree {
    fn drop(self) {
        let Tree {
            kinds: _,
            children: _,
        } = self;
    }
}

/// The instances of the module of a number.
pub fn module_instances(modules: &[Module], number: usize) -> &[Instance]
    ensures { result.now ≡ instances_of (slice_get modules.now number) }
{
    match at(modules, number) {
        Some(module) => module.instances.as_slice(),
        None => &[],
    }
}

fn push_kinds(kinds: &mut Vec<usize>, instances: &[Instance]) -> Result<(), AllocError>
    ensures { OnOk result (kinds.new.items ≡ kinds.old.items ++ kinds_of instances.now) }
{
    for instance in instances {
        kinds.push(instance.of)?;
    }
    Ok(())
}

/// Adds the instances that stand in the one at a place.
fn visit(tree: &mut Tree, modules: &[Module], place: usize) -> Result<(), AllocError>
    requires place { place < length tree.old.kinds.items }
    ensures kinds { OnOk result (tree.new.kinds.items ≡ tree.old.kinds.items ++ kinds_of (instances_of (slice_get modules.now (slice_index_or tree.old.kinds.items place 0)))) }
    ensures children { OnOk result (tree.new.children.items ≡ tree.old.children.items ++ length tree.old.kinds.items ∷ []) }
{
    let kind = tree.kinds[place];
    tree.children.push(tree.kinds.len())?;
    push_kinds(&mut tree.kinds, module_instances(modules, kind))
}

/// Takes the room of a net whose top module is of this number, and lets it go: of a net that does not fit in memory that is refused at once,
/// before any of it is filled.
fn try_room(alloc: Global, modules: &[Module], top: usize) -> Result<(), AllocError> {
    let sizes = module_sizes(alloc, modules)?;
    let _room: Vec<[u64; WORDS]> = Vec::with_capacity(alloc, size_at(&sizes, top))?;
    Ok(())
}

/// The instances below a module.
#[tactic(auto, using(crate::proofs::Trees::grown_none))]
pub fn tree_of(alloc: Global, modules: &[Module], top: usize) -> Result<Tree, AllocError>
    ensures { IfOk result (λ t. IsTree modules.now top t.kinds.items t.children.items) }
{
    try_room(alloc, modules, top)?;
    let mut tree = Tree {
        kinds: Vec::new(alloc),
        children: Vec::new(alloc),
    };
    tree.kinds.push(top)?;
    for place in 0..usize::MAX {
        if place >= tree.kinds.len() {
            return Ok(tree);
        }
        visit(&mut tree, modules, place)?;
    }
    Err(AllocError)
}
