// Where the locals of a program's functions stand in the code of a thread. A thread has at most one call of a function at a
// time, since no call leads back to its caller: so each function that it reaches has one room, whichever call it is.

ghost use Rattle.std.specs.Prelude.{◌≡◌, ◌+◌, ◌*◌, [], ◌∷◌, ◌++◌, List, length, map, slice_get, string_bytes, IfOk, IfErr, OnOk};
ghost use Rattle.c_program.specs.declared.tree.LocalVariable as tree;
ghost use Rattle.c_program.specs.Plain.{function_of, program_of, statement_of};
ghost use Rattle.c_program.specs.Limits.{local_elements, print_count, print_sites};
ghost use Rattle.c_program.specs.Weight.{function_weight};
ghost use Rattle.c_program.specs.Resolved.{IsResolved};
ghost use Rattle.c_program.specs.Tree as program;
ghost use Rattle.code_storage.specs.Housing as housing;
ghost use Rattle.code_storage.specs.Locals as spec;
ghost use Rattle.code_storage.specs.Reaching as reaching;
ghost use Rattle.code_storage.specs.Locals.{prints};
ghost use Rattle.code_blocks.specs.Room.{IsFull};

use crate::naming::names_of;
use crate::prints::count_prints;
use crate::reaching::{has, marks_of};
use block_ir::code::Array;
use c_program::tree::{Function, LocalVariable, Program};
use code_blocks::fault::{LoweringFault, number_of};
use code_blocks::homes::Home;
use hls_ints::CType;
use sqlite_items::{Items, at};
use std::alloc::{AllocError, Global};

/// The homes of a function's locals, in their order, and the number of its first printf.
#[derive(Drop)]
pub struct Room {
    pub homes: Items<Home>,
    pub site: u32,
}

/// The rooms of the functions, in their order, the types of the variables and of the arrays, and how many printf calls there are.
#[derive(Drop)]
pub struct Rooms {
    pub rooms: Items<Room>,
    pub variables: Items<CType>,
    pub arrays: Items<Array>,
    pub sites: u32,
}

/// The rooms, and for each variable the name of the local that stands in it, or an empty one.
#[derive(Drop)]
pub struct Housing {
    pub rooms: Rooms,
    pub names: Items<String>,
}

impl Rooms {
    /// The home of one more local.
    #[tactic(auto, using(crate::proofs::LocalHomes::scalar_more, crate::proofs::LocalHomes::array_more))]
    fn place(&mut self, local: LocalVariable) -> Result<Home, LoweringFault>
        ensures homed { IfOk result (λ home. (before : List tree.LocalVariable) → spec.Houses before self.old → spec.Homed before local home self.old self.new) }
        ensures full { IfErr result (IsFull (length self.old.variables + length self.old.arrays + 1)) }
    {
        let LocalVariable { ty, length } = local;
        if length == 1 {
            let number = number_of(self.variables.len())?;
            self.variables.push(ty)?;
            return Ok(Home::Variable(number));
        }
        let number = number_of(self.arrays.len())?;
        self.arrays.push(Array { ty, length })?;
        Ok(Home::Array(number))
    }

    /// The homes of a function's locals.
    fn place_all(
        &mut self,
        alloc: Global,
        locals: &[LocalVariable],
    ) -> Result<Items<Home>, LoweringFault>
        ensures homed { IfOk result (λ homes. (before : List tree.LocalVariable) → spec.Houses before self.old → spec.AllHomed before locals.now homes self.old self.new) }
        ensures full { IfErr result (λ fault. (before : List tree.LocalVariable) → spec.Houses before self.old → IsFull (length before + length locals.now) fault) }
    {
        let mut homes = Items::new(alloc);
        for local in locals {
            let home = self.place(*local)?;
            homes.push(home)?;
        }
        Ok(homes)
    }

    /// The room of one more function, which the thread reaches or not.
    #[tactic(auto, using(crate::proofs::LocalHomes::room_more))]
    fn add(
        &mut self,
        alloc: Global,
        is_reached: bool,
        function: &Function,
    ) -> Result<(), LoweringFault>
        ensures placed { OnOk result
            ((before : List program.Function) → spec.ArePlaced before self.old → spec.ArePlaced (before ++ reaching.kept is_reached (function_of function.now) ∷ []) self.new) }
        ensures full { IfErr result (λ fault. (before : List program.Function) → spec.ArePlaced before self.old →
            IsFull (length (spec.all_locals before) + length (reaching.kept is_reached (function_of function.now)).locals + self.old.sites + print_count (statement_of function.now.body)) fault) }
    {
        let homes = self.place_all(alloc, kept_locals(is_reached, function))?;
        let site = self.sites;
        self.rooms.push(Room { homes, site })?;
        self.sites = count_prints(&function.body, site)?;
        Ok(())
    }
}

/// The locals of a function that the thread reaches; one that it does not reach has none here.
pub fn kept_locals(is_reached: bool, function: &Function) -> &[LocalVariable]
    ensures { result.now ≡ (reaching.kept is_reached (function_of function.now)).locals }
{
    if is_reached { &function.locals } else { &[] }
}

/// The rooms of these functions, as they are marked.
fn place_functions(
    alloc: Global,
    functions: &[Function],
    marks: &[bool],
) -> Result<Rooms, LoweringFault>
    ensures placed { IfOk result (λ r. spec.ArePlaced (reaching.with_marks marks.now (map function_of functions.now)) r) }
    ensures full { IfErr result (IsFull
        (length (spec.all_locals (reaching.with_marks marks.now (map function_of functions.now))) + prints (map function_of functions.now))) }
{
    let mut rooms = Rooms {
        rooms: Items::new(alloc),
        variables: Items::new(alloc),
        arrays: Items::new(alloc),
        sites: 0,
    };
    for (number, function) in functions.iter().enumerate() {
        rooms.add(alloc, has(marks, number), function)?;
    }
    Ok(rooms)
}

/// The rooms of the functions whose code stands in that of the function root, which are those that it reaches.
pub fn rooms_of(alloc: Global, program: &Program, root: usize) -> Result<Housing, LoweringFault>
    ensures housing { IfOk result (λ h. IsResolved (program_of program.now) → housing.IsHousing (program_of program.now) root h.rooms) }
    ensures names { IfOk result (λ h. IsResolved (program_of program.now) → housing.AreNames (program_of program.now) root h.rooms (map string_bytes h.names)) }
    ensures full { IfErr result (λ fault. IsResolved (program_of program.now) →
        IsFull (local_elements (program_of program.now).functions root + 3 * function_weight (program_of program.now).functions root + print_sites (program_of program.now)) fault) }
{
    let functions = program.functions.as_slice();
    let marks = marks_of(alloc, functions, root)?;
    let names = names_of(alloc, functions, marks.as_slice())?;
    let rooms = place_functions(alloc, functions, marks.as_slice())?;
    Ok(Housing { rooms, names })
}

/// A copy of the room of the function of that number. One that is none of them has no locals.
pub fn room_of(alloc: Global, rooms: &[Room], number: usize) -> Result<Room, AllocError>
    ensures homes { IfOk result (λ r. r.homes ≡ housing.homes_there (slice_get rooms.now number)) }
    ensures site { IfOk result (λ r. r.site ≡ housing.site_there (slice_get rooms.now number)) }
{
    let Some(room) = at(rooms, number) else {
        return Ok(Room {
            homes: Items::new(alloc),
            site: 0,
        });
    };
    let homes = Items::from_slice(alloc, room.homes.as_slice())?;
    let site = room.site;
    Ok(Room { homes, site })
}
