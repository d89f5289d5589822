// When the operations of a pipelined loop work, and where their values are found.

ghost use Rattle.std.specs.Prelude.{◌≡◌};
ghost use Rattle.loop_datapath.specs.Times.{time_at, value_place};

use sqlite_items::Items;

/// The last state of an operation, and the registers that keep its value.
#[derive(Clone, Copy)]
pub struct OperationTime {
    /// The stage of its iteration, counted in intervals.
    pub stage: u32,
    /// The state within that stage, below the interval.
    pub phase: u32,
    /// The first of a chain of registers: it has the value in the round after the one that gave it, and the next one in
    /// the round after that.
    pub chain: u32,
}

/// The plan of a pipelined loop.
#[derive(Drop)]
pub struct LoopTimes {
    /// An iteration begins so many states after the one before.
    pub interval: u32,
    /// How many rounds an iteration takes, at least 1.
    pub stages: u32,
    pub operations: Items<OperationTime>,
    /// The first of the registers that tell, stage by stage, whether an iteration is in it.
    pub bits: u32,
}

/// A phase of a round in which so many iterations are ahead of the oldest one that has left nothing in the variables.
#[derive(Clone, Copy)]
pub struct RoundPhase {
    pub begun: u32,
    pub phase: u32,
}

/// Where the value of an operation is found: on its wire, or in a register for values.
#[derive(Clone, Copy)]
pub enum ValuePlace {
    Wire,
    Register(usize),
}

/// The time of an operation. One that has none is given the first state.
pub fn time_at(times: &LoopTimes, number: usize) -> OperationTime
    ensures { result ≡ time_at times.now.operations number }
{
    let list = times.operations.as_slice();
    list.get(number).copied().unwrap_or(OperationTime {
        stage: 0,
        phase: 0,
        chain: 0,
    })
}

/// Where the value of an operation is that it gives in the iteration `depth` behind the oldest one: on its wire where it is
/// just giving it, and else in the register of its chain that has come so far.
pub fn value_place(times: &LoopTimes, at: RoundPhase, depth: u32, number: usize) -> ValuePlace
    ensures { result ≡ value_place times.now.operations at.begun at.phase depth number }
{
    let time = time_at(times, number);
    let begun = u64::from(at.begun);
    let stage = u64::from(time.stage) + u64::from(depth);
    if stage == begun && time.phase == at.phase {
        return ValuePlace::Wire;
    }
    let lateness = if time.phase < at.phase { 0 } else { 1 };
    let age = begun.saturating_sub(stage + lateness);
    ValuePlace::Register(time.chain as usize + age as usize)
}
