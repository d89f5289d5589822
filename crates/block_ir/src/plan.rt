// Plans: when and where each operation works.

use sqlite_items::Items;

/// The plan of a block.
pub struct BlockPlan {
    /// For each operation the state in which it starts, counted from 0.
    pub starts: Items<u64>,
    /// The number of states, at least 1.
    pub states: u64,
    /// For each operation the number of its unit among those of its kind.
    pub units: Items<u32>,
    /// For each operation the register that keeps its value past its last state, where one does.
    pub registers: Items<Option<u32>>,
}

/// The plan of a stage; an act takes one state.
pub enum StagePlan {
    Run(BlockPlan),
    Act,
}

/// The plan of a thread's code: one for each stage, and how many registers there are.
pub struct Planned {
    pub stages: Items<StagePlan>,
    pub registers: u32,
}

// A drop that is written here is proved here; a derived one is proved again in each crate that drops the type.

impl Drop for BlockPlan {
    fn drop(self) {
        let BlockPlan {
            starts: _,
            states: _,
            units: _,
            registers: _,
        } = self;
    }
}

impl Drop for StagePlan {
    fn drop(self) {
        match self {
            StagePlan::Run(_) => {}
            StagePlan::Act => {}
        }
    }
}

impl Drop for Planned {
    fn drop(self) {
        let Planned {
            stages: _,
            registers: _,
        } = self;
    }
}
