// The code of a thread.

use crate::block::Block;
use hls_ints::CType;
use sqlite_items::Items;

/// What an act works on: a constant, or a scalar variable.
#[derive(Clone, Copy, PartialEq, Eq, Debug)]
pub enum ActOperand {
    Constant(CType, i128),
    Variable(u32, CType),
}

/// What a thread asks of a core, or the return of its outermost function. Objects are numbered in order of declaration,
/// the elements of an array by index.
pub enum Act {
    /// The output of a printf, by the number of its site in the text.
    Print {
        site: u32,
        values: Items<ActOperand>,
    },
    Create {
        thread: ActOperand,
        argument: ActOperand,
    },
    Join {
        thread: ActOperand,
    },
    MutexInit {
        mutex: ActOperand,
    },
    MutexDestroy {
        mutex: ActOperand,
    },
    MutexLock {
        mutex: ActOperand,
    },
    MutexUnlock {
        mutex: ActOperand,
    },
    BarrierInit {
        barrier: ActOperand,
        count: ActOperand,
    },
    BarrierDestroy {
        barrier: ActOperand,
    },
    BarrierWait {
        barrier: ActOperand,
    },
    Return,
}

/// A block, or an act and the stage after it.
#[derive(Drop)]
pub enum Stage {
    Run(Block),
    Act { act: Act, next: usize },
}

/// A local array.
#[derive(Clone, Copy, PartialEq, Eq, Debug)]
pub struct Array {
    pub ty: CType,
    pub length: u64,
}

/// The code of a thread function, all calls inlined. It begins with the first stage.
#[derive(Drop)]
pub struct ThreadCode {
    /// The variable that has the argument of the create at the start; main has none.
    pub argument: Option<u32>,
    /// The types of the scalar variables.
    pub variables: Items<CType>,
    /// For each variable the name of the C local that it is; empty where it is none.
    pub names: Items<String>,
    pub arrays: Items<Array>,
    pub stages: Items<Stage>,
}

// A drop that is written here is proved here; a derived one is proved again in each crate that drops the type.

impl Drop for Act {
    fn drop(self) {
        match self {
            Act::Print { site: _, values: _ } => {}
            Act::Create {
                thread: _,
                argument: _,
            } => {}
            Act::Join { thread: _ } => {}
            Act::MutexInit { mutex: _ } => {}
            Act::MutexDestroy { mutex: _ } => {}
            Act::MutexLock { mutex: _ } => {}
            Act::MutexUnlock { mutex: _ } => {}
            Act::BarrierInit {
                barrier: _,
                count: _,
            } => {}
            Act::BarrierDestroy { barrier: _ } => {}
            Act::BarrierWait { barrier: _ } => {}
            Act::Return => {}
        }
    }
}
