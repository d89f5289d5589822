// Modules, signals and what drives them. A signal, a memory and an instance is named by its place in the lists of its
// module, counted from 0, and a module by its place in the netlist.

use sqlite_items::Items;
use verilog_tree::name::{Identifier, Quoted};
use verilog_tree::tree::{BinaryOperator, DivisionOperator};

/// The right side of a continuous assignment (IEEE 1364-2005, 5.1), over places.
pub enum Value {
    Copy(usize),
    Constant(u64),
    BitwiseNot(usize),
    Binary {
        operator: BinaryOperator,
        left: usize,
        right: usize,
    },
    SignedLess {
        left: usize,
        right: usize,
    },
    ArithmeticShiftRight {
        left: usize,
        right: usize,
    },
    Conditional {
        condition: usize,
        if_true: usize,
        if_false: usize,
    },
    /// 0 where the divisor is 0.
    Division {
        operator: DivisionOperator,
        left: usize,
        right: usize,
    },
    /// The same of two's complement numbers.
    SignedDivision {
        operator: DivisionOperator,
        left: usize,
        right: usize,
    },
    /// 0 where the address is past the last word.
    MemoryRead {
        memory: usize,
        address: usize,
    },
    /// Bits `low` to `high`.
    Select {
        of: usize,
        high: u64,
        low: u64,
    },
    /// The first part has the highest bits.
    Concatenation(Items<usize>),
    Replication {
        count: u64,
        of: usize,
    },
}

/// What gives a signal its number.
pub enum Source {
    /// An input port: the signal that the instance is connected to, and outermost the choice.
    Input,
    /// A register, with its initial constant.
    Register(u64),
    /// A wire or an output port with a continuous assignment.
    Assigned(Value),
    /// A wire or an output port that an instance drives, from a signal of the instance's module.
    Port { instance: usize, port: usize },
}

/// A port, a wire or a register of `width` bits, 1 to 64.
pub struct Signal {
    pub name: Identifier,
    pub width: u64,
    pub is_output: bool,
    pub source: Source,
}

/// A memory, with the initial constant of each word.
pub struct Memory {
    pub name: Identifier,
    pub width: u64,
    pub initial: Items<u64>,
}

/// A value of a `$write`.
#[derive(Clone, Copy, Debug, PartialEq, Eq)]
pub enum Argument {
    Unsigned(usize),
    Signed(usize),
}

/// What one statement of an edge does, where its conditions hold.
pub enum Effect {
    Set {
        register: usize,
        source: usize,
    },
    Store {
        memory: usize,
        address: usize,
        source: usize,
    },
    Write {
        text: Quoted,
        arguments: Items<Argument>,
    },
}

/// A statement under the conditions of the ifs round it, the outermost first.
pub struct Action {
    pub conditions: Items<usize>,
    pub effect: Effect,
}

/// An instance of an earlier module: for each input port and each output port of that module, in order, the signal of
/// this module that it is connected to.
pub struct Instance {
    pub name: Identifier,
    pub of: usize,
    pub inputs: Items<usize>,
    pub outputs: Items<usize>,
}

/// A module. Its input ports stand first among its signals, and its output ports last.
pub struct Module {
    pub name: Identifier,
    pub signals: Items<Signal>,
    pub memories: Items<Memory>,
    pub actions: Items<Action>,
    pub instances: Items<Instance>,
}

/// The modules, each after those that it has instances of.
pub struct Netlist {
    pub modules: Items<Module>,
}

// A drop that is written here is proved here; a derived one is proved again in each crate that drops the type.

impl Drop for Signal {
    fn drop(self) {
        let Signal {
            name: _,
            width: _,
            is_output: _,
            source: _,
        } = self;
    }
}

impl Drop for Memory {
    fn drop(self) {
        let Memory {
            name: _,
            width: _,
            initial: _,
        } = self;
    }
}

impl Drop for Action {
    fn drop(self) {
        let Action {
            conditions: _,
            effect: _,
        } = self;
    }
}

impl Drop for Instance {
    fn drop(self) {
        let Instance {
            name: _,
            of: _,
            inputs: _,
            outputs: _,
        } = self;
    }
}

impl Drop for Module {
    fn drop(self) {
        let Module {
            name: _,
            signals: _,
            memories: _,
            actions: _,
            instances: _,
        } = self;
    }
}

impl Drop for Value {
    fn drop(self) {
        match self {
            Value::Copy(_) => {}
            Value::Constant(_) => {}
            Value::BitwiseNot(_) => {}
            Value::Binary {
                operator: _,
                left: _,
                right: _,
            } => {}
            Value::SignedLess { left: _, right: _ } => {}
            Value::ArithmeticShiftRight { left: _, right: _ } => {}
            Value::Conditional {
                condition: _,
                if_true: _,
                if_false: _,
            } => {}
            Value::Division {
                operator: _,
                left: _,
                right: _,
            } => {}
            Value::SignedDivision {
                operator: _,
                left: _,
                right: _,
            } => {}
            Value::MemoryRead {
                memory: _,
                address: _,
            } => {}
            Value::Select {
                of: _,
                high: _,
                low: _,
            } => {}
            Value::Concatenation(_) => {}
            Value::Replication { count: _, of: _ } => {}
        }
    }
}

impl Drop for Source {
    fn drop(self) {
        match self {
            Source::Input => {}
            Source::Register(_) => {}
            Source::Assigned(_) => {}
            Source::Port {
                instance: _,
                port: _,
            } => {}
        }
    }
}

impl Drop for Effect {
    fn drop(self) {
        match self {
            Effect::Set {
                register: _,
                source: _,
            } => {}
            Effect::Store {
                memory: _,
                address: _,
                source: _,
            } => {}
            Effect::Write {
                text: _,
                arguments: _,
            } => {}
        }
    }
}

impl Drop for Netlist {
    fn drop(self) {
        let Netlist { modules: _ } = self;
    }
}
