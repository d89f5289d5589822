// The tree of a text: each part of it is one phrase of the grammar, and the parts stand in the text's order.

use crate::name::{Identifier, Quoted};
use sqlite_items::Items;

/// `width'd value`, or `width'sd value` (IEEE 1364-2005, 3.5.1).
#[derive(Clone, Copy)]
pub struct Constant {
    pub width: u64,
    pub value: u64,
}

/// An operator between two names that reads both as numbers from 0.
#[derive(Clone, Copy, PartialEq, Eq)]
pub enum BinaryOperator {
    Add,
    Subtract,
    Multiply,
    And,
    Or,
    Xor,
    Equal,
    Less,
    ShiftLeft,
    ShiftRight,
}

/// The operator of a guarded division.
#[derive(Clone, Copy)]
pub enum DivisionOperator {
    Quotient,
    Remainder,
}

/// The right side of a continuous assignment (IEEE 1364-2005, 5.1).
pub enum Expression {
    /// `of`
    Copy(Identifier),
    /// `width'd value`
    Constant(Constant),
    /// `~of`
    BitwiseNot(Identifier),
    /// `left operator right`
    Binary {
        operator: BinaryOperator,
        left: Identifier,
        right: Identifier,
    },
    /// `$signed(left) < $signed(right)`
    SignedLess {
        left: Identifier,
        right: Identifier,
    },
    /// `$signed(left) >>> right`
    ArithmeticShiftRight {
        left: Identifier,
        right: Identifier,
    },
    /// `condition ? if_true : if_false`
    Conditional {
        condition: Identifier,
        if_true: Identifier,
        if_false: Identifier,
    },
    /// `(tested == zero) ? guarded : left operator right`
    Division {
        tested: Identifier,
        zero: Constant,
        guarded: Constant,
        operator: DivisionOperator,
        left: Identifier,
        right: Identifier,
    },
    /// `(tested == zero) ? guarded : $signed(left) operator $signed(right)`, where `guarded` has `'sd`
    SignedDivision {
        tested: Identifier,
        zero: Constant,
        guarded: Constant,
        operator: DivisionOperator,
        left: Identifier,
        right: Identifier,
    },
    /// `(tested < bound) ? memory[address] : guarded`
    MemoryRead {
        tested: Identifier,
        bound: Constant,
        memory: Identifier,
        address: Identifier,
        guarded: Constant,
    },
    /// `of[bit]`
    BitSelect {
        of: Identifier,
        bit: u64,
    },
    /// `of[high:low]`
    PartSelect {
        of: Identifier,
        high: u64,
        low: u64,
    },
    /// `{part, part}`, the first part with the highest bits
    Concatenation(Items<Identifier>),
    /// `{count{of}}`
    Replication {
        count: u64,
        of: Identifier,
    },
}

/// The direction of a port.
#[derive(Clone, Copy)]
pub enum Direction {
    Input,
    Output,
}

/// `input wire [high:0] name`; without `high` there is no range.
pub struct Port {
    pub direction: Direction,
    pub high: Option<u64>,
    pub name: Identifier,
}

/// `name = value;` for a register, or `name[word] = value;` for a word of a memory.
pub struct InitialConstant {
    pub name: Identifier,
    pub word: Option<u64>,
    pub value: Constant,
}

/// A value of `$write`: `name`, or `$signed(name)`.
pub enum WriteArgument {
    Unsigned(Identifier),
    Signed(Identifier),
}

/// A statement of an always block.
#[derive(Drop)]
pub enum Statement {
    /// `register <= source;`
    Set {
        register: Identifier,
        source: Identifier,
    },
    /// `memory[address] <= source;`
    Store {
        memory: Identifier,
        address: Identifier,
        source: Identifier,
    },
    /// `if (condition) begin .. end`
    If {
        condition: Identifier,
        body: Items<Statement>,
    },
    /// `$write("text", argument, argument);`
    Write {
        text: Quoted,
        arguments: Items<WriteArgument>,
    },
}

/// `.port(signal)`
pub struct Connection {
    pub port: Identifier,
    pub signal: Identifier,
}

/// `wire [high:0] name;`
pub struct Wire {
    pub high: Option<u64>,
    pub name: Identifier,
}

/// `reg [high:0] name;`
pub struct Register {
    pub high: Option<u64>,
    pub name: Identifier,
}

/// `reg [high:0] name [0:last];`
pub struct Memory {
    pub high: u64,
    pub name: Identifier,
    pub last: u64,
}

/// `assign target = value;`
pub struct Assign {
    pub target: Identifier,
    pub value: Expression,
}

/// `initial begin .. end`
pub struct Initial {
    pub constants: Items<InitialConstant>,
}

/// `always @(posedge clk) begin .. end`
pub struct Always {
    pub body: Items<Statement>,
}

/// `module_name name (.port(signal), .port(signal));`
pub struct Instance {
    pub module_name: Identifier,
    pub name: Identifier,
    pub connections: Items<Connection>,
}

/// An item of a module.
pub enum Item {
    Wire(Wire),
    Register(Register),
    Memory(Memory),
    Assign(Assign),
    Initial(Initial),
    Always(Always),
    Instance(Instance),
}

/// `module name (port, port); item item endmodule`
pub struct Module {
    pub name: Identifier,
    pub ports: Items<Port>,
    pub items: Items<Item>,
}

/// The modules of a text. A text reads as at most one net.
pub struct Net {
    pub modules: Items<Module>,
}

// A drop that is written here is proved here; a derived one is proved again in each crate that drops the type.

impl Drop for Expression {
    fn drop(self) {
        match self {
            Expression::Copy(_) => {}
            Expression::Constant(_) => {}
            Expression::BitwiseNot(_) => {}
            Expression::Binary {
                operator: _,
                left: _,
                right: _,
            } => {}
            Expression::SignedLess { left: _, right: _ } => {}
            Expression::ArithmeticShiftRight { left: _, right: _ } => {}
            Expression::Conditional {
                condition: _,
                if_true: _,
                if_false: _,
            } => {}
            Expression::Division {
                tested: _,
                zero: _,
                guarded: _,
                operator: _,
                left: _,
                right: _,
            } => {}
            Expression::SignedDivision {
                tested: _,
                zero: _,
                guarded: _,
                operator: _,
                left: _,
                right: _,
            } => {}
            Expression::MemoryRead {
                tested: _,
                bound: _,
                memory: _,
                address: _,
                guarded: _,
            } => {}
            Expression::BitSelect { of: _, bit: _ } => {}
            Expression::PartSelect {
                of: _,
                high: _,
                low: _,
            } => {}
            Expression::Concatenation(_) => {}
            Expression::Replication { count: _, of: _ } => {}
        }
    }
}

impl Drop for Port {
    fn drop(self) {
        let Port {
            direction: _,
            high: _,
            name: _,
        } = self;
    }
}

impl Drop for InitialConstant {
    fn drop(self) {
        let InitialConstant {
            name: _,
            word: _,
            value: _,
        } = self;
    }
}

impl Drop for WriteArgument {
    fn drop(self) {
        match self {
            WriteArgument::Unsigned(_) => {}
            WriteArgument::Signed(_) => {}
        }
    }
}

impl Drop for Connection {
    fn drop(self) {
        let Connection { port: _, signal: _ } = self;
    }
}

impl Drop for Wire {
    fn drop(self) {
        let Wire { high: _, name: _ } = self;
    }
}

impl Drop for Register {
    fn drop(self) {
        let Register { high: _, name: _ } = self;
    }
}

impl Drop for Memory {
    fn drop(self) {
        let Memory {
            high: _,
            name: _,
            last: _,
        } = self;
    }
}

impl Drop for Assign {
    fn drop(self) {
        let Assign {
            target: _,
            value: _,
        } = self;
    }
}

impl Drop for Initial {
    fn drop(self) {
        let Initial { constants: _ } = self;
    }
}

impl Drop for Always {
    fn drop(self) {
        let Always { body: _ } = self;
    }
}

impl Drop for Instance {
    fn drop(self) {
        let Instance {
            module_name: _,
            name: _,
            connections: _,
        } = self;
    }
}

impl Drop for Item {
    fn drop(self) {
        match self {
            Item::Wire(_) => {}
            Item::Register(_) => {}
            Item::Memory(_) => {}
            Item::Assign(_) => {}
            Item::Initial(_) => {}
            Item::Always(_) => {}
            Item::Instance(_) => {}
        }
    }
}

impl Drop for Module {
    fn drop(self) {
        let Module {
            name: _,
            ports: _,
            items: _,
        } = self;
    }
}

impl Drop for Net {
    fn drop(self) {
        let Net { modules: _ } = self;
    }
}
