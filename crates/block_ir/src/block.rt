// Basic blocks.

use crate::operand::Operand;
use c_program::tree::{BinaryOperator, UnaryOperator};
use hls_ints::CType;
use sqlite_items::Items;

/// An operation: an operator, or an access of a global or of a local array.
///
/// An operator converts its operands to the type in which it works, but for the count of a shift. Operations are total:
/// where C leaves a step undefined they give what the hardware gives. So an access of a global or of a local array says
/// how many elements that has; a scalar has one.
pub enum Operation {
    Unary {
        operator: UnaryOperator,
        ty: CType,
        operand: Operand,
    },
    Binary {
        operator: BinaryOperator,
        ty: CType,
        left: Operand,
        right: Operand,
    },
    ReadGlobal {
        global: u32,
        length: u64,
        index: Operand,
    },
    WriteGlobal {
        global: u32,
        length: u64,
        index: Operand,
        value: Operand,
    },
    ReadArray {
        array: u32,
        length: u64,
        index: Operand,
    },
    WriteArray {
        array: u32,
        length: u64,
        index: Operand,
        value: Operand,
    },
}

/// What a variable holds after the block.
pub struct Final {
    pub variable: u32,
    pub value: Operand,
}

/// Where a block leads.
#[derive(Drop)]
pub enum Next {
    Jump(usize),
    /// To the first stage where the value isn't 0.
    Branch {
        test: Operand,
        nonzero: usize,
        zero: usize,
    },
}

/// Operations in their order, what variables hold at the end, where it leads, and how many steps of the C program it
/// takes, none of them an act.
#[derive(Drop)]
pub struct Block {
    pub operations: Items<Operation>,
    pub finals: Items<Final>,
    pub next: Next,
    pub steps: u32,
}

// A drop that is written here is proved here; a derived one is proved again in each crate that drops the type.

impl Drop for Operation {
    fn drop(self) {
        match self {
            Operation::Unary {
                operator: _,
                ty: _,
                operand: _,
            } => {}
            Operation::Binary {
                operator: _,
                ty: _,
                left: _,
                right: _,
            } => {}
            Operation::ReadGlobal {
                global: _,
                length: _,
                index: _,
            } => {}
            Operation::WriteGlobal {
                global: _,
                length: _,
                index: _,
                value: _,
            } => {}
            Operation::ReadArray {
                array: _,
                length: _,
                index: _,
            } => {}
            Operation::WriteArray {
                array: _,
                length: _,
                index: _,
                value: _,
            } => {}
        }
    }
}

impl Drop for Final {
    fn drop(self) {
        let Final {
            variable: _,
            value: _,
        } = self;
    }
}
