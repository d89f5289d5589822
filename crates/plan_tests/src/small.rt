// Small blocks. Variable 0 stands for each variable that they read.
use block_ir::block::{Block, Final, Next, Operation};
use block_ir::code::{Act, Stage, ThreadCode};
use block_ir::operand::{Operand, Source};
use c_program::tree::BinaryOperator;
use hls_ints::CType;
use sqlite_items::Items;
use std::alloc::{AllocError, Global};

/// What an operation works on: the variable, the value of an operation, or a constant.
#[derive(Clone, Copy)]
pub enum Place {
    Local,
    Value(u32),
    Constant(i128),
}

/// An operation: an operator, or an access of a scalar global or of the first element of a local array of four, which
/// becomes 1.
pub enum Small {
    Binary(BinaryOperator, Place, Place),
    ReadGlobal(u32),
    WriteGlobal(u32, Place),
    ReadArray(u32),
    WriteArray(u32),
}

/// `x = (a * b + c * d) * e;`
pub const PRODUCTS: [Small; 4] = [
    Small::Binary(BinaryOperator::Multiply, Place::Local, Place::Local),
    Small::Binary(BinaryOperator::Multiply, Place::Local, Place::Local),
    Small::Binary(BinaryOperator::Add, Place::Value(0), Place::Value(1)),
    Small::Binary(BinaryOperator::Multiply, Place::Value(2), Place::Local),
];

fn operand(alloc: Global, place: Place) -> Operand {
    let source = match place {
        Place::Local => Source::Variable(0, CType::INT),
        Place::Value(number) => Source::Value(number, CType::INT),
        Place::Constant(number) => Source::Constant(CType::INT, number),
    };
    Operand {
        source,
        conversions: Items::new(alloc),
    }
}

fn operation(alloc: Global, small: &Small) -> Operation {
    let index = operand(alloc, Place::Constant(0));
    match small {
        Small::Binary(operator, left, right) => Operation::Binary {
            operator: *operator,
            ty: CType::INT,
            left: operand(alloc, *left),
            right: operand(alloc, *right),
        },
        Small::ReadGlobal(global) => Operation::ReadGlobal {
            global: *global,
            length: 1,
            index,
        },
        Small::WriteGlobal(global, place) => Operation::WriteGlobal {
            global: *global,
            length: 1,
            index,
            value: operand(alloc, *place),
        },
        Small::ReadArray(array) => Operation::ReadArray {
            array: *array,
            length: 4,
            index,
        },
        Small::WriteArray(array) => Operation::WriteArray {
            array: *array,
            length: 4,
            index,
            value: operand(alloc, Place::Constant(1)),
        },
    }
}

pub fn operations(alloc: Global, list: &[Small]) -> Result<Items<Operation>, AllocError> {
    let mut operations = Items::new(alloc);
    for small in list {
        operations.push(operation(alloc, small))?;
    }
    Ok(operations)
}

/// The operations, after which variable 0 has the value of one of them, or its own.
pub fn block(alloc: Global, list: &[Small], last: Option<u32>) -> Result<Block, AllocError> {
    let operations = operations(alloc, list)?;
    let mut finals = Items::new(alloc);
    if let Some(number) = last {
        finals.push(Final {
            variable: 0,
            value: operand(alloc, Place::Value(number)),
        })?;
    }
    Ok(Block {
        operations,
        finals,
        next: Next::Jump(1),
        steps: 1,
    })
}

pub fn add_return(stages: &mut Items<Stage>) -> Result<(), AllocError> {
    stages.push(Stage::Act {
        act: Act::Return,
        next: 0,
    })
}

/// The block, and the return of main behind it.
pub fn code(alloc: Global, list: &[Small], last: Option<u32>) -> Result<ThreadCode, AllocError> {
    let mut stages = Items::new(alloc);
    stages.push(Stage::Run(block(alloc, list, last)?))?;
    add_return(&mut stages)?;
    with_stages(alloc, stages)
}

/// A code of one variable.
pub fn with_stages(alloc: Global, stages: Items<Stage>) -> Result<ThreadCode, AllocError> {
    let variables = Items::from_slice(alloc, &[CType::INT])?;
    Ok(ThreadCode {
        argument: None,
        variables,
        names: Items::new(alloc),
        arrays: Items::new(alloc),
        stages,
    })
}
