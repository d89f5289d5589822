// The operations of a block as a schedule sees them.

ghost use Rattle.std.specs.Prelude.{◌≡◌, ◌≤◌, ℕ, IfOk};
ghost use Rattle.op_graph.specs.Reduced.{writes};
ghost use Rattle.op_graph.specs.Graph.{node_of, nodes_of, value_below, operator_kind, is_simple, latency_of, UseEarlier};

use block_ir::block::Operation;
use block_ir::operand::{Operand, Source};
use c_program::tree::BinaryOperator;
use hls_ints::CType;
use std::alloc::{AllocError, Global};

/// What an operation needs: logic, a unit, or an access of an object.
#[derive(Clone, Copy, PartialEq, Eq)]
pub enum Kind {
    /// Logic alone, which two operations of one state may hand on once.
    Simple,
    /// A multiplier of so many bits.
    Multiply { width: u32 },
    /// A divider of so many bits, for a quotient or a remainder.
    Divide { width: u32, signed: bool },
    /// An access of a global.
    Global { object: u32, writes: bool },
    /// An access of a local array.
    Array { object: u32, writes: bool },
}

/// An operation of a block, and the earlier ones whose values it uses.
#[derive(Clone, Copy)]
pub struct Node {
    pub kind: Kind,
    /// The left operand of an operator, or the index of an access.
    pub left: Option<usize>,
    /// The right operand of an operator, or what is written.
    pub right: Option<usize>,
}

/// The operations of a block in their order. The only error is want of memory.
pub fn nodes(alloc: Global, operations: &[Operation]) -> Result<Vec<Node>, AllocError>
    ensures nodes { IfOk result (λ nodes. nodes.items ≡ nodes_of operations.now) }
    ensures earlier { IfOk result (λ nodes. UseEarlier nodes.items) }
{
    let mut nodes = Vec::with_capacity(alloc, operations.len())?;
    for (number, operation) in operations.iter().enumerate() {
        nodes.push(make_node(number, operation))?;
    }
    Ok(nodes)
}

fn make_node(number: usize, operation: &Operation) -> Node
    ensures { result ≡ node_of number operation.now }
{
    match operation {
        Operation::Unary { operand, .. } => Node {
            kind: Kind::Simple,
            left: value_below(number, operand),
            right: None,
        },
        Operation::Binary {
            operator,
            ty,
            left,
            right,
        } => Node {
            kind: operator_kind(*operator, *ty),
            left: value_below(number, left),
            right: value_below(number, right),
        },
        Operation::ReadGlobal { global, index, .. } => Node {
            kind: global_kind(*global, false),
            left: value_below(number, index),
            right: None,
        },
        Operation::WriteGlobal {
            global,
            index,
            value,
            ..
        } => Node {
            kind: global_kind(*global, true),
            left: value_below(number, index),
            right: value_below(number, value),
        },
        Operation::ReadArray { array, index, .. } => Node {
            kind: array_kind(*array, false),
            left: value_below(number, index),
            right: None,
        },
        Operation::WriteArray {
            array,
            index,
            value,
            ..
        } => Node {
            kind: array_kind(*array, true),
            left: value_below(number, index),
            right: value_below(number, value),
        },
    }
}

fn global_kind(object: u32, writes: bool) -> Kind
    ensures { result ≡ Kind.Global object writes }
{
    Kind::Global { object, writes }
}

fn array_kind(object: u32, writes: bool) -> Kind
    ensures { result ≡ Kind.Array object writes }
{
    Kind::Array { object, writes }
}

// The kind of an operator that works in a type.
fn operator_kind(operator: BinaryOperator, ty: CType) -> Kind
    ensures { result ≡ operator_kind operator ty }
{
    match operator {
        BinaryOperator::Multiply => Kind::Multiply { width: ty.bits() },
        BinaryOperator::Divide | BinaryOperator::Remainder => Kind::Divide {
            width: ty.bits(),
            signed: ty.is_signed(),
        },
        _ => Kind::Simple,
    }
}

// The operation whose value the operand is, if it is one of the first `number`.
fn value_below(number: usize, operand: &Operand) -> Option<usize>
    ensures { result ≡ value_below number operand.now.source }
{
    match operand.source {
        Source::Constant(_, _) => None,
        Source::Variable(_, _) => None,
        Source::Value(value, _) => {
            let value = value as usize;
            if value < number { Some(value) } else { None }
        }
    }
}

impl Kind {
    /// Whether it is logic alone.
    pub fn is_simple(self) -> bool
        ensures { result ≡ is_simple self }
    {
        matches!(self, Kind::Simple)
    }

    /// Whether it writes a global or a local array.
    pub fn writes(self) -> bool
        ensures { result ≡ writes self }
    {
        match self {
            Kind::Global { writes, .. } | Kind::Array { writes, .. } => writes,
            _ => false,
        }
    }

    /// In how many states the operation works: 2 for a product and for a read of a global, 8 for a quotient or a
    /// remainder, and 1 for all else.
    pub fn latency(self) -> u32
        ensures value { result ≡ latency_of self }
        ensures most { result ≤ 8 }
    {
        match self {
            Kind::Simple => 1,
            Kind::Multiply { .. } => 2,
            Kind::Divide { .. } => 8,
            Kind::Global { writes, .. } => { if writes { 1 } else { 2 } }
            Kind::Array { .. } => 1,
        }
    }
}
