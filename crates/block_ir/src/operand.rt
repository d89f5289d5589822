// What operations work on.

use hls_ints::CType;
use sqlite_items::Items;

/// Where a value comes from, with its type.
#[derive(Clone, Copy, PartialEq, Eq, Debug)]
pub enum Source {
    /// A constant of a type.
    Constant(CType, i128),
    /// A scalar variable of the thread, as the block found it.
    Variable(u32, CType),
    /// The value of an earlier operation of the block.
    Value(u32, CType),
}

/// A value, converted to these types one after the other (C99 6.3.1.3). A conversion is wires alone: it takes no
/// operation and no state.
#[derive(Drop)]
pub struct Operand {
    pub source: Source,
    pub conversions: Items<CType>,
}
