// Accesses to globals.

/// A scalar or an element of a global: the number of the global in order of declaration, and the index, which is 0 for a
/// scalar.
#[derive(Clone, Copy)]
pub struct Location {
    pub global: u32,
    pub index: u64,
}

/// An access to a global: where, and whether it is written or read.
#[derive(Clone, Copy)]
pub struct Access {
    pub location: Location,
    pub written: bool,
}
