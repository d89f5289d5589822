// What a name of a module is declared as.

/// What a signal is declared as.
#[derive(Clone, Copy)]
pub enum SignalClass {
    Input,
    Output,
    Wire,
    Register,
}

/// What a name of a module is declared as.
///
/// A width is in bits, and 0 where the declaration's range is wider than 64 bits.
#[derive(Clone, Copy)]
pub enum Kind {
    /// The port `clk`.
    Clock,
    Signal {
        class: SignalClass,
        width: u64,
        has_range: bool,
    },
    /// The words are numbered from 0 to `last`.
    Memory {
        width: u64,
        last: u64,
    },
    Instance,
}
