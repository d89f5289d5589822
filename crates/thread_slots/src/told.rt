// What cores of acts tell a thread that waits.

/// Wires that show what is told, where a core is needed, and else 0.
#[derive(Clone, Copy)]
pub struct Told {
    /// Whether the barrier at which the thread meets others holds it.
    pub barred: usize,
    /// Whether the thread has been created, and not ended since.
    pub runs: usize,
    /// The argument of its create, of 64 bits.
    pub argument: usize,
}
