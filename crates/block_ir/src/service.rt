// The kinds of cores that acts ask.

/// The kinds of cores that acts ask, in the order of the cores.
#[derive(Clone, Copy)]
pub enum Service {
    Mutex,
    Barrier,
    /// The core of the thread ids.
    ThreadIds,
    /// The core that writes the output.
    Printer,
}
