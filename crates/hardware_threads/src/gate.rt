// What each worker calls before and after its closed cycles.

/// Called by each worker, by its number, before and after its closed cycles. It changes nothing that a contract sees.
pub trait Gate {
    fn before_closed(&self, worker: u32);

    fn after_closed(&self, worker: u32);
}

/// Does nothing.
pub struct OpenGate;

impl Gate for OpenGate {
    fn before_closed(&self, _worker: u32) {}

    fn after_closed(&self, _worker: u32) {}
}
