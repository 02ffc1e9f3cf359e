//! What a worker tells before it fires a host.

/// Is told of each host that a worker is about to fire. A test may hold a worker here.
pub trait Gate {
    fn at_host(&self, worker: u32, host: u32);
}

/// Holds nobody.
#[derive(Clone, Copy)]
pub struct OpenGate;

impl Gate for OpenGate {
    fn at_host(&self, _worker: u32, _host: u32) {}
}
