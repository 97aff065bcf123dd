/// What a worker passes before each packet. A gate may hold it up, and changes nothing else.
pub trait Gate {
    /// Lets the worker of `core` go on, which has worked so many packets before.
    fn pass(&self, core: u8, worked: u64);
}

/// A gate that is always open.
#[derive(Clone, Copy, Debug)]
pub struct OpenGate;

impl Gate for OpenGate {
    fn pass(&self, _core: u8, _worked: u64) {}
}
