/// What a run calls before each turn that a worker takes. It answers nothing, and no promise rests on it.
pub trait Gate {
    fn turn(&self, worker: u32);
}

/// The gate that lets every turn pass.
#[derive(Clone, Copy, Debug)]
pub struct OpenGate;

impl Gate for OpenGate {
    fn turn(&self, _worker: u32) {}
}
