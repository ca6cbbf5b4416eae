//! What is told of each test that a worker begins.

/// Is told of each test before it begins. Workers call it side by side, and hold nothing then that
/// another worker waits for. So a gate may hold a worker back, but it answers nothing, and what a
/// run computes doesn't depend on it.
pub trait Gate: Sync {
    /// The worker of this number is about to test the row of this rank.
    fn before_test(&self, worker: u32, rank: u32);
}

/// A gate that does nothing.
#[derive(Clone, Copy, Debug, Default)]
pub struct OpenGate;

impl Gate for OpenGate {
    fn before_test(&self, _worker: u32, _rank: u32) {}
}

#[cfg(test)]
mod tests {
    use super::*;

    // Passes through any gate.
    fn pass<G: Gate>(gate: &G) {
        gate.before_test(1, 0);
    }

    #[test]
    fn passes_an_open_gate() {
        pass(&OpenGate);
    }
}
