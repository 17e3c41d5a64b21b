/// Where a worker may be held, so that a test can let others go first.
pub trait Gate {
    /// Before a call of the session.
    fn before_call(&self, session: u64);

    /// In each round of a recovery that the session asked for, once the desk has paused and before the plan is made.
    fn between(&self, session: u64);
}

/// A gate that holds nobody.
#[derive(Clone, Copy)]
pub struct NoGate;

impl Gate for NoGate {
    fn before_call(&self, _: u64) {}

    fn between(&self, _: u64) {}
}
