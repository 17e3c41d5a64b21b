ghost use Rattle.std.specs.Prelude.{ℕ, Bool, IsTrue};

/// Tells the time.
pub trait Clock {
    /// Whether it may tell this time.
    ghost may_tell: { Self → ℕ → Bool };

    /// Milliseconds since 1970.
    fn now(&self) -> u64
        ensures { IsTrue (may_tell self.now result) };
}
