ghost use Rattle.std.specs.Prelude.{IsTrue, List, ℕ, Bool, Option, Some, None, IfOk, IsErrOf, string_bytes};

/// Why a file gave no text.
#[derive(Clone, Copy, Debug, PartialEq, Eq)]
pub enum TextFault {
    /// It cannot be read, or it is not UTF-8.
    Unreadable,
    /// A failed allocation.
    Memory,
}

/// Reads files of text.
pub trait TextFiles {
    /// Whether the file at a path may hold this text, or none that can be read.
    ghost may_hold: { Self → List ℕ → Option (List ℕ) → Bool };

    /// The text of the file at a path.
    fn read_text(&mut self, path: &str) -> Result<String, TextFault>
        ensures ok { IfOk result (λ text. IsTrue (may_hold self.old path.now (Some (string_bytes text)))) }
        ensures unreadable { IsErrOf result TextFault.Unreadable → IsTrue (may_hold self.old path.now None) };
}
