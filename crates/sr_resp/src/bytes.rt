ghost use Rattle.std.specs.Prelude.{◌≡◌, ◌≤◌, length, IfOk};
ghost use Rattle.sr_ids.specs.Spelling.{spelling};

use sr_bytes::Name;
use sr_ids::{Id, write_id};
use std::alloc::{AllocError, Global};
use std::marker::Model;

/// The bytes of a bulk string. At most 23, or the spelling of an entry id, need no memory.
#[derive(Drop)]
pub(crate) struct Bytes {
    kept: Kept,
}

#[derive(Drop)]
enum Kept {
    Short { text: [u8; 23], len: u8 },
    Long(Name),
    Id(Id),
}

impl Model for Bytes {
    ghost use Rattle.std.specs.Prelude.{List, ℕ};

    ghost Value = { List ℕ };

    ghost use Rattle.sr_resp.specs.steps.Bytes.{bytes_of, IsInPlace};

    ghost view = { λ b. bytes_of b.kept };

    ghost invariant = { λ b. IsInPlace b.kept };
}

impl Bytes {
    /// These bytes, of which there are at most 23. Takes no memory.
    pub(crate) fn short(bytes: &[u8]) -> Bytes
        requires { length bytes.now ≤ 23 }
        ensures { result ≡ bytes.now }
    {
        let mut text = [0; 23];
        text[..bytes.len()].copy_from_slice(bytes);
        Bytes {
            kept: Kept::Short {
                text,
                len: bytes.len() as u8,
            },
        }
    }

    /// The spelling of an id. Takes no memory.
    pub(crate) fn id(id: Id) -> Bytes
        ensures { result ≡ spelling id }
    {
        Bytes { kept: Kept::Id(id) }
    }

    /// The bytes of a name. Takes no memory.
    pub(crate) fn long(name: Name) -> Bytes
        ensures { result ≡ name }
    {
        Bytes {
            kept: Kept::Long(name),
        }
    }

    /// These bytes. More than 23 take memory.
    pub(crate) fn of(alloc: Global, bytes: &[u8]) -> Result<Bytes, AllocError>
        ensures { IfOk result (λ b. b ≡ bytes.now) }
    {
        if bytes.len() <= 23 {
            return Ok(Bytes::short(bytes));
        }
        Ok(Bytes::long(Name::new(Vec::from_slice(alloc, bytes)?)))
    }

    /// The bytes. Those of an id are written to the front of `spelled`.
    pub(crate) fn as_slice<'a>(&'a self, spelled: &'a mut [u8; 41]) -> &'a [u8]
        ensures { result.now ≡ self.now }
    {
        match &self.kept {
            Kept::Short { text, len } => &text[..*len as usize],
            Kept::Long(name) => name.as_slice(),
            Kept::Id(id) => {
                let len = write_id(*id, spelled);
                &spelled[..len]
            }
        }
    }

    /// A copy. An id is copied as an id, and only a name takes memory.
    pub(crate) fn copy(&self, alloc: Global) -> Result<Bytes, AllocError>
        ensures { IfOk result (λ b. b ≡ self.now) }
    {
        match &self.kept {
            Kept::Short { text, len } => Ok(Bytes::short(&text[..*len as usize])),
            Kept::Long(name) => Ok(Bytes::long(name.copy(alloc)?)),
            Kept::Id(id) => Ok(Bytes::id(*id)),
        }
    }
}
