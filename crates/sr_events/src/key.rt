ghost use Rattle.std.specs.Prelude.{◌≡◌, ◌+◌, ◌*◌, ◌/◌, ◌%◌, ◌^◌, ◌<◌, ◌≤◌};

use mio::Token;

/// The token under which a waker of the poll is registered.
pub const WAKER: Token = Token(0);

/// The token of the listener.
pub(crate) const LISTENER: Token = Token(1);

/// How many numbers a half of a token can be.
const HALF: usize = 1 << 32;

/// What a connection is registered as: the number of its slot, and the generation that the slot had when it came there.
///
/// No generation is 0, so each connection's token is above those of the waker and of the listener.
#[derive(Clone, Copy, Debug, PartialEq, Eq)]
pub(crate) struct Key {
    pub generation: u32,
    pub slot: u32,
}

impl Key {
    /// The token: its upper half is the generation, its lower half the slot.
    pub fn token(self) -> Token
        ensures { result.0 ≡ self.generation * 2 ^ 32 + self.slot }
    {
        Token(self.generation as usize * HALF + self.slot as usize)
    }

    /// What has this token.
    pub fn of(token: Token) -> Key
        ensures whole { token.0 ≡ result.generation * 2 ^ 32 + result.slot }
        ensures generation { result.generation ≡ token.0 / 2 ^ 32 }
        ensures slot { result.slot ≡ token.0 % 2 ^ 32 }
    {
        Key {
            generation: (token.0 / HALF) as u32,
            slot: (token.0 % HALF) as u32,
        }
    }
}

/// The generation after this one. After the greatest it is 1 again.
pub(crate) fn generation_after(generation: u32) -> u32
    ensures above { 1 ≤ result }
    ensures next { generation + 1 < 2 ^ 32 → result ≡ generation + 1 }
    ensures again { generation + 1 ≡ 2 ^ 32 → result ≡ 1 }
{
    match generation.checked_add(1) {
        Some(next) => next,
        None => 1,
    }
}
