ghost use Rattle.std.specs.Prelude.{◌≡◌, ◌<◌, length, All, IfOk};
ghost use Rattle.sr_resp.specs.Stages.{words_in, IsBefore};

use crate::stage::WordBounds;
use sr_bytes::{Words, packed_len};
use std::alloc::{AllocError, Global};
use std::marker::Model;

/// The words of a request, at least one.
#[derive(Drop)]
pub struct Request {
    words: Words,
}

impl Model for Request {
    ghost use Rattle.std.specs.Prelude.{List, ℕ, ◌<◌, length};

    ghost Value = { List (List ℕ) };

    ghost view = { λ r. r.words };

    ghost invariant = { λ r. 0 < length r.words };
}

impl Request {
    /// The request of the words at these places of its bytes.
    pub fn gather(alloc: Global, bytes: &[u8], places: &[WordBounds]) -> Result<Request, AllocError>
        requires some { 0 < length places.now }
        requires within { All (IsBefore (length bytes.now)) places.now }
        ensures { IfOk result (λ request. request ≡ words_in bytes.now places.now) }
    {
        let mut words = Words::with_room(alloc, room_for(bytes, places))?;
        for place in places {
            words.add(&bytes[place.start..place.end])?;
        }
        Ok(Request { words })
    }

    /// Gives its words out. Takes no memory.
    pub fn into_words(self) -> Words
        ensures words { result ≡ self }
        ensures some { 0 < length result }
    {
        let Request { words } = self;
        words
    }
}

/// How many bytes the words at these places take. More or fewer would only cost memory.
fn room_for(bytes: &[u8], places: &[WordBounds]) -> usize
    requires { All (IsBefore (length bytes.now)) places.now }
{
    let mut room = 0_usize;
    for place in places {
        room = room.saturating_add(packed_len(&bytes[place.start..place.end]));
    }
    room
}
