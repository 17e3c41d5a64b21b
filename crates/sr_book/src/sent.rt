use crate::replies::Replies;
use sr_resp::Reply;
use std::marker::Model;
use std::slice;

/// The replies that an event gave, each with its session.
#[derive(Drop)]
pub struct Sent {
    replies: Replies,
}

impl Model for Sent {
    ghost use Rattle.std.specs.Prelude.{ℕ, List};
    ghost use Rattle.sr_resp.specs.{ReplyParts};

    ghost Value = { List (ℕ × ReplyParts) };

    ghost use Rattle.sr_book.specs.Sent.{replies_in};

    ghost view = { λ s. replies_in s.replies };
}

impl Sent {
    ghost use Rattle.std.specs.Prelude.{◌≡◌, [], ◌∷◌};

    /// None. Takes no memory.
    pub fn nobody() -> Sent
        ensures { result ≡ [] }
    {
        Sent {
            replies: Replies::Nobody,
        }
    }

    /// One reply, to this session. Takes no memory.
    pub fn one(session: u64, reply: Reply) -> Sent
        ensures { result ≡ (session, reply) ∷ [] }
    {
        Sent {
            replies: Replies::One((session, reply)),
        }
    }

    /// These replies. Takes no memory.
    pub fn several(replies: Vec<(u64, Reply)>) -> Sent
        ensures { result ≡ replies.items }
    {
        Sent {
            replies: Replies::Several(replies),
        }
    }

    /// The replies in their order. Takes no memory.
    pub fn as_slice(&self) -> &[(u64, Reply)]
        ensures { result.now ≡ self.now }
    {
        match &self.replies {
            Replies::Nobody => &[],
            Replies::One(reply) => slice::from_ref(reply),
            Replies::Several(replies) => replies.as_slice(),
        }
    }
}
