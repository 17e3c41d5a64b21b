ghost use Rattle.std.specs.Prelude.{◌≡◌, ℕ, List, [], ◌++◌, false, length, OnOk, OnErr, IfErr};
ghost use Rattle.std.specs.Io.KnownBytes.{Appends};
ghost use Rattle.sr_resp.specs.{error_reply, reply_text};
ghost use Rattle.sr_session.specs.steps.Gathered.{BreaksOff, IsNoted, counted};

use crate::End;
use sr_resp::{ErrCode, Reply, Sink, append_reply, send_all};
use std::alloc::{AllocError, Global};

/// A buffer of at most this many bytes is kept once all of it was sent.
const MOST_KEPT: usize = 64 * 1024;

/// Empties a buffer of replies that were sent, and gives back what it has beyond 64 KiB. Takes no memory.
pub fn empty(buffer: &mut Vec<u8>)
    ensures { buffer.new.items ≡ [] }
{
    buffer.clear();
    buffer.shrink_to(MOST_KEPT);
}

/// The replies of a session: those that are gathered and not sent yet, and how many bytes were sent.
#[derive(Drop)]
pub(crate) struct Replies {
    gathered: Vec<u8>,
    /// A number beyond `usize` is its greatest.
    sent: usize,
}

impl Replies {
    /// No reply yet. It takes no memory.
    pub(crate) fn new(alloc: Global) -> Replies
        ensures { (result.gathered.items ≡ []) × (result.sent ≡ 0) }
    {
        Replies {
            gathered: Vec::new(alloc),
            sent: 0,
        }
    }

    /// Whether so many bytes are gathered that they are sent before the next reply.
    pub(crate) fn is_long(&self) -> bool {
        self.gathered.len() >= MOST_KEPT
    }

    /// How many bytes are gathered.
    pub(crate) fn len(&self) -> usize
        ensures { result ≡ length self.now.gathered.items }
    {
        self.gathered.len()
    }

    /// Gathers one reply more.
    pub(crate) fn gather(&mut self, reply: &Reply) -> Result<(), AllocError>
        ensures ok { OnOk result (self.new.gathered.items ≡ self.old.gathered.items ++ reply_text reply.now) }
        ensures err { OnErr result (self.new.gathered.items ≡ self.old.gathered.items) }
        ensures sent { self.new.sent ≡ self.old.sent }
    {
        append_reply(&mut self.gathered, reply)
    }

    /// Gathers an error as the next reply.
    pub(crate) fn gather_error(&mut self, alloc: Global, code: ErrCode) -> Result<(), AllocError>
        ensures ok { OnOk result (self.new.gathered.items ≡ self.old.gathered.items ++ reply_text (error_reply code)) }
        ensures err { OnErr result (self.new.gathered.items ≡ self.old.gathered.items) }
        ensures sent { self.new.sent ≡ self.old.sent }
    {
        let reply = Reply::error(alloc, code);
        self.gather(&reply)
    }

    /// Sends what is gathered.
    pub(crate) fn send<W: Sink>(&mut self, writer: &mut W) -> Result<(), End>
        requires { W.failed writer.old ≡ false }
        ensures gathered { OnOk result (self.new.gathered.items ≡ []) }
        ensures sent { OnOk result (self.new.sent ≡ counted self.old.sent (length self.old.gathered.items)) }
        ensures ok { OnOk result (Appends (W.contents writer.old) (W.contents writer.new) self.old.gathered.items) }
        ensures err { IfErr result (λ end. (gets : List ℕ)
            × Appends (W.contents writer.old) (W.contents writer.new) gets
            × BreaksOff self.old.gathered.items self.old.sent gets end) }
        ensures noted { IsNoted result (W.failed writer.old) (W.failed writer.new) }
    {
        match send_all(writer, self.gathered.as_slice()) {
            Ok(()) => {
                self.sent = self.sent.saturating_add(self.gathered.len());
                empty(&mut self.gathered);
                Ok(())
            }
            Err(fault) => {
                let sent = self.sent.saturating_add(fault.sent);
                Err(End::SendFault { sent })
            }
        }
    }
}
