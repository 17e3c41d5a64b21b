ghost use Rattle.std.specs.Prelude.{◌≡◌, ◌≤◌, ◌++◌, [], length, drop, vec_len, OnOk, OnErr};
ghost use Rattle.sr_resp.specs.{error_reply, reply_text};

use sr_resp::{ErrCode, Reply, append_reply};
use sr_session::empty;
use std::alloc::{AllocError, Global};
use std::marker::Model;

/// Bytes that were sent are let go once they are at least this many, and at least as many as those that are to be sent.
const MUCH: usize = 64 * 1024;

/// The bytes of a connection that are to be sent.
pub struct Unsent {
    bytes: Vec<u8>,
    /// How many of these bytes were sent.
    start: usize,
}

impl Drop for Unsent {
    fn drop(self) {
        let Unsent { bytes: _, start: _ } = self;
    }
}

impl Model for Unsent {
    ghost use Rattle.std.specs.Prelude.{◌≤◌, ℕ, List, drop, length};

    ghost Value = { List ℕ };

    ghost view = { λ u. drop u.start u.bytes.items };

    ghost invariant = { λ u. u.start ≤ length u.bytes.items };
}

impl Unsent {
    ghost use Rattle.std.specs.Prelude.{◌≡◌, ◌≤◌, ◌++◌, [], length, drop, OnOk, OnErr};
    ghost use Rattle.sr_resp.specs.{error_reply, reply_text};

    /// None. Takes no memory.
    pub(crate) fn new(alloc: Global) -> Unsent
        ensures { result ≡ [] }
    {
        Unsent {
            bytes: Vec::new(alloc),
            start: 0,
        }
    }

    /// The bytes, in their order.
    pub(crate) fn as_slice(&self) -> &[u8]
        ensures { result.now ≡ self.now }
    {
        &self.bytes[self.start..]
    }

    /// How many bytes there are.
    pub(crate) fn len(&self) -> usize
        ensures { result ≡ length self.now }
    {
        self.bytes.len() - self.start
    }

    /// Adds the text of a reply. An `Err` leaves the bytes as they were.
    pub(crate) fn append(&mut self, reply: &Reply) -> Result<(), AllocError>
        ensures ok { OnOk result (self.new ≡ self.old ++ reply_text reply.now) }
        ensures err { OnErr result (self.new ≡ self.old) }
    {
        append_reply(&mut self.bytes, reply)
    }

    /// Adds the text of an error.
    pub(crate) fn append_error(&mut self, alloc: Global, code: ErrCode) -> Result<(), AllocError>
        ensures ok { OnOk result (self.new ≡ self.old ++ reply_text (error_reply code)) }
        ensures err { OnErr result (self.new ≡ self.old) }
    {
        let reply = Reply::error(alloc, code);
        self.append(&reply)
    }

    /// Takes the first bytes away, which were sent. Takes no memory.
    pub(crate) fn sent(&mut self, count: usize)
        requires { count ≤ length self.old }
        ensures { self.new ≡ drop count self.old }
    {
        self.start += count;
        if self.start == self.bytes.len() {
            self.start = 0;
            empty(&mut self.bytes);
        } else if self.start >= MUCH && self.start >= self.len() {
            self.close_up();
        }
    }

    /// Lets go of the bytes that were sent.
    fn close_up(&mut self)
        ensures { self.new ≡ self.old }
    {
        let start = self.start;
        drop_front(&mut self.bytes, start);
        self.start = 0;
    }
}

/// Removes this many bytes from the front.
fn drop_front(bytes: &mut Vec<u8>, count: usize)
    requires { count ≤ vec_len bytes.old }
    ensures { bytes.new.items ≡ drop count bytes.old.items }
{
    let len = bytes.len();
    bytes.as_mut_slice().copy_within(count..len, 0);
    bytes.truncate(len - count);
}
