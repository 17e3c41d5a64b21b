use crate::Stage;
use crate::unsent::Unsent;
use crate::usage::Usage;
use sr_resp::{ErrCode, Reader, Reply};
use sr_session::feed;
use std::alloc::{AllocError, Global};
use std::marker::Model;
use std::mem;

/// One connection: its session, the requests in its bytes, its replies that are to be sent, and what it is doing.
pub struct Connection {
    pub(crate) session: u64,
    pub(crate) requests: Reader,
    /// Whether the bytes that were taken are not requests.
    pub(crate) failed: bool,
    pub(crate) unsent: Unsent,
    pub(crate) stage: Stage,
    pub(crate) usage: Usage,
}

// A function of its own, so that a caller that lets go of one is proved without looking at its parts.
impl Drop for Connection {
    fn drop(self) {
        let Connection {
            session: _,
            requests: _,
            failed: _,
            unsent: _,
            stage: _,
            usage: _,
        } = self;
    }
}

impl Model for Connection {
    ghost use Rattle.std.specs.Prelude.{◌≡◌};
    ghost use Rattle.sr_hub.specs.Line.{ConnectionState};

    ghost Value = { ConnectionState };

    ghost view = { λ c. record { session = c.session; requests = c.requests; unsent = c.unsent; stage = c.stage } };

    ghost invariant = { λ c. c.failed ≡ c.requests.failed };
}

impl Connection {
    ghost use Rattle.std.specs.Prelude.{◌≡◌, ◌≤◌, [], false, length, drop, OnOk, OnErr};
    ghost use Rattle.sr_resp.specs.{error_reply, reply_text};
    ghost use Rattle.sr_resp.specs.Stream.{Stands};
    ghost use Rattle.sr_hub.specs.steps.Telling.{Feeds, FeedsNot, Tells, TellsFault};

    /// A connection of a session that joined at this moment. Takes no memory.
    pub(crate) fn new(alloc: Global, session: u64, moment: u64) -> Connection
        ensures session { result.session ≡ session }
        ensures stands { Stands [] [] result.requests }
        ensures fresh { (result.requests.waiting ≡ []) × (result.requests.failed ≡ false) }
        ensures unsent { result.unsent ≡ [] }
        ensures stage { result.stage ≡ Stage.Idle }
    {
        Connection {
            session,
            requests: Reader::new(alloc),
            failed: false,
            unsent: Unsent::new(alloc),
            stage: Stage::Idle,
            usage: Usage::from(moment),
        }
    }

    /// Its session.
    pub(crate) fn session(&self) -> u64
        ensures { result ≡ self.now.session }
    {
        self.session
    }

    /// Takes the first bytes that are to be sent away, which were sent. Takes no memory.
    pub(crate) fn sent(&mut self, count: usize)
        requires { count ≤ length self.old.unsent }
        ensures { self.new ≡ record self.old { unsent = drop count self.old.unsent } }
    {
        self.unsent.sent(count);
    }

    /// It does this now.
    pub(crate) fn pass_to(&mut self, stage: Stage)
        ensures { self.new ≡ record self.old { stage = stage } }
    {
        self.stage = stage;
    }

    /// Takes what it does out. It is as if it was cut off until it passes to another stage.
    pub(crate) fn take_stage(&mut self) -> Stage
        ensures stage { result ≡ self.old.stage }
        ensures rest { self.new ≡ record self.old { stage = Stage.CutOff } }
    {
        mem::replace(&mut self.stage, Stage::CutOff)
    }

    /// Takes the next piece of its bytes. An `Err` says that memory is lacking, and takes none of it.
    pub(crate) fn feed(&mut self, alloc: Global, piece: &[u8]) -> Result<(), AllocError>
        ensures ok { OnOk result (Feeds piece.now self.old self.new) }
        ensures err { OnErr result (FeedsNot self.old self.new) }
    {
        self.usage.took(piece.len());
        match feed(alloc, &mut self.requests, piece) {
            Ok(broken) => {
                self.failed = broken;
                Ok(())
            }
            Err(AllocError) => Err(AllocError),
        }
    }

    /// Tells it a reply: it can take the next request then. Or it is cut off, since memory is lacking for the text.
    pub(crate) fn tell(&mut self, reply: &Reply)
        ensures { Tells (reply_text reply.now) self.old self.new }
    {
        match self.unsent.append(reply) {
            Ok(()) => self.pass_to(Stage::Idle),
            Err(AllocError) => self.pass_to(Stage::CutOff),
        }
    }

    /// Tells it an error in the same way.
    pub(crate) fn tell_error(&mut self, alloc: Global, code: ErrCode)
        ensures { Tells (reply_text (error_reply code)) self.old self.new }
    {
        let reply = Reply::error(alloc, code);
        self.tell(&reply);
    }

    /// Tells it that its bytes went wrong, if they did, or cuts it off.
    pub(crate) fn tell_fault(&mut self, alloc: Global)
        ensures { TellsFault self.old self.new }
    {
        if self.failed {
            match self.unsent.append_error(alloc, ErrCode::Protocol) {
                Ok(()) => self.pass_to(Stage::Broken),
                Err(AllocError) => self.pass_to(Stage::CutOff),
            }
        }
    }
}
