//! A hub, and what is done with it for each line.
use crate::line::{Ask, Deed};
use crate::print::{
    bytes_line, done_line, fault_text, letters_line, line_of, look_line, taken_text,
};
use sr_book::Book;
use sr_hub::Hub;
use sr_policy::Policy;
use std::alloc::{AllocError, Global};
use std::hash::RandomState;

/// A hub, and a number that is above each of its tokens.
#[derive(Drop)]
pub(crate) struct Driver {
    hasher: RandomState,
    hub: Hub,
    tokens: usize,
}

impl Driver {
    /// A driver of a hub without connections, whose book has this policy and no records. Takes no memory.
    pub(crate) fn new(alloc: Global, policy: Policy, hasher: RandomState) -> Driver {
        Driver {
            hasher,
            hub: Hub::new(alloc, Book::new(alloc, policy, hasher)),
            tokens: 0,
        }
    }

    /// Does what a line asks for. Returns the line that tells what came of it.
    pub(crate) fn answer(&mut self, alloc: Global, ask: Ask) -> Result<String, AllocError> {
        match ask {
            Ask::NewHub { policy } => {
                *self = Driver::new(alloc, policy, self.hasher);
                line_of(alloc, "ok")
            }
            Ask::Connect { moment } => self.connect(alloc, moment),
            Ask::Tick { moment } => match self.hub.tick(alloc, moment) {
                Ok(done) => line_of(alloc, flag_text(done)),
                Err(fault) => line_of(alloc, fault_text(fault)),
            },
            Ask::Compact { keep } => line_of(alloc, flag_text(self.hub.compact(alloc, keep))),
            Ask::Of { token, deed } => self.do_deed(alloc, token, deed),
            Ask::Letters => letters_line(alloc, &self.hub, self.tokens),
            Ask::Look => look_line(alloc, &self.hub, self.tokens),
            Ask::Book => {
                let book = self.hub.book();
                let kept = book.records().len();
                format!(in alloc; "book {} {kept}\n", book.last_index())
            }
        }
    }

    /// A connection comes.
    fn connect(&mut self, alloc: Global, moment: u64) -> Result<String, AllocError> {
        match self.hub.connect(alloc, moment) {
            Ok(token) => {
                self.tokens = self.tokens.max(token.saturating_add(1));
                format!(in alloc; "ok {token}\n")
            }
            Err(fault) => line_of(alloc, fault_text(fault)),
        }
    }

    /// Does something with the connection at a token.
    fn do_deed(&mut self, alloc: Global, token: usize, deed: Deed) -> Result<String, AllocError> {
        match deed {
            Deed::Go { moment } => {
                let there = self.hub.go_on(alloc, token, moment);
                line_of(alloc, if there { "ok" } else { "gone" })
            }
            Deed::Judge { moment } => self.judge(alloc, token, moment),
            Deed::Lack { moment } => self.lack(alloc, token, moment),
            Deed::Close { moment } => done_line(alloc, self.hub.close(alloc, token, moment)),
            Deed::Take { moment, piece } => {
                let taken = self.hub.take(alloc, token, moment, piece.as_slice());
                line_of(alloc, taken_text(taken))
            }
            Deed::Sent { count } => self.sent(alloc, token, count),
            Deed::Unsent => match self.hub.unsent(token) {
                Some(bytes) => bytes_line(alloc, "unsent", bytes),
                None => line_of(alloc, "gone"),
            },
        }
    }

    /// At most this many bytes of a connection are sent. The line has them.
    fn sent(&mut self, alloc: Global, token: usize, count: u64) -> Result<String, AllocError> {
        let Some(bytes) = self.hub.unsent(token) else {
            return line_of(alloc, "gone");
        };
        let count = bytes.len().min(count as usize);
        let line = bytes_line(alloc, "sent", &bytes[..count])?;
        self.hub.sent(token, count);
        Ok(line)
    }

    /// Makes the verdict that a connection wants, if it wants one, and concludes it.
    fn judge(&mut self, alloc: Global, token: usize, moment: u64) -> Result<String, AllocError> {
        let done = self.hub.judge(alloc, token, moment);
        line_of(alloc, if done { "ok" } else { "none" })
    }

    /// Concludes the verdict that a connection wants, if it wants one, as if memory was lacking for it.
    fn lack(&mut self, alloc: Global, token: usize, moment: u64) -> Result<String, AllocError> {
        if self.hub.wants_verdict(token).is_none() {
            return line_of(alloc, "none");
        }
        self.hub.conclude(alloc, token, moment, None);
        line_of(alloc, "lacking")
    }
}

/// The text for whether something was done.
fn flag_text(done: bool) -> &'static str {
    if done { "ok 1" } else { "ok 0" }
}
