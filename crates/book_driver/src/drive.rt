//! A book, and what is done with it for each line.
use crate::line::{Action, Ask};
use crate::print::{due_text, letter_line, line_of, records_line, status_text, stepped_line};
use crate::sessions::{NO_PLACE, Sessions};
use sr_book::{Book, Event};
use sr_policy::Policy;
use std::alloc::{AllocError, Global};
use std::hash::RandomState;

/// A book, and the sessions that lines name.
#[derive(Drop)]
pub(crate) struct Driver {
    hasher: RandomState,
    book: Book,
    sessions: Sessions,
}

impl Driver {
    /// A driver of a book with this policy and without records. Takes no memory.
    pub(crate) fn new(alloc: Global, policy: Policy, hasher: RandomState) -> Driver {
        Driver {
            hasher,
            book: Book::new(alloc, policy, hasher),
            sessions: Sessions::new(alloc),
        }
    }

    /// Does what a line asks for. Returns the line that tells what came of it.
    pub(crate) fn answer(&mut self, alloc: Global, ask: Ask) -> Result<String, AllocError> {
        match ask {
            Ask::NewBook { policy } => {
                *self = Driver::new(alloc, policy, self.hasher);
                line_of(alloc, "ok")
            }
            Ask::Join { told } => self.join(alloc, told),
            Ask::Session {
                told,
                place,
                action,
            } => self.do_action(alloc, told, place, action),
            Ask::Expire { told } => self.step(alloc, told, NO_PLACE, Event::Expire),
            Ask::Due { told } => line_of(alloc, due_text(self.book.due(told))),
            Ask::Collect { place } => self.collect(alloc, place),
            Ask::Status { place } => {
                let status = self.book.status(self.sessions.number(place));
                line_of(alloc, status_text(status))
            }
            Ask::Records => records_line(alloc, self.book.records()),
            Ask::Checkpoint => {
                let index = self.book.checkpoint(alloc)?;
                format!(in alloc; "checkpoint {index}\n")
            }
            Ask::Base => {
                let base = self.book.base();
                format!(in alloc; "base {} {}\n", base.index, base.events)
            }
        }
    }

    /// A session opens, and its line gets the next place, also if it is refused.
    fn join(&mut self, alloc: Global, told: u64) -> Result<String, AllocError> {
        self.sessions.reserve()?;
        self.step(alloc, told, NO_PLACE, Event::Join)
    }

    /// The line for what a session was given while it waited.
    fn collect(&self, alloc: Global, place: usize) -> Result<String, AllocError> {
        let letter = self.book.collect(alloc, self.sessions.number(place))?;
        letter_line(alloc, letter)
    }

    /// A session does something.
    fn do_action(
        &mut self,
        alloc: Global,
        told: u64,
        place: usize,
        action: Action,
    ) -> Result<String, AllocError> {
        let session = self.sessions.number(place);
        let event = match action {
            Action::Call { call } => Event::Call { session, call },
            Action::Board { key, group } => Event::Board {
                session,
                key,
                group,
            },
            Action::Snapshot { key, group, dead } => Event::Snapshot {
                session,
                key,
                group,
                dead,
            },
            Action::Conclude { apply, last } => {
                return self.conclude(alloc, told, place, apply, last);
            }
            Action::Leave => Event::Leave { session },
        };
        self.step(alloc, told, place, event)
    }

    /// A session concludes its verdict, if it holds one or a snapshot to make it of.
    fn conclude(
        &mut self,
        alloc: Global,
        told: u64,
        place: usize,
        apply: bool,
        last: bool,
    ) -> Result<String, AllocError> {
        let Some(held) = self.sessions.take(place) else {
            return line_of(alloc, "none");
        };
        let event = Event::Conclude {
            session: self.sessions.number(place),
            verdict: held.verdict(alloc)?,
            apply,
            last,
        };
        self.step(alloc, told, place, event)
    }

    /// Hands the book an event of the session at a place, or of none.
    fn step(
        &mut self,
        alloc: Global,
        told: u64,
        place: usize,
        event: Event,
    ) -> Result<String, AllocError> {
        let stepped = self.book.step(alloc, told, event);
        let line = stepped_line(alloc, &stepped);
        self.sessions.note(place, stepped);
        line
    }
}
