//! The sessions that lines name, and what each holds for a verdict.
use sr_book::{Answer, Event, Out, StepFault};
use sr_plan::Verdict;
use sr_policy::Snapshot;
use std::alloc::{AllocError, Global};

/// The number of no session: it stands for a session that no join line opened.
const NO_SESSION: u64 = 1 << 62;

/// A place without a session.
pub(crate) const NO_PLACE: usize = usize::MAX;

/// What a session holds of the last snapshot that it got.
#[derive(Drop)]
pub(crate) enum LastSnapshot {
    /// The snapshot itself.
    Snapshot(Snapshot),
    /// The verdict that was made of it.
    Verdict(Verdict),
}

impl LastSnapshot {
    /// The verdict. If memory is refused for it, the snapshot is dropped.
    pub(crate) fn verdict(self, alloc: Global) -> Result<Verdict, AllocError> {
        match self {
            LastSnapshot::Snapshot(snapshot) => Verdict::make(alloc, snapshot),
            LastSnapshot::Verdict(verdict) => Ok(verdict),
        }
    }
}

/// A session with a join line.
#[derive(Drop)]
struct Session {
    number: u64,
    held: Option<LastSnapshot>,
}

/// The sessions, in the order of their join lines. A line names one by its place among them.
#[derive(Drop)]
pub(crate) struct Sessions {
    list: Vec<Session>,
}

impl Sessions {
    /// No session yet. Takes no memory.
    pub(crate) fn new(alloc: Global) -> Sessions {
        Sessions {
            list: Vec::new(alloc),
        }
    }

    /// Makes room for one session more.
    pub(crate) fn reserve(&mut self) -> Result<(), AllocError> {
        self.list.reserve(1)
    }

    /// The number of the session at a place.
    pub(crate) fn number(&self, place: usize) -> u64 {
        match self.list.get(place) {
            Some(session) => session.number,
            None => NO_SESSION,
        }
    }

    /// Notes what came of a step: a session that joins gets the next place, also if it is refused; the session at
    /// `place` holds the snapshot that it was answered, or again the verdict that it was refused to conclude. Takes no
    /// memory: for a session that joins there is room.
    pub(crate) fn note(&mut self, place: usize, stepped: Result<Answer, StepFault>) {
        match stepped {
            Ok(answer) => match answer.out {
                Out::Joined(number) => self.add(number),
                Out::Snap(snapshot) | Out::Stale(snapshot) => {
                    self.hold(place, LastSnapshot::Snapshot(snapshot));
                }
                _ => {}
            },
            Err(refused) => match refused.event {
                Event::Join => self.add(NO_SESSION),
                Event::Conclude { verdict, .. } => self.hold(place, LastSnapshot::Verdict(verdict)),
                _ => {}
            },
        }
    }

    /// A session of this number gets the next place.
    fn add(&mut self, number: u64) {
        if self.list.len() < self.list.capacity() {
            self.list.push_reserved(Session { number, held: None });
        }
    }

    /// The session at a place holds this from now on.
    fn hold(&mut self, place: usize, held: LastSnapshot) {
        if let Some(session) = self.list.get_mut(place) {
            session.held = Some(held);
        }
    }

    /// What the session at a place holds. It holds nothing then.
    pub(crate) fn take(&mut self, place: usize) -> Option<LastSnapshot> {
        match self.list.get_mut(place) {
            Some(session) => session.held.take(),
            None => None,
        }
    }
}
