use sr_book::Record;
use std::alloc::{AllocError, Global};
use std::sync::{Condvar, Mutex, Wait};

/// Those who wait for a letter: which session each seat waits for, and where it is woken.
///
/// A seat is noted here under the lock of its book, so whoever serves its session finds it.
#[derive(Drop)]
pub(crate) struct Waiting {
    /// The session that each seat waited for last, by its number; 0, which no session has, before its first wait.
    sessions: Mutex<Vec<u64>>,
    /// Where each seat sleeps.
    places: Vec<Condvar>,
}

/// Some of the seats of a book, by their numbers.
#[derive(Clone, Copy)]
pub(crate) struct Woken(u128);

impl Woken {
    /// None of them.
    pub(crate) fn nobody() -> Woken {
        Woken(0)
    }

    /// These and others.
    pub(crate) fn and(self, others: Woken) -> Woken {
        Woken(self.0 | others.0)
    }

    /// The seat with this number alone.
    fn one(number: usize) -> Woken {
        if number < 128 {
            Woken(1 << number)
        } else {
            Woken::nobody()
        }
    }

    /// Whether the seat with this number is one of them.
    fn has(self, number: usize) -> bool {
        self.0 & Woken::one(number).0 != 0
    }
}

impl Waiting {
    /// A place for each of this many seats, of which none waits.
    pub(crate) fn new(alloc: Global, seats: usize) -> Result<Waiting, AllocError> {
        let sessions = Vec::from_elem(alloc, 0, seats)?;
        let mut places = Vec::with_capacity(alloc, seats)?;
        for _ in 0..seats {
            places.push(Condvar::new())?;
        }
        Ok(Waiting {
            sessions: Mutex::new(sessions),
            places,
        })
    }

    /// Where a seat is woken. Each seat of the book has such a place.
    pub(crate) fn place(&self, number: u64) -> Option<&Condvar> {
        self.places.get(number as usize)
    }

    /// Notes which session a seat waits for.
    pub(crate) fn note<R: Wait>(&self, rt: &R, number: u64, session: u64) {
        if let Some(noted) = self.sessions.lock(rt).get_mut(number as usize) {
            *noted = session;
        }
    }

    /// The seats that wait for a session to which one of the records after the first ones, this many, has a reply.
    pub(crate) fn given<R: Wait>(&self, rt: &R, records: &[Record], first: usize) -> Woken {
        let sessions = self.sessions.lock(rt);
        let mut woken = Woken::nobody();
        // A slice, and no `skip`: that would step over each record before.
        for recorded in &records[records.len().min(first)..] {
            for (session, _) in recorded.replies.as_slice() {
                woken = woken.and(waiting_for(&sessions, *session));
            }
        }
        woken
    }

    /// The seats that wait for a session.
    pub(crate) fn of<R: Wait>(&self, rt: &R, session: u64) -> Woken {
        waiting_for(&self.sessions.lock(rt), session)
    }

    /// Wakes these seats.
    pub(crate) fn wake(&self, woken: Woken) {
        for (number, place) in self.places.iter().enumerate() {
            if woken.has(number) {
                place.notify_all();
            }
        }
    }
}

/// The seats that are noted with a session.
fn waiting_for(sessions: &[u64], session: u64) -> Woken {
    let mut woken = Woken::nobody();
    for (number, noted) in sessions.iter().enumerate() {
        if *noted == session {
            woken = woken.and(Woken::one(number));
        }
    }
    woken
}
