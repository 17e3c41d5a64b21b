ghost use Rattle.std.specs.Prelude.{◌≡◌, ◌≤◌, ◌<◌, ◌↔◌, [], ◌∷◌, IfNone, IfSome, IsTrue};
ghost use Rattle.sr_book.specs.Records.{last_index};
ghost use Rattle.sr_hub.specs.Lines.{IsLettered, state_of};
ghost use Rattle.sr_hub.specs.steps.Letters.{unseen};

use crate::Hub;
use crate::letters::next_letter;
use sr_book::Book;
use std::alloc::{AllocError, Global};
use std::mem;

/// A connection may hold this many bytes of unanswered requests before they are counted.
const FREE: usize = 16 * 1024;

/// Requests hold at most this many times their bytes while they wait: the shortest are queued each in a block of its
/// own, and a key of a few bytes of a read that waits is in its call and in an index.
const WAITING: usize = 16;

/// What stands for the token of a session that is gone. No token is so high.
const GONE: usize = usize::MAX;

/// What a loop notes of one connection.
#[derive(Clone, Copy)]
struct Note {
    /// How many bytes of its unanswered requests are counted.
    bytes: u64,
    /// Whether it is over, and its session could not leave yet.
    over: bool,
    /// The moment at which bytes of it were last read or written, or it was given a reply for which it waited.
    heard: u64,
    /// Whether it had been idle for too long when all were looked at last.
    idle: bool,
    /// Whether it was put off, and goes on later.
    later: bool,
    /// Whether the sockets were told not to read it.
    held: bool,
    /// Whether it waits until its recovery can be begun, or its plan be made elsewhere.
    wanting: bool,
}

impl Note {
    /// That of a connection that comes.
    fn new() -> Note {
        Note {
            bytes: 0,
            over: false,
            heard: 0,
            idle: false,
            later: false,
            held: false,
            wanting: false,
        }
    }
}

/// What a loop notes of the connections of a hub, so that it finds one without walking all of them.
#[derive(Drop)]
pub(crate) struct Watch {
    /// The token of each session, in order of the sessions. A later session has a higher number. Those that are gone
    /// keep their place until they are more than half of all: so one that goes moves no other.
    tokens: Vec<(u64, usize)>,
    /// How many of these are gone.
    gone: usize,
    /// The connection at each token.
    notes: Vec<Note>,
    /// How many bytes are counted in all.
    total: u64,
    /// The last record whose replies were looked at.
    looked: u64,
    /// How many replies of the next record were looked at.
    replies: usize,
}

impl Watch {
    /// That of a loop whose hub has no connections. Takes no memory.
    pub(crate) fn new(alloc: Global) -> Watch {
        Watch {
            tokens: Vec::new(alloc),
            gone: 0,
            notes: Vec::new(alloc),
            total: 0,
            looked: 0,
            replies: 0,
        }
    }

    /// How many connections there are.
    pub(crate) fn len(&self) -> usize {
        self.tokens.len().saturating_sub(self.gone)
    }

    /// Makes room for one more connection.
    pub(crate) fn reserve(&mut self) -> Result<(), AllocError> {
        self.tokens.reserve(1)?;
        self.notes.reserve(1)
    }

    /// A connection came to this token, and has the latest session.
    pub(crate) fn comes(&mut self, hub: &Hub, token: usize) {
        // There is room: the least token that was never used is one more than the last.
        for _ in self.notes.len()..=token {
            let _ = self.notes.push(Note::new());
        }
        if let Some(session) = hub.session(token) {
            let _ = self.tokens.push((session, token));
        }
    }

    /// The connection of this session went.
    pub(crate) fn goes(&mut self, session: Option<u64>) {
        let Some(session) = session else { return };
        let Ok(place) = self.place_of(session) else {
            return;
        };
        let Some((_, token)) = self.tokens.get_mut(place) else {
            return;
        };
        let token = mem::replace(token, GONE);
        if token == GONE {
            return;
        }
        self.gone = self.gone.saturating_add(1);
        self.count(token, 0);
        if let Some(note) = self.notes.get_mut(token) {
            *note = Note::new();
        }
        self.close_up();
    }

    /// Lets go of the places of those that are gone, if they are more than half of all.
    fn close_up(&mut self) {
        if self.gone > self.tokens.len() / 2 {
            self.tokens.retain(|(_, token)| *token != GONE);
            self.gone = 0;
        }
    }

    /// Notes whether the connection at a token is over, and its session could not leave yet.
    pub(crate) fn note_over(&mut self, token: usize, over: bool) {
        if let Some(note) = self.notes.get_mut(token) {
            note.over = over;
        }
    }

    /// Notes that bytes of the connection at a token were read or written, or that it was given a reply for which it
    /// waited.
    pub(crate) fn hears(&mut self, token: usize, moment: u64) {
        if let Some(note) = self.notes.get_mut(token) {
            note.heard = moment;
        }
    }

    /// The moment at which the connection at a token was last heard of so, or 0.
    pub(crate) fn heard(&self, token: usize) -> u64 {
        self.notes.get(token).map_or(0, |note| note.heard)
    }

    /// Notes whether the connection at a token has been idle for too long. Answers whether it had been at the last look
    /// as well.
    pub(crate) fn note_idle(&mut self, token: usize, idle: bool) -> bool {
        match self.notes.get_mut(token) {
            Some(note) => {
                let again = note.idle && idle;
                note.idle = idle;
                again
            }
            None => false,
        }
    }

    /// Notes whether the connection at a token was put off, and goes on later.
    pub(crate) fn note_later(&mut self, token: usize, later: bool) {
        if let Some(note) = self.notes.get_mut(token) {
            note.later = later;
        }
    }

    /// Whether the connection at a token was put off, and goes on later.
    pub(crate) fn is_later(&self, token: usize) -> bool {
        self.notes.get(token).map_or(false, |note| note.later)
    }

    /// Notes whether the connection at a token waits until its recovery can be begun, or its plan be made elsewhere.
    pub(crate) fn note_wanting(&mut self, token: usize, wanting: bool) {
        if let Some(note) = self.notes.get_mut(token) {
            note.wanting = wanting;
        }
    }

    /// Whether the connection at a token waits for that.
    pub(crate) fn is_wanting(&self, token: usize) -> bool {
        self.notes.get(token).map_or(false, |note| note.wanting)
    }

    /// Notes whether the sockets are told not to read the connection at a token. Answers whether that is new to them.
    pub(crate) fn note_held(&mut self, token: usize, held: bool) -> bool {
        match self.notes.get_mut(token) {
            Some(note) => {
                let changed = note.held != held;
                note.held = held;
                changed
            }
            None => false,
        }
    }

    /// Whether the connection at a token is over, and its session could not leave yet.
    pub(crate) fn is_over(&self, token: usize) -> bool {
        self.notes.get(token).map_or(false, |note| note.over)
    }

    /// The token of a session.
    pub(crate) fn token_of(&self, session: u64) -> Option<usize> {
        let place = self.place_of(session).ok()?;
        let (_, token) = self.tokens.get(place)?;
        if *token == GONE { None } else { Some(*token) }
    }

    /// Where the session is noted.
    fn place_of(&self, session: u64) -> Result<usize, usize> {
        self.tokens
            .binary_search_by(|(noted, _)| noted.cmp(&session))
    }

    /// Counts the unanswered requests of a connection again.
    pub(crate) fn look_at(&mut self, hub: &Hub, token: usize) {
        self.count(token, counted_of(hub, token, 0));
    }

    /// That many bytes are counted of a connection from now on.
    fn count(&mut self, token: usize, bytes: u64) {
        if let Some(note) = self.notes.get_mut(token) {
            self.total = self.total.saturating_sub(note.bytes).saturating_add(bytes);
            note.bytes = bytes;
        }
    }

    /// Whether a connection that takes that many more bytes has all together hold more than `most`, itself among them.
    pub(crate) fn exceeds(&self, hub: &Hub, token: usize, more: usize, most: u64) -> bool {
        let bytes = counted_of(hub, token, more);
        if bytes == 0 {
            return false;
        }
        let before = self.notes.get(token).map_or(0, |note| note.bytes);
        self.total.saturating_sub(before).saturating_add(bytes) > most
    }

    /// How many bytes are counted of all connections.
    pub(crate) fn total(&self) -> u64 {
        self.total
    }

    /// Whether there are records whose replies were not looked at yet.
    pub(crate) fn is_behind(&self, book: &Book) -> bool
        ensures { IsTrue result ↔ (self.now.looked < last_index book.now) }
    {
        self.looked < book.last_index()
    }

    /// The next connection that was given its reply while it waited, of those of which a record says so that was not
    /// looked at yet.
    pub(crate) fn next_lettered(&mut self, hub: &Hub) -> Option<usize>
        ensures { IfSome result (IsLettered (state_of hub.now)) }
    {
        for _ in 0..u64::MAX {
            let session = self.next_given(hub.book())?;
            if let Some(token) = self.token_of(session)
                && hub.has_letter(token)
            {
                return Some(token);
            }
        }
        None
    }

    /// The next session to which a record gives a letter that was not looked at yet.
    fn next_given(&mut self, book: &Book) -> Option<u64>
        ensures some { book.now.base.index ≤ self.old.looked → IfSome result (λ session.
            unseen book.now self.old.looked self.old.replies
            ≡ session ∷ unseen book.now self.new.looked self.new.replies) }
        ensures none { book.now.base.index ≤ self.old.looked → IfNone result
            (unseen book.now self.old.looked self.old.replies ≡ []) }
    {
        let last = book.last_index();
        let base = book.base().index;
        self.begin_at(base);
        let records = book.records();
        // A slice, and no `skip`: that would step over each record that was seen.
        let seen = records.len().min((self.looked - base) as usize);
        match next_letter(&records[seen..], self.replies) {
            None => {
                self.looked = last;
                self.replies = 0;
                None
            }
            Some(next) => {
                self.looked = self.looked.saturating_add(next.records as u64);
                self.replies = next.before.saturating_add(1);
                Some(next.session)
            }
        }
    }

    /// Passes over the records up to a checkpoint, which are not kept.
    fn begin_at(&mut self, base: u64)
        ensures from { base ≤ self.new.looked }
        ensures looked { base ≤ self.old.looked → self.new.looked ≡ self.old.looked }
        ensures replies { base ≤ self.old.looked → self.new.replies ≡ self.old.replies }
    {
        if self.looked < base {
            self.looked = base;
            self.replies = 0;
        }
    }
}

/// What is counted of a connection that takes that many more bytes.
fn counted_of(hub: &Hub, token: usize, more: usize) -> u64 {
    let bytes = hub.unanswered(token);
    // Nothing is, whatever it waits for.
    if bytes.saturating_add(more) <= FREE / WAITING {
        return 0;
    }
    let held = bytes.saturating_mul(times_held(hub, token));
    held.saturating_add(more).saturating_sub(FREE) as u64
}

/// At most how many times their bytes the requests of a connection hold that are not answered yet.
fn times_held(hub: &Hub, token: usize) -> usize {
    // Of one whose call waits there is no moment since which it is quiet.
    if hub.quiet_since(token).is_none() || has_unsent(hub, token) {
        WAITING
    } else {
        1
    }
}

/// Whether bytes are to be sent to a connection.
pub(crate) fn has_unsent(hub: &Hub, token: usize) -> bool {
    unsent_len(hub, token) > 0
}

/// How many bytes are to be sent to a connection.
pub(crate) fn unsent_len(hub: &Hub, token: usize) -> usize {
    hub.unsent(token).map_or(0, |bytes| bytes.len())
}
