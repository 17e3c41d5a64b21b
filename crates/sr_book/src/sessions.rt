ghost use Rattle.std.specs.Prelude.{◌≡◌, IfSome, IfNone, IsTrue, false};
ghost use Rattle.std.specs.Option.{option_copied};
ghost use Rattle.sr_book.specs.Server.{is_open, letter_of, with_letter, without};
ghost use Rattle.sr_book.specs.Layout.{AreRising, IsPlace, below};

use sr_resp::Reply;
use std::alloc::{AllocError, Global};
use std::marker::Model;

/// A reply that a session was given while it waited, in the record with this index.
#[derive(Drop)]
pub(crate) struct GivenReply {
    pub index: u64,
    pub reply: Reply,
}

impl Model for GivenReply {
    ghost use Rattle.sr_book.specs.Server.{Given};

    ghost Value = { Given };

    ghost view = { λ g. record { index = g.index; reply = g.reply } };
}

/// An open session.
#[derive(Drop)]
struct OpenSession {
    number: u64,
    letter: Option<GivenReply>,
}

impl Model for OpenSession {
    ghost use Rattle.sr_book.specs.Server.{Session};

    ghost Value = { Session };

    ghost view = { λ s. record { number = s.number; letter = s.letter } };
}

impl OpenSession {
    ghost use Rattle.std.specs.Prelude.{◌≡◌, ◌==◌, nat_lt};
    ghost use Rattle.std.specs.Option.{option_copied};

    /// Whether the session's number is lower.
    fn comes_before(&self, number: u64) -> bool
        ensures { result ≡ nat_lt self.now.number number }
    {
        self.number < number
    }

    /// The session's letter, if it has one.
    fn letter(&self) -> Option<&GivenReply>
        ensures { option_copied result ≡ self.now.letter }
    {
        self.letter.as_ref()
    }

    /// Whether this is the session's number.
    fn is_numbered(&self, number: u64) -> bool
        ensures { result ≡ (self.now.number == number) }
    {
        self.number == number
    }
}

/// The open sessions by rising number, each with its letter.
#[derive(Drop)]
pub(crate) struct Sessions {
    list: Vec<OpenSession>,
    /// Where a session was found last. Requests of one session come together, so it is looked for there first.
    near: usize,
}

impl Model for Sessions {
    ghost use Rattle.std.specs.Prelude.{List};
    ghost use Rattle.sr_book.specs.Server.{Session};
    ghost use Rattle.sr_book.specs.Layout.{AreRising};

    ghost Value = { List Session };

    ghost view = { λ s. s.list.items };

    ghost invariant = { λ s. AreRising s.list.items };
}

impl Sessions {
    ghost use Rattle.std.specs.Prelude.{◌≡◌, ◌++◌, [], ◌∷◌, None, OnOk, OnErr};
    ghost use Rattle.std.specs.Option.{option_copied};
    ghost use Rattle.sr_book.specs.Server.{AreBelow, is_open, letter_of, with_letter, without};

    /// No sessions. Takes no memory.
    pub(crate) fn new(alloc: Global) -> Sessions
        ensures { result ≡ [] }
    {
        Sessions {
            list: Vec::new(alloc),
            near: 0,
        }
    }

    /// Whether the session is open.
    pub(crate) fn is_open(&self, number: u64) -> bool
        ensures { result ≡ is_open number self.now }
    {
        is_there(self.list.as_slice(), number, self.near)
    }

    /// The letter of the session, if it is open and has one.
    pub(crate) fn letter(&self, number: u64) -> Option<&GivenReply>
        ensures { option_copied result ≡ letter_of number self.now }
    {
        letter_in(self.list.as_slice(), number)
    }

    /// Opens a session without a letter.
    pub(crate) fn open(&mut self, number: u64) -> Result<(), AllocError>
        requires { AreBelow number self.old }
        ensures ok { OnOk result (self.new ≡ self.old ++ record { number = number; letter = None } ∷ []) }
        ensures err { OnErr result (self.new ≡ self.old) }
    {
        let session = OpenSession {
            number,
            letter: None,
        };
        self.list.push(session)?;
        Ok(())
    }

    /// Closes the session, if it is open. Takes no memory.
    pub(crate) fn close(&mut self, number: u64)
        ensures { self.new ≡ without number self.old }
    {
        close_in(&mut self.list, number);
    }

    /// Gives the session, if it is open, this letter or none in place of the one that it has. Takes no memory.
    pub(crate) fn set_letter(&mut self, number: u64, letter: Option<GivenReply>)
        ensures { self.new ≡ with_letter number letter self.old }
    {
        self.near = set_letter_in(&mut self.list, number, self.near, letter);
    }
}

/// How many sessions have a lower number, found by binary search.
fn count_below(sessions: &[OpenSession], number: u64) -> usize
    requires { AreRising sessions.now }
    ensures { result ≡ below number sessions.now }
{
    sessions.partition_point(|session| session.comes_before(number))
}

/// The place of the session with this number.
fn place_of(sessions: &[OpenSession], number: u64) -> Option<usize>
    requires { AreRising sessions.now }
    ensures found { IfSome result (IsPlace number sessions.now) }
    ensures none { IfNone result (is_open number sessions.now ≡ false) }
{
    let place = count_below(sessions, number);
    match sessions.get(place) {
        None => None,
        Some(session) => {
            if session.is_numbered(number) {
                Some(place)
            } else {
                None
            }
        }
    }
}

/// Whether the session at a place has this number.
fn is_at(sessions: &[OpenSession], number: u64, place: usize) -> bool
    ensures { IsTrue result → IsPlace number sessions.now place }
{
    match sessions.get(place) {
        None => false,
        Some(session) => session.is_numbered(number),
    }
}

/// The place of the session with this number, which is looked for first at the place that is handed in.
fn place_near(sessions: &[OpenSession], number: u64, near: usize) -> Option<usize>
    requires { AreRising sessions.now }
    ensures found { IfSome result (IsPlace number sessions.now) }
    ensures none { IfNone result (is_open number sessions.now ≡ false) }
{
    if is_at(sessions, number, near) {
        return Some(near);
    }
    place_of(sessions, number)
}

/// Whether one of the sessions has this number.
fn is_there(sessions: &[OpenSession], number: u64, near: usize) -> bool
    requires { AreRising sessions.now }
    ensures { result ≡ is_open number sessions.now }
{
    match place_near(sessions, number, near) {
        Some(_place) => true,
        None => false,
    }
}

/// The letter of the session with this number, if it is there and has one.
fn letter_in(sessions: &[OpenSession], number: u64) -> Option<&GivenReply>
    requires { AreRising sessions.now }
    ensures { option_copied result ≡ letter_of number sessions.now }
{
    match place_of(sessions, number) {
        None => None,
        Some(place) => sessions[place].letter(),
    }
}

/// Takes the session with this number away, if it is there.
fn close_in(sessions: &mut Vec<OpenSession>, number: u64)
    requires { AreRising sessions.old.items }
    ensures { sessions.new.items ≡ without number sessions.old.items }
{
    if let Some(place) = place_of(sessions.as_slice(), number) {
        drop(sessions.remove(place));
    }
}

/// Gives the session with this number, if it is there, another letter or none. Answers where to look for it next.
fn set_letter_in(
    sessions: &mut Vec<OpenSession>,
    number: u64,
    near: usize,
    letter: Option<GivenReply>,
) -> usize
    requires { AreRising sessions.old.items }
    ensures { sessions.new.items ≡ with_letter number letter sessions.old.items }
{
    match place_near(sessions.as_slice(), number, near) {
        None => near,
        Some(place) => {
            sessions[place] = OpenSession { number, letter };
            place
        }
    }
}
