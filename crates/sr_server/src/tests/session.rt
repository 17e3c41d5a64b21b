// The tests of `sr_session`, what no clause says and no program shows: what a session makes of readers and writers that
// fail, how often it reads, and, in the modules, what it makes of a desk's answers.
ghost use Rattle.std.specs.Prelude.{◌≡◌, ◌≤◌, None, true, false, IfOk};

use sr_book::Book;
use sr_policy::Policy;
use sr_resp::{Sink, WriteFailed, WriteTo};
use sr_session::{Clock, End, NoGate, PlainDesk, ReadFailed, ReadFrom, Source, run_session};
use std::alloc::{AllocError, Global};
use std::hash::RandomState;
use std::io;
use std::io::{Error, ErrorKind, Read};
use std::random::RandomSource;
use std::test::Fail;

mod desks;
mod recovery;

/// `PING`, `XADD s 1-1 a b`, `XLEN s` and `XRANGE s - +`
pub(crate) const RUN: &[u8; 116] = b"*1\r\n$4\r\nPING\r\n\
    *5\r\n$4\r\nXADD\r\n$1\r\ns\r\n$3\r\n1-1\r\n$1\r\na\r\n$1\r\nb\r\n\
    *2\r\n$4\r\nXLEN\r\n$1\r\ns\r\n\
    *4\r\n$6\r\nXRANGE\r\n$1\r\ns\r\n$1\r\n-\r\n$1\r\n+\r\n";

/// The replies to them.
pub(crate) const REPLIES: &[u8; 55] =
    b"+PONG\r\n$3\r\n1-1\r\n:1\r\n*1\r\n*2\r\n$3\r\n1-1\r\n*2\r\n$1\r\na\r\n$1\r\nb\r\n";

/// It is 5 milliseconds past 1970.
pub(crate) struct Stopped;

impl Clock for Stopped {
    ghost may_tell = { λ _ _. true };

    fn now(&self) -> u64 {
        5
    }
}

/// Gives at most `size` bytes at each read. After its bytes it ends, or fails.
#[derive(Drop)]
pub(crate) struct Pieces<'a> {
    bytes: &'a [u8],
    size: usize,
    fails: bool,
    ended: bool,
    failed: bool,
}

impl<'a> Pieces<'a> {
    fn new(bytes: &'a [u8], size: usize, fails: bool) -> Pieces<'a>
        ensures { (result.ended ≡ false) × (result.failed ≡ false) }
    {
        Pieces {
            bytes,
            size,
            fails,
            ended: false,
            failed: false,
        }
    }

    /// All bytes at one read, and then the end.
    pub(crate) fn whole(bytes: &'a [u8]) -> Pieces<'a>
        ensures { (result.ended ≡ false) × (result.failed ≡ false) }
    {
        Pieces::new(bytes, 4096, false)
    }
}

impl Source for Pieces<'_> {
    ghost remaining = { λ _. None };

    ghost ended = { λ s. s.ended };

    ghost failed = { λ s. s.failed };

    ghost reads = { λ _. None };

    fn read(&mut self, buffer: &mut [u8]) -> Result<usize, ReadFailed> {
        if self.fails && self.bytes.is_empty() {
            self.failed = true;
            return Err(ReadFailed);
        }
        let count = self.size.min(self.bytes.len()).min(buffer.len());
        let (front, behind) = self.bytes.split_at(count);
        buffer[..count].copy_from_slice(front);
        self.bytes = behind;
        if count == 0 {
            self.ended = true;
        }
        Ok(count)
    }
}

/// Keeps what it gets. It fails once, after `room` bytes, and would keep what is written after that too.
#[derive(Drop)]
pub(crate) struct Kept {
    pub(crate) bytes: Vec<u8>,
    room: usize,
    pub(crate) failed: bool,
}

impl Kept {
    pub(crate) fn with_room(alloc: Global, room: usize) -> Result<Kept, AllocError>
        ensures { IfOk result (λ kept. kept.failed ≡ false) }
    {
        let bytes = Vec::with_capacity(alloc, 512)?;
        Ok(Kept {
            bytes,
            room,
            failed: false,
        })
    }
}

impl Sink for Kept {
    ghost contents = { λ _. None };

    ghost failed = { λ s. s.failed };

    fn write(&mut self, bytes: &[u8]) -> Result<usize, WriteFailed> {
        let count = self.room.min(bytes.len());
        if count == 0 || self.bytes.extend_from_slice(&bytes[..count]).is_err() {
            self.failed = true;
            self.room = usize::MAX;
            return Err(WriteFailed);
        }
        self.room -= count;
        Ok(count)
    }
}

/// How a session of these bytes goes.
#[derive(Clone, Copy, Drop)]
struct Talk<'a> {
    bytes: &'a [u8],
    /// The most bytes that a read gives.
    size: usize,
    /// Whether the read after the last byte fails.
    fails: bool,
    /// How many bytes the writer takes.
    room: usize,
    turns: u64,
}

/// The run, with room and turns enough.
const TALK: Talk<'_> = Talk {
    bytes: RUN,
    size: 4096,
    fails: false,
    room: 512,
    turns: 256,
};

/// Whether an end and what was written are these.
fn is_told(found: End, end: End, written: &[u8], text: &[u8]) -> bool {
    found == end && written == text
}

/// Whether a session at a server without keys ends so, and what it writes is this. Books are made in functions of one
/// exit: at each exit a book is dear to prove.
fn ends_over(
    alloc: Global,
    hasher: RandomState,
    writer: Kept,
    talk: Talk<'_>,
    end: End,
    text: &[u8],
) -> bool
    requires unwritten { writer.failed ≡ false }
{
    let mut book = Book::new(alloc, Policy::empty(alloc), hasher);
    let mut reader = Pieces::new(talk.bytes, talk.size, talk.fails);
    let mut writer = writer;
    let ended = run_session(
        alloc,
        &mut reader,
        &mut writer,
        &mut PlainDesk::new(&mut book),
        &Stopped,
        &NoGate,
        false,
        talk.turns,
    );
    is_told(ended.end, end, writer.bytes.as_slice(), text)
}

/// Whether it ends so, and writes this.
fn ends(
    rt: &(impl AllocGlobal + RandomSource),
    talk: Talk<'_>,
    end: End,
    text: &[u8],
) -> Result<bool, Fail> {
    let hasher = RandomState::new(rt)?;
    let writer = Kept::with_room(rt.alloc(), talk.room)?;
    Ok(ends_over(rt.alloc(), hasher, writer, talk, end, text))
}

/// What a session writes that has these requests answered at a book.
pub(crate) fn said_at(
    alloc: Global,
    book: &mut Book,
    requests: &[u8],
) -> Result<Vec<u8>, AllocError> {
    let mut writer = Kept::with_room(alloc, 512)?;
    let _ended = run_session(
        alloc,
        &mut Pieces::whole(requests),
        &mut writer,
        &mut PlainDesk::new(book),
        &Stopped,
        &NoGate,
        false,
        9,
    );
    Ok(writer.bytes)
}

/// How many bytes answer so many bytes of the run.
fn answered(taken: usize) -> usize
    ensures { result ≤ 55 }
{
    match taken {
        0..14 => 0,
        14..58 => 7,
        58..79 => 16,
        79..116 => 20,
        _ => 55,
    }
}

/// That the end of the input answers as much is in `tests/requests.py`.
#[test]
fn what_came_before_a_failed_read_is_answered(rt: HostRuntime) -> Result<(), Fail> {
    for taken in 0..=RUN.len() {
        let talk = Talk {
            bytes: &RUN[..taken],
            fails: true,
            ..TALK
        };
        let are_told = ends(&rt, talk, End::ReadFault, &REPLIES[..answered(taken)])?;
        assert!(rt; are_told, "a fault after {taken} bytes");
    }
    Ok(())
}

/// How often a session may read, how many bytes it writes then, and how it ends.
const TURNS: &[(u64, usize, End)] = &[
    (0, 0, End::Turns),
    (1, 0, End::Turns),
    (115, 20, End::Turns),
    (116, 55, End::Turns),
    (117, 55, End::Closed),
];

#[test]
fn reads_as_often_as_it_may(rt: HostRuntime) -> Result<(), Fail> {
    for (turns, count, end) in TURNS {
        let talk = Talk {
            size: 1,
            turns: *turns,
            ..TALK
        };
        assert!(rt; ends(&rt, talk, *end, &REPLIES[..*count])?, "{turns} turns");
    }
    Ok(())
}

/// How many bytes a read gives.
const SIZES: &[usize] = &[1, 4096];

#[test]
fn a_failed_write_says_what_was_sent(rt: HostRuntime) -> Result<(), Fail> {
    for sent in 0..REPLIES.len() {
        for size in SIZES {
            let talk = Talk {
                size: *size,
                room: sent,
                ..TALK
            };
            let is_told = ends(&rt, talk, End::SendFault { sent }, &REPLIES[..sent])?;
            assert!(rt; is_told, "{sent} bytes");
        }
    }
    Ok(())
}

/// The spelling of requests: one a line, their words between single spaces.
pub(crate) fn spelled(alloc: Global, lines: &str) -> Result<Vec<u8>, Fail> {
    let mut text = String::new(alloc);
    for line in lines.split('\n') {
        write!(text, "*{}\r\n", line.split(' ').count())?;
        for word in line.split(' ') {
            write!(text, "${}\r\n{word}\r\n", word.len())?;
        }
    }
    Ok(text.into_bytes())
}

/// Each read of it is interrupted once.
#[derive(Drop)]
struct Interrupted<'a> {
    bytes: &'a [u8],
    again: bool,
    fails: bool,
}

impl Read for Interrupted<'_> {
    fn read(&mut self, buffer: &mut [u8]) -> io::Result<usize> {
        self.again = !self.again;
        if self.again {
            return Err(Error::from(ErrorKind::Interrupted));
        }
        if self.fails && self.bytes.is_empty() {
            return Err(Error::from(ErrorKind::ConnectionReset));
        }
        self.bytes.read(buffer)
    }
}

/// Whether a session of the run whose reads are interrupted ends so, with all replies.
fn reads_again(alloc: Global, hasher: RandomState, fails: bool, end: End) -> bool {
    let mut book = Book::new(alloc, Policy::empty(alloc), hasher);
    let mut written = Vec::new(alloc);
    let mut reader = ReadFrom::new(Interrupted {
        bytes: RUN,
        again: false,
        fails,
    });
    let mut writer = WriteTo::new(&mut written);
    let ended = run_session(
        alloc,
        &mut reader,
        &mut writer,
        &mut PlainDesk::new(&mut book),
        &Stopped,
        &NoGate,
        false,
        9,
    );
    drop(writer);
    is_told(ended.end, end, written.as_slice(), REPLIES)
}

/// Whether the read after the last byte fails, and how the session ends.
const INTERRUPTED: &[(bool, End)] = &[(false, End::Closed), (true, End::ReadFault)];

#[test]
fn an_interrupted_read_is_tried_again(rt: HostRuntime) -> Result<(), Fail> {
    for (fails, end) in INTERRUPTED {
        let hasher = RandomState::new(&rt)?;
        assert!(rt; reads_again(rt.alloc(), hasher, *fails, *end), "{end:?}");
    }
    Ok(())
}
