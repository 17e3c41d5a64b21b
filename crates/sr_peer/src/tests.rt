// What no clause says: that bytes which other servers send are read as their pages have it, at which byte other bytes
// are refused, and that a call succeeds. The texts are those of the RESP2 protocol specification and of Redis.
ghost use Rattle.std.specs.Prelude.{Some, take};
ghost use Rattle.sr_peer.specs.Exchange.{IsOfConnection};

use crate::{
    Answers, MOST_BYTES, Part, Peer, PeerFault, TakeFault, append_header, append_number,
    append_word, ask,
};
use std::alloc::{AllocError, Global};
use std::test::Fail;

/// A text, how many replies it spells, and their parts.
const SPELLED: &[(&[u8], usize, &[Part<'static>])] = &[
    (b"+OK\r\n", 1, &[Part::Simple(b"OK")]),
    (b"+\r\n", 1, &[Part::Simple(b"")]),
    (
        b"-NOGROUP No such key\r\n",
        1,
        &[Part::Error(b"NOGROUP No such key")],
    ),
    (b":1000\r\n", 1, &[Part::Int(1000)]),
    (b":0\r\n:-1\r\n", 2, &[Part::Int(0), Part::Int(-1)]),
    (b":9223372036854775807\r\n", 1, &[Part::Int(i64::MAX)]),
    (b":-9223372036854775808\r\n", 1, &[Part::Int(i64::MIN)]),
    (b"$5\r\nhello\r\n", 1, &[Part::Bulk(b"hello")]),
    (b"$0\r\n\r\n$-1\r\n", 2, &[Part::Bulk(b""), Part::NullBulk]),
    (b"$4\r\n\r\n$1\r\n", 1, &[Part::Bulk(b"\r\n$1")]),
    (b"*0\r\n*-1\r\n", 2, &[Part::Array(0), Part::NullArray]),
    (
        b"*2\r\n*1\r\n:1\r\n*2\r\n+Hello\r\n-World\r\n",
        1,
        &[
            Part::Array(2),
            Part::Array(1),
            Part::Int(1),
            Part::Array(2),
            Part::Simple(b"Hello"),
            Part::Error(b"World"),
        ],
    ),
    (b"", 0, &[]),
];

#[test]
fn parts_are_read_however_the_bytes_come(rt: HostRuntime) -> Result<(), Fail> {
    for (i, (text, count, parts)) in SPELLED.iter().enumerate() {
        assert!(rt;
            comes_whole(rt.alloc(), text, *count, parts),
            "row {i} whole"
        );
        assert!(rt;
            comes_in_bytes(rt.alloc(), text, *count, parts),
            "row {i} in bytes"
        );
    }
    Ok(())
}

/// Whether the text, taken at once, spells these parts.
fn comes_whole(alloc: Global, text: &[u8], count: usize, parts: &[Part<'static>]) -> bool {
    let mut answers = Answers::new(alloc, count);
    answers.take(text) == Ok(()) && answers.text() == text && has_parts(&answers, parts)
}

/// Whether it spells them byte by byte, and is whole at its last byte.
fn comes_in_bytes(alloc: Global, text: &[u8], count: usize, parts: &[Part<'static>]) -> bool {
    let mut answers = Answers::new(alloc, count);
    for byte in text {
        if answers.are_whole() || answers.take(&[*byte]) != Ok(()) {
            return false;
        }
    }
    has_parts(&answers, parts)
}

/// Whether the replies are whole and have these parts.
fn has_parts(answers: &Answers, parts: &[Part<'static>]) -> bool {
    if !answers.are_whole() {
        return false;
    }
    let mut found = answers.parts();
    let mut again = found.again();
    for part in parts {
        if found.next() != Some(*part) || again.next() != Some(*part) {
            return false;
        }
    }
    found.next().is_none()
}

/// A text, how many replies are awaited, at which byte it is refused, and why.
const REFUSED: &[(&[u8], usize, usize, TakeFault)] = &[
    (b"OK\r\n", 1, 0, TakeFault::Malformed),
    (b"%1\r\n", 1, 0, TakeFault::Malformed),
    (b"+a\nb\r\n", 1, 2, TakeFault::Malformed),
    (b"+a\rb", 1, 3, TakeFault::Malformed),
    (b":01\r\n", 1, 2, TakeFault::Malformed),
    (b":+1\r\n", 1, 1, TakeFault::Malformed),
    (b":-0\r\n", 1, 2, TakeFault::Malformed),
    (b":\r\n", 1, 1, TakeFault::Malformed),
    (b":9223372036854775808\r\n", 1, 19, TakeFault::Malformed),
    (b"$-2\r\n", 1, 2, TakeFault::Malformed),
    (b"$-10\r\n", 1, 3, TakeFault::Malformed),
    (b"$3\r\nabcd", 1, 7, TakeFault::Malformed),
    (b"$3\r\nabc\r\r", 1, 8, TakeFault::Malformed),
    (b"*-\r\n", 1, 2, TakeFault::Malformed),
    (b"*1\r\n:1\r\n:", 1, 8, TakeFault::Malformed),
    (b"+OK\r\n+OK\r\n+", 2, 10, TakeFault::Malformed),
    (b"+", 0, 0, TakeFault::Malformed),
    // A reply that would have more bytes than all may have.
    (b"$67108864\r\n", 1, 10, TakeFault::TooLong),
    (b"*67108865\r\n", 1, 10, TakeFault::TooLong),
];

#[test]
fn other_bytes_are_refused_where_they_show(rt: HostRuntime) -> Result<(), Fail> {
    for (i, (text, count, at, fault)) in REFUSED.iter().enumerate() {
        let mut answers = Answers::new(rt.alloc(), *count);
        assert_eq!(rt; answers.take(text), Err(*fault), "row {i} whole");
        assert!(rt; answers.text().is_empty(), "row {i} is not taken");
        assert_eq!(rt;
            first_refused(&mut answers, text),
            Some((*at, *fault)),
            "row {i} in bytes"
        );
    }
    Ok(())
}

/// The first byte that is refused, and why.
fn first_refused(answers: &mut Answers, text: &[u8]) -> Option<(usize, TakeFault)> {
    for (i, byte) in text.iter().enumerate() {
        if let Err(fault) = answers.take(&[*byte]) {
            return Some((i, fault));
        }
    }
    None
}

#[test]
fn lines_and_replies_have_a_greatest_length(rt: HostRuntime) -> Result<(), Fail> {
    let text = vec![in rt.alloc(); b'a'; 65_536]?;
    let mut answers = Answers::new(rt.alloc(), 1);
    assert_eq!(rt; answers.take(b"+"), Ok(()));
    assert_eq!(rt; answers.take(text.as_slice()), Ok(()));
    assert_eq!(rt; answers.take(b"a"), Err(TakeFault::Malformed));
    assert_eq!(rt; answers.take(b"\r\n"), Ok(()));
    assert!(rt; answers.are_whole());
    // The greatest bulk string fills the limit to its last byte.
    let mut answers = Answers::new(rt.alloc(), 1);
    assert_eq!(rt; answers.take(b"$67108851\r\n"), Ok(()));
    assert_eq!(rt; MOST_BYTES, 11 + 67_108_851 + 2);
    Ok(())
}

#[test]
fn requests_are_spelled_as_a_client_sends_them(rt: HostRuntime) -> Result<(), Fail> {
    let mut out = Vec::new(rt.alloc());
    append_header(&mut out, 3)?;
    append_word(&mut out, b"XLEN")?;
    append_word(&mut out, b"")?;
    append_number(&mut out, u64::MAX)?;
    assert_eq!(rt;
        out.as_slice(),
        b"*3\r\n$4\r\nXLEN\r\n$0\r\n\r\n$20\r\n18446744073709551615\r\n".as_slice()
    );
    Ok(())
}

/// What comes of a peer at the end of its bytes.
#[derive(Clone, Copy)]
enum End {
    Memory,
    Closed,
    Silent,
    Failed,
}

impl End {
    fn fault(self) -> PeerFault
        ensures { IsOfConnection result }
    {
        match self {
            End::Memory => PeerFault::Memory,
            End::Closed => PeerFault::Closed,
            End::Silent => PeerFault::Silent,
            End::Failed => PeerFault::Failed,
        }
    }
}

/// A peer in memory, which sends a text in pieces of a few bytes.
#[derive(Drop)]
struct InMemory<'a> {
    text: &'a [u8],
    at: usize,
    step: u8,
    end: End,
    takes: bool,
    sent: Vec<u8>,
}

impl<'a> InMemory<'a> {
    fn new(alloc: Global, text: &'a [u8], step: u8, end: End) -> InMemory<'a> {
        InMemory {
            text,
            at: 0,
            step,
            end,
            takes: true,
            sent: Vec::new(alloc),
        }
    }
}

impl<'a> Peer for InMemory<'a> {
    ghost sent = { λ p. Some p.sent.items };

    ghost got = { λ p. Some (take p.at p.text.now) };

    fn send(&mut self, bytes: &[u8]) -> Result<(), PeerFault> {
        if !self.takes {
            return Err(PeerFault::Failed);
        }
        match self.sent.extend_from_slice(bytes) {
            Ok(()) => Ok(()),
            Err(AllocError) => Err(PeerFault::Memory),
        }
    }

    fn receive(&mut self, alloc: Global) -> Result<Vec<u8>, PeerFault> {
        let text = self.text;
        let at = self.at;
        if at >= text.len() || self.step == 0 {
            return Err(self.end.fault());
        }
        let count = usize::from(self.step).min(text.len() - at);
        match Vec::from_slice(alloc, &text[at..at + count]) {
            Ok(piece) => {
                self.at = at + count;
                Ok(piece)
            }
            Err(AllocError) => Err(PeerFault::Memory),
        }
    }
}

#[test]
fn a_peer_is_asked_once_however_its_replies_come(rt: HostRuntime) -> Result<(), Fail> {
    for step in [1, 2, 200] {
        let mut peer = InMemory::new(rt.alloc(), b":1000\r\n", step, End::Closed);
        assert_eq!(rt;
            length_of(&mut peer, rt.alloc(), b"s"),
            Ok(Some(1000)),
            "by {step}"
        );
        assert_eq!(rt;
            peer.sent.as_slice(),
            b"*2\r\n$4\r\nXLEN\r\n$1\r\ns\r\n".as_slice()
        );
    }
    Ok(())
}

/// How many entries the stream at this key has. `None` if the server answers something else.
fn length_of<P: Peer>(peer: &mut P, alloc: Global, key: &[u8]) -> Result<Option<i64>, PeerFault> {
    let mut request = Vec::new(alloc);
    match spell(&mut request, key) {
        Ok(()) => {}
        Err(AllocError) => return Err(PeerFault::Memory),
    }
    let answers = ask(peer, alloc, request.as_slice(), 1)?;
    let mut parts = answers.parts();
    match parts.next() {
        Some(Part::Int(entries)) => Ok(Some(entries)),
        _ => Ok(None),
    }
}

fn spell(request: &mut Vec<u8>, key: &[u8]) -> Result<(), AllocError> {
    append_header(request, 2)?;
    append_word(request, b"XLEN")?;
    append_word(request, key)
}

/// A text, how it ends, and what comes of waiting for one reply.
const FAILING: &[(&[u8], End, PeerFault)] = &[
    (b"+OK\r", End::Closed, PeerFault::Closed),
    (b"", End::Silent, PeerFault::Silent),
    (b"$3\r\nab", End::Failed, PeerFault::Failed),
    (b"*1\r\n", End::Memory, PeerFault::Memory),
    (b"+OK\r\n+OK\r\n", End::Closed, PeerFault::Malformed),
    (b"*2\r\n:x\r\n", End::Closed, PeerFault::Malformed),
    (b"$67108864\r\n", End::Closed, PeerFault::TooLong),
];

#[test]
fn each_failure_of_a_peer_is_told(rt: HostRuntime) -> Result<(), Fail> {
    for (i, (text, end, fault)) in FAILING.iter().enumerate() {
        let mut peer = InMemory::new(rt.alloc(), text, 6, *end);
        assert_eq!(rt; fault_of(&mut peer, rt.alloc()), Some(*fault), "row {i}");
    }
    let mut peer = InMemory::new(rt.alloc(), b"+OK\r\n", 6, End::Closed);
    peer.takes = false;
    assert_eq!(rt; fault_of(&mut peer, rt.alloc()), Some(PeerFault::Failed));
    Ok(())
}

fn fault_of(peer: &mut InMemory<'_>, alloc: Global) -> Option<PeerFault> {
    ask(peer, alloc, b"", 1).err()
}
