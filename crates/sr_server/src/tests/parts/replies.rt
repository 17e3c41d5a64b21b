// What no clause says and no program shows: the bytes that a failing writer was given. How replies are spelled is in
// tests/histories/replies.history and tests/commands.
use sr_resp::{SendFault, WriteTo, send_all};
use std::alloc::{AllocError, Global};
use std::io::{self, ErrorKind, Write};
use std::test::Fail;

/// Bytes, the turns of a writer, what comes of sending it the bytes, and what it then has got.
const WRITES: &[(&[u8], &[Turn], Result<(), SendFault>, &[u8])] = &[
    // A write fails, and one takes nothing: neither is tried again.
    (
        b"+PONG\r\n",
        &[Turn::Takes(3), Turn::Fails, Turn::Takes(4)],
        Err(SendFault { sent: 3 }),
        b"+PO",
    ),
    (
        b"+PONG\r\n",
        &[Turn::Takes(3), Turn::Takes(0), Turn::Takes(4)],
        Err(SendFault { sent: 3 }),
        b"+PO",
    ),
    // An interrupted write is tried again.
    (
        b"+PONG\r\n",
        &[
            Turn::Interrupted,
            Turn::Takes(3),
            Turn::Interrupted,
            Turn::Takes(9),
        ],
        Ok(()),
        b"+PONG\r\n",
    ),
    // No bytes need no write.
    (b"", &[], Ok(()), b""),
];

#[test]
fn bytes_are_sent_until_a_write_fails(rt: HostRuntime) -> Result<(), Fail> {
    for (i, (bytes, turns, outcome, got)) in WRITES.iter().enumerate() {
        assert!(rt; sends(rt.alloc(), bytes, turns, *outcome, got)?, "row {i}");
    }
    Ok(())
}

/// Whether the bytes, sent to a writer with these turns, have this outcome and leave it with what it should have got.
fn sends(
    alloc: Global,
    bytes: &[u8],
    turns: &[Turn],
    outcome: Result<(), SendFault>,
    got: &[u8],
) -> Result<bool, AllocError> {
    let mut writer = Scripted::new(alloc, turns)?;
    let sent = send_all(&mut WriteTo::new(&mut writer), bytes);
    Ok(sent == outcome && writer.got.as_slice() == got)
}

/// What a writer does at one write.
#[derive(Clone, Copy)]
enum Turn {
    /// It takes at most this many bytes.
    Takes(usize),
    Interrupted,
    Fails,
}

/// A writer that takes its turns one by one, and fails after the last.
#[derive(Drop)]
struct Scripted<'a> {
    got: Vec<u8>,
    turns: std::slice::Iter<'a, Turn>,
}

impl<'a> Scripted<'a> {
    /// A writer that has memory for what it takes.
    fn new(alloc: Global, turns: &'a [Turn]) -> Result<Scripted<'a>, AllocError> {
        Ok(Scripted {
            got: Vec::with_capacity(alloc, 16)?,
            turns: turns.iter(),
        })
    }
}

impl Write for Scripted<'_> {
    fn write(&mut self, bytes: &[u8]) -> io::Result<usize> {
        match self.turns.next() {
            Some(Turn::Takes(most)) => {
                let taken = bytes.len().min(*most);
                self.got.extend_from_slice(&bytes[..taken])?;
                Ok(taken)
            }
            Some(Turn::Interrupted) => Err(io::Error::from(ErrorKind::Interrupted)),
            Some(Turn::Fails) | None => Err(io::Error::from(ErrorKind::BrokenPipe)),
        }
    }

    fn flush(&mut self) -> io::Result<()> {
        Ok(())
    }
}
