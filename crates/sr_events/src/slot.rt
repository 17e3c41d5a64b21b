ghost use Rattle.std.specs.Prelude.{◌≡◌, ◌≢◌, ◌||◌, true, false};
ghost use Rattle.mio.specs.Event.{is_readable, is_error, is_read_closed, is_write_closed};
ghost use Rattle.sr_events.specs.Slot.{Ends, IsEmpty, Reads, Tells, Writes, fresh, has_ended, has_turn, is_read, noted};

use crate::key::generation_after;
use crate::stream::Stream;
use mio::event::Event;
use sr_hub::Heard;
use std::io::ErrorKind;
use std::marker::Model;

/// How far the last write to a connection came.
#[derive(Clone, Copy, Debug, PartialEq, Eq)]
enum Output {
    /// All was taken.
    Taken,
    /// It came short, and there is no room.
    Full,
    /// It came short, and there may be room again.
    Room,
}

impl Output {
    ghost use Rattle.std.specs.Prelude.{◌≡◌};
    ghost use Rattle.sr_events.specs.Slot.{with_room};

    /// The same, once there is room.
    fn with_room(self) -> Output
        ensures { result ≡ with_room self }
    {
        match self {
            Output::Taken => Output::Taken,
            Output::Full | Output::Room => Output::Room,
        }
    }
}

/// A place for a connection, and what is known of the one that is there.
#[derive(Drop)]
pub(crate) struct Slot<S: Stream> {
    stream: Option<S>,
    /// Another one for each connection that is there.
    generation: u32,
    /// Bytes may wait to be read.
    readable: bool,
    /// The peer closed its writing half: after the bytes that wait comes the end.
    ended: bool,
    output: Output,
    /// It is not to be read for now.
    held: bool,
    /// The connection is over.
    failed: bool,
}

impl<S: Stream> Model for Slot<S> {
    ghost use Rattle.std.specs.Prelude.{is_some};
    ghost use Rattle.sr_events.specs.Bytes.{known_of};
    ghost use Rattle.sr_events.specs.Slot.{SlotState};

    ghost Value = { SlotState };

    ghost view = { λ slot. record {
      taken = is_some slot.stream;
      generation = slot.generation;
      readable = slot.readable;
      ended = slot.ended;
      output = slot.output;
      held = slot.held;
      failed = slot.failed;
      gave = known_of S.gave slot.stream;
      got = known_of S.got slot.stream;
    } };
}

impl<S: Stream> Slot<S> {
    /// A place without a connection.
    pub fn new() -> Slot<S>
        ensures { result ≡ fresh false 1 }
    {
        Slot {
            stream: None,
            generation: 1,
            readable: false,
            ended: false,
            output: Output::Taken,
            held: false,
            failed: false,
        }
    }

    /// The generation that a connection has which is there, or comes there next.
    pub fn generation(&self) -> u32
        ensures { result ≡ self.now.generation }
    {
        self.generation
    }

    /// Puts a connection there.
    pub fn fill(&mut self, stream: S)
        ensures { self.new ≡ record (fresh true self.old.generation) { gave = S.gave stream; got = S.got stream } }
    {
        self.stream = Some(stream);
        self.readable = false;
        self.ended = false;
        self.output = Output::Taken;
        self.held = false;
        self.failed = false;
    }

    /// Closes the connection that is there. Answers whether there was one.
    pub fn clear(&mut self) -> bool
        ensures value { result ≡ self.old.taken }
        ensures gone { IsEmpty self.new }
        ensures none { self.old.taken ≡ false → self.new ≡ self.old }
        ensures generation { self.old.taken ≡ true → self.new.generation ≢ self.old.generation }
    {
        if self.stream.is_none() {
            return false;
        }
        self.stream = None;
        self.generation = generation_after(self.generation);
        true
    }

    /// Has the connection not be read from now on, or read again.
    pub fn hold(&mut self, held: bool)
        ensures { self.new ≡ record self.old { held = held } }
    {
        self.held = held;
    }

    /// Whether something can be told of the connection.
    pub fn has_turn(&self) -> bool
        ensures { result ≡ has_turn self.now }
    {
        self.stream.is_some() && (self.failed || self.output == Output::Room || self.is_read())
    }

    /// Whether the connection is to be read: bytes wait, and it is not held back.
    ///
    /// If its peer sends no more it is read only once all was written to it: the end of its stream is seen after all
    /// that came before it was answered.
    fn is_read(&self) -> bool
        ensures { result ≡ is_read self.now }
    {
        self.readable && !self.held && (!self.ended || self.output == Output::Taken)
    }

    /// Whether the connection is over, or its peer sends no more.
    pub fn has_ended(&self) -> bool
        ensures { result ≡ has_ended self.now }
    {
        self.failed || self.ended
    }

    /// Notes what an event says of the connection.
    pub fn note(&mut self, event: &Event)
        ensures { self.new ≡ noted event.now self.old }
    {
        self.failed |= is_over(event);
        self.readable |= has_bytes_or_end(event);
        self.ended |= event.is_read_closed();
        if event.is_writable() {
            self.output = self.output.with_room();
        }
    }

    /// What can be told of the connection, which has this token: that it is over, that there is room, or its next
    /// bytes.
    pub fn turn(&mut self, token: usize, buffer: &mut [u8]) -> Option<Heard>
        ensures { Tells token buffer.new self.old result self.new }
    {
        if self.failed {
            return Some(Heard::Over { token });
        }
        if self.output == Output::Room {
            self.output = Output::Full;
            return Some(Heard::Room { token });
        }
        if self.is_read() {
            return self.read(token, buffer);
        }
        None
    }

    /// Reads the connection once.
    fn read(&mut self, token: usize, buffer: &mut [u8]) -> Option<Heard>
        ensures { Reads token buffer.new self.old result self.new }
    {
        let stream = self.stream.as_mut()?;
        match stream.read(buffer) {
            Ok(0) if !buffer.is_empty() => self.end(token),
            Ok(count) => {
                // After a short read nothing waits, but the end of a stream whose peer sends no more.
                self.readable = self.ended || count == buffer.len();
                Some(Heard::Bytes { token, count })
            }
            Err(error) => match error.kind() {
                ErrorKind::WouldBlock => {
                    self.readable = false;
                    None
                }
                ErrorKind::Interrupted => None,
                _ => self.fail(token),
            },
        }
    }

    /// The end of the stream was read. It is told once all was written: until then it is as if it was not read.
    fn end(&mut self, token: usize) -> Option<Heard>
        ensures { Ends token self.old result self.new }
    {
        if self.output == Output::Taken {
            return self.fail(token);
        }
        self.ended = true;
        None
    }

    /// The connection is over.
    fn fail(&mut self, token: usize) -> Option<Heard>
        ensures told { result ≡ Some (Heard.Over token) }
        ensures failed { self.new ≡ record self.old { failed = true } }
    {
        self.failed = true;
        Some(Heard::Over { token })
    }

    /// Writes some of these bytes, from the first on, and answers how many.
    pub fn write(&mut self, bytes: &[u8]) -> usize
        ensures { Writes bytes.now self.old result self.new }
    {
        let Some(stream) = self.stream.as_mut() else {
            return 0;
        };
        match stream.write(bytes) {
            Ok(count) => {
                self.output = if count < bytes.len() {
                    Output::Full
                } else {
                    Output::Taken
                };
                count
            }
            Err(error) => {
                match error.kind() {
                    ErrorKind::WouldBlock => self.output = Output::Full,
                    // It is tried again at the connection's next turn.
                    ErrorKind::Interrupted => self.output = Output::Room,
                    _ => self.failed = true,
                }
                0
            }
        }
    }
}

/// Whether an event says that its connection is over.
fn is_over(event: &Event) -> bool
    ensures { result ≡ (is_error event.now || is_write_closed event.now) }
{
    event.is_error() || event.is_write_closed()
}

/// Whether an event says that bytes wait to be read, or the end after them.
fn has_bytes_or_end(event: &Event) -> bool
    ensures { result ≡ (is_readable event.now || is_read_closed event.now) }
{
    event.is_readable() || event.is_read_closed()
}
