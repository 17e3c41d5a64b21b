ghost use Rattle.std.specs.Prelude.{◌≡◌, ◌^◌, ◌<◌};
ghost use Rattle.sr_space.specs.Blocking as waits;

use crate::Space;
use crate::bounds::in_63_bits;
use crate::commands::xread::{any_after, any_after_at};
use crate::commands::xreadgroup::{any_answers_at, have_group, lists_any};
use sr_args::commands::Xread;
use sr_args::{Call, Position, Streams};
use sr_bytes::Name;
use sr_ids::Id;
use sr_resp::Reply;
use std::alloc::{AllocError, Global};

/// What a call leads to.
#[derive(Drop)]
pub enum Outcome {
    /// A reply, made twice before the effect: one to send, and an equal one for the record of the call.
    Reply { send: Reply, keep: Reply },
    /// A read that waits: the call to be tried again, without BLOCK and with an id in the place of each `$`, and the
    /// moment at which it is answered in any case, in milliseconds since 1970, if there is one.
    Blocked { call: Call, deadline: Option<u64> },
}

impl Space {
    ghost use Rattle.std.specs.Prelude.{◌≡◌, ℕ, not, map, OnOk, OnErr, IfOk};
    ghost use Rattle.sr_space.specs.Keys.{stream_at};
    ghost use Rattle.sr_space.specs.Effect.{at_once};
    ghost use Rattle.sr_space.specs.Blocking.{answered, executed, finds_nothing, fixed_position, waiting_as, waits};
    ghost use Rattle.sr_space.specs.Readers.{read_at};
    ghost use Rattle.sr_space.specs.commands.Xread.{read_from};

    /// Whether a read has an answer now; any other call has one. Takes no memory.
    ///
    /// Source: Redis documentation, commands XREAD and XREADGROUP, "BLOCK".
    pub fn ready(&self, call: &Call) -> bool
        ensures { (moment : ℕ) → result ≡ not (finds_nothing self.now moment call.now) }
    {
        match call {
            Call::Xread(read) => any_after(self, read.streams.as_slice()),
            Call::Xreadgroup(read) => {
                let streams = read.streams.as_slice();
                if !have_group(self, &read.group, streams) {
                    return true;
                }
                lists_any(self, &read.group, streams)
            }
            _ => true,
        }
    }

    /// Whether a read has an answer now from its stream at the key; any call that is no read has one. Takes no memory.
    pub fn ready_at(&self, call: &Call, key: &Name) -> bool
        ensures { (moment : ℕ) → result ≡ not (finds_nothing self.now moment (read_at key.now call.now)) }
    {
        match call {
            Call::Xread(read) => any_after_at(self, read.streams.as_slice(), key),
            Call::Xreadgroup(read) => {
                any_answers_at(self, &read.group, read.streams.as_slice(), key)
            }
            _ => true,
        }
    }

    /// Carries out a call at a moment, in milliseconds since 1970: a read with BLOCK that finds nothing waits, and
    /// every other call is answered at once. An `Err` leaves every key as it was.
    ///
    /// Source: Redis documentation, the page of each command.
    pub fn exec(&mut self, alloc: Global, moment: u64, call: &Call) -> Result<Outcome, AllocError>
        ensures keys { OnOk result (self.new ≡ (executed self.old moment call.now).keys) }
        ensures outcome { IfOk result (λ outcome. outcome ≡ (executed self.old moment call.now).outcome) }
        ensures err { OnErr result (self.new ≡ self.old) }
    {
        match call.block() {
            Some(wait) if !self.ready(call) => self.begin_waiting(alloc, moment, call, wait),
            _ => self.answer(alloc, moment, call),
        }
    }

    /// Answers a call at once.
    fn answer(&mut self, alloc: Global, moment: u64, call: &Call) -> Result<Outcome, AllocError>
        ensures keys { OnOk result (self.new ≡ (answered (at_once self.old moment call.now)).keys) }
        ensures outcome { IfOk result (λ outcome. outcome ≡ (answered (at_once self.old moment call.now)).outcome) }
        ensures err { OnErr result (self.new ≡ self.old) }
    {
        let answered = self.at_once(alloc, moment, call)?;
        let (send, keep) = answered.into_replies();
        Ok(Outcome::Reply { send, keep })
    }

    /// Lets a read wait for that many milliseconds; 0 is without end.
    fn begin_waiting(
        &mut self,
        alloc: Global,
        moment: u64,
        call: &Call,
        wait: u64,
    ) -> Result<Outcome, AllocError>
        ensures keys { OnOk result (self.new ≡ (waits self.old moment call.now wait).keys) }
        ensures outcome { IfOk result (λ outcome. outcome ≡ (waits self.old moment call.now wait).outcome) }
        ensures err { OnErr result (self.new ≡ self.old) }
    {
        let again = self.waiting_as(alloc, call)?;
        self.make_consumers(alloc, moment, call)?;
        Ok(Outcome::Blocked {
            call: again,
            deadline: deadline_of(in_63_bits(moment), wait),
        })
    }

    /// What a read leaves that finds nothing: its consumers, if it reads for a group. XREAD leaves nothing, so its keys
    /// are not looked up again.
    fn make_consumers(&mut self, alloc: Global, moment: u64, call: &Call) -> Result<(), AllocError>
        ensures keys { OnOk result (self.new ≡ (at_once self.old moment call.now).keys) }
        ensures err { OnErr result (self.new ≡ self.old) }
    {
        if let Call::Xread(_) = call {
            return Ok(());
        }
        let _nothing = self.at_once(alloc, moment, call)?;
        Ok(())
    }

    /// The call as which a read waits: without BLOCK, and each `$` the last id of its stream.
    fn waiting_as(&self, alloc: Global, call: &Call) -> Result<Call, AllocError>
        ensures { IfOk result (λ again. again ≡ waiting_as self.now call.now) }
    {
        match call {
            Call::Xread(read) => {
                let list = self.fixed(alloc, read.streams.as_slice())?;
                Ok(Call::Xread(Xread {
                    count: read.count,
                    block: None,
                    streams: Streams::new(list),
                }))
            }
            _ => {
                let again = call.copy(alloc)?;
                Ok(again.without_block())
            }
        }
    }

    /// The streams of a read, each after an id.
    fn fixed(
        &self,
        alloc: Global,
        streams: &[(Name, Position)],
    ) -> Result<Vec<(Name, Position)>, AllocError>
        ensures { IfOk result (λ list. list.items ≡ map (fixed_position self.now) streams.now) }
    {
        let mut list = Vec::with_capacity(alloc, streams.len())?;
        for (key, from) in streams {
            let id = self.read_from(key, *from);
            list.push((key.copy(alloc)?, Position::At(id)))?;
        }
        Ok(list)
    }

    /// The id after which a stream is read.
    fn read_from(&self, key: &Name, from: Position) -> Id
        ensures { result ≡ read_from from (stream_at self.now key.now) }
    {
        match from {
            Position::At(id) => id,
            Position::Last => match self.stream(key) {
                None => Id { ms: 0, seq: 0 },
                Some(stream) => stream.last_id(),
            },
        }
    }
}

/// Until when a read waits that began at this moment and waits for that many milliseconds; 0 is without end.
fn deadline_of(moment: u64, wait: u64) -> Option<u64>
    requires { moment < 2 ^ 63 }
    ensures { result ≡ waits.deadline_of moment wait }
{
    if wait == 0 || wait > i64::MAX as u64 - moment {
        return None;
    }
    Some(moment + wait)
}
