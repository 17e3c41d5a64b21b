ghost use Rattle.std.specs.Prelude.{◌≡◌, ◌↔◌, IsTrue, IfOk};
ghost use Rattle.sr_args.specs.Blocking.{block_of, without_block};

use crate::Names;
use crate::commands::{
    Ping, Xack, Xadd, Xautoclaim, Xclaim, Xdel, XgroupCreate, XgroupCreateConsumer,
    XgroupDelConsumer, XgroupDestroy, XgroupSetId, XinfoConsumers, XinfoGroups, XinfoStream, Xlen,
    Xpending, Xrange, Xread, Xreadgroup, Xrevrange, Xtrim,
};
use sr_bytes::Name;
use sr_ids::Id;
use std::alloc::{AllocError, Global};

/// What a trim leaves in a stream.
///
/// Source: Redis documentation, command XTRIM.
#[derive(Clone, Copy, PartialEq, Eq)]
pub enum TrimBy {
    /// MAXLEN: that many of the newest entries.
    MaxLen(u64),
    /// MINID: the entries that are not below this id.
    MinId(Id),
}

/// A trim of a stream from its oldest entry on.
///
/// Source: Redis documentation, command XTRIM.
#[derive(Clone, Copy, PartialEq, Eq)]
pub struct Trim {
    /// What it leaves.
    pub by: TrimBy,
    /// LIMIT: how many entries it removes at most, if it is above 0.
    pub limit: u64,
}

/// From where a stream is read.
///
/// Source: Redis documentation, commands XGROUP CREATE and XREAD.
#[derive(Clone, Copy, PartialEq, Eq)]
pub enum Position {
    /// `$`: after the last id that the stream gave.
    Last,
    /// After this id.
    At(Id),
}

/// A command that acts on the keys of one server.
///
/// Source: Redis documentation, the page of each command.
pub enum Call {
    Ping(Ping),
    Xadd(Xadd),
    Xtrim(Xtrim),
    Xdel(Xdel),
    Xlen(Xlen),
    Xrange(Xrange),
    Xrevrange(Xrevrange),
    Xack(Xack),
    XgroupCreate(XgroupCreate),
    XgroupSetId(XgroupSetId),
    XgroupDestroy(XgroupDestroy),
    XgroupCreateConsumer(XgroupCreateConsumer),
    XgroupDelConsumer(XgroupDelConsumer),
    XinfoStream(XinfoStream),
    XinfoGroups(XinfoGroups),
    XinfoConsumers(XinfoConsumers),
    Xautoclaim(Xautoclaim),
    Xclaim(Xclaim),
    Xpending(Xpending),
    Xread(Xread),
    Xreadgroup(Xreadgroup),
}

// A function of its own, so that a caller that lets go of one is proved without looking at its parts.
impl Drop for Call {
    fn drop(self) {
        match self {
            Call::Ping(_) => {}
            Call::Xadd(_) => {}
            Call::Xtrim(_) => {}
            Call::Xdel(_) => {}
            Call::Xlen(_) => {}
            Call::Xrange(_) => {}
            Call::Xrevrange(_) => {}
            Call::Xack(_) => {}
            Call::XgroupCreate(_) => {}
            Call::XgroupSetId(_) => {}
            Call::XgroupDestroy(_) => {}
            Call::XgroupCreateConsumer(_) => {}
            Call::XgroupDelConsumer(_) => {}
            Call::XinfoStream(_) => {}
            Call::XinfoGroups(_) => {}
            Call::XinfoConsumers(_) => {}
            Call::Xautoclaim(_) => {}
            Call::Xclaim(_) => {}
            Call::Xpending(_) => {}
            Call::Xread(_) => {}
            Call::Xreadgroup(_) => {}
        }
    }
}

impl Call {
    /// A copy of the call.
    pub fn copy(&self, alloc: Global) -> Result<Call, AllocError>
        ensures { IfOk result (λ copy. copy ≡ self.now) }
    {
        match self {
            Call::Ping(call) => Ok(Call::Ping(call.copy(alloc)?)),
            Call::Xadd(call) => Ok(Call::Xadd(call.copy(alloc)?)),
            Call::Xtrim(call) => Ok(Call::Xtrim(call.copy(alloc)?)),
            Call::Xdel(call) => Ok(Call::Xdel(call.copy(alloc)?)),
            Call::Xlen(call) => Ok(Call::Xlen(call.copy(alloc)?)),
            Call::Xrange(call) => Ok(Call::Xrange(call.copy(alloc)?)),
            Call::Xrevrange(call) => Ok(Call::Xrevrange(call.copy(alloc)?)),
            Call::Xack(call) => Ok(Call::Xack(call.copy(alloc)?)),
            Call::XgroupCreate(call) => Ok(Call::XgroupCreate(call.copy(alloc)?)),
            Call::XgroupSetId(call) => Ok(Call::XgroupSetId(call.copy(alloc)?)),
            Call::XgroupDestroy(call) => Ok(Call::XgroupDestroy(call.copy(alloc)?)),
            Call::XgroupCreateConsumer(call) => Ok(Call::XgroupCreateConsumer(call.copy(alloc)?)),
            Call::XgroupDelConsumer(call) => Ok(Call::XgroupDelConsumer(call.copy(alloc)?)),
            Call::XinfoStream(call) => Ok(Call::XinfoStream(call.copy(alloc)?)),
            Call::XinfoGroups(call) => Ok(Call::XinfoGroups(call.copy(alloc)?)),
            Call::XinfoConsumers(call) => Ok(Call::XinfoConsumers(call.copy(alloc)?)),
            Call::Xautoclaim(call) => Ok(Call::Xautoclaim(call.copy(alloc)?)),
            Call::Xclaim(call) => Ok(Call::Xclaim(call.copy(alloc)?)),
            Call::Xpending(call) => Ok(Call::Xpending(call.copy(alloc)?)),
            Call::Xread(call) => Ok(Call::Xread(call.copy(alloc)?)),
            Call::Xreadgroup(call) => Ok(Call::Xreadgroup(call.copy(alloc)?)),
        }
    }

    /// Whether the other call is the same command with the same parts.
    pub fn equals(&self, other: &Call) -> bool
        ensures { IsTrue result ↔ (self.now ≡ other.now) }
    {
        match self {
            Call::Ping(call) => matches!(other, Call::Ping(other) if call.equals(other)),
            Call::Xadd(call) => matches!(other, Call::Xadd(other) if call.equals(other)),
            Call::Xtrim(call) => matches!(other, Call::Xtrim(other) if call.equals(other)),
            Call::Xdel(call) => matches!(other, Call::Xdel(other) if call.equals(other)),
            Call::Xlen(call) => matches!(other, Call::Xlen(other) if call.equals(other)),
            Call::Xrange(call) => matches!(other, Call::Xrange(other) if call.equals(other)),
            Call::Xrevrange(call) => matches!(other, Call::Xrevrange(other) if call.equals(other)),
            Call::Xack(call) => matches!(other, Call::Xack(other) if call.equals(other)),
            Call::XgroupCreate(call) =>
                matches!(other, Call::XgroupCreate(other) if call.equals(other)),
            Call::XgroupSetId(call) =>
                matches!(other, Call::XgroupSetId(other) if call.equals(other)),
            Call::XgroupDestroy(call) =>
                matches!(other, Call::XgroupDestroy(other) if call.equals(other)),
            Call::XgroupCreateConsumer(call) =>
                matches!(other, Call::XgroupCreateConsumer(other) if call.equals(other)),
            Call::XgroupDelConsumer(call) =>
                matches!(other, Call::XgroupDelConsumer(other) if call.equals(other)),
            Call::XinfoStream(call) =>
                matches!(other, Call::XinfoStream(other) if call.equals(other)),
            Call::XinfoGroups(call) =>
                matches!(other, Call::XinfoGroups(other) if call.equals(other)),
            Call::XinfoConsumers(call) =>
                matches!(other, Call::XinfoConsumers(other) if call.equals(other)),
            Call::Xautoclaim(call) =>
                matches!(other, Call::Xautoclaim(other) if call.equals(other)),
            Call::Xclaim(call) => matches!(other, Call::Xclaim(other) if call.equals(other)),
            Call::Xpending(call) => matches!(other, Call::Xpending(other) if call.equals(other)),
            Call::Xread(call) => matches!(other, Call::Xread(other) if call.equals(other)),
            Call::Xreadgroup(call) =>
                matches!(other, Call::Xreadgroup(other) if call.equals(other)),
        }
    }

    /// For how many milliseconds the call waits for an entry, if it waits: 0 is without end.
    ///
    /// Source: Redis documentation, commands XREAD and XREADGROUP.
    pub fn block(&self) -> Option<u64>
        ensures { result ≡ block_of self.now }
    {
        match self {
            Call::Xread(call) => call.block,
            Call::Xreadgroup(call) => call.block,
            _ => None,
        }
    }

    /// The same call, that does not wait. Takes no memory.
    pub fn without_block(self) -> Call
        ensures { result ≡ without_block self }
    {
        match self {
            Call::Xread(call) => Call::Xread(call.without_block()),
            Call::Xreadgroup(call) => Call::Xreadgroup(call.without_block()),
            call => call,
        }
    }
}

/// What a request asks for.
#[derive(Drop)]
pub enum Command {
    /// A call that acts on the keys.
    Call(Call),
    /// RECOVER.BOARD: what each consumer of a group has, and of the policy.
    ///
    /// Source: docs/COMMANDS.md.
    Board {
        key: Name,
        group: Name,
    },
    /// RECOVER.PLAN and RECOVER.RUN: what dead consumers of a group have left is given to others.
    ///
    /// Source: docs/COMMANDS.md.
    Recover {
        /// Whether the plan is carried out: by RECOVER.RUN.
        apply: bool,
        /// How many rounds are made at most, from 1 to 16.
        tries: u64,
        key: Name,
        group: Name,
        /// The consumers that are dead, in the order in which they are named.
        dead: Names,
    },
}
