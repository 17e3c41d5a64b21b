//! Boards, snapshots and verdicts.
ghost use Rattle.std.specs.Prelude.{◌≡◌, ◌≢◌, IfOk, OnOk};
ghost use Rattle.sr_policy.specs.{same};
ghost use Rattle.sr_resp.specs.{error_reply};
ghost use Rattle.sr_book.specs.Server.{snap_code};

use super::Machine;
use crate::{Acted, Out, Sent};
use sr_args::Names;
use sr_bytes::Name;
use sr_dash::board;
use sr_plan::Verdict;
use sr_policy::Snapshot;
use sr_resp::{ErrCode, Reply};
use sr_space::SnapFault;
use std::alloc::{AllocError, Global};

impl Machine {
    ghost use Rattle.std.specs.Prelude.{◌≡◌, ◌^◌, ◌<◌, [], true, None, Some, OnOk, OnErr, IfOk, IfErr};
    ghost use Rattle.sr_check.specs.{verdict_answer};
    ghost use Rattle.sr_space.specs.{group_at, snapped};
    ghost use Rattle.sr_book.specs.Server.{after_call, board_reply, concluded, fresh_snapshot, is_open, keys_after};
    ghost use Rattle.sr_book.specs.Server.{replied};
    ghost use Rattle.sr_book.specs.Server.{snapped_for, unreplied};

    /// The board of a group, as the policy and the moment of the record give it.
    ///
    /// Source: docs/COMMANDS.md, RECOVER.BOARD.
    pub(super) fn board(
        &mut self,
        alloc: Global,
        session: u64,
        moment: u64,
        key: &Name,
        group: &Name,
    ) -> Result<Acted, AllocError>
        requires bound { moment < 2 ^ 63 }
        requires there { is_open session self.old.sessions ≡ true }
        ensures server { OnOk result (self.new ≡ (replied session moment self.old self.old.keys
            (board_reply self.old.rules moment (group_at self.old.keys key.now group.now))).server) }
        ensures out { IfOk result (λ acted. acted.out ≡ (replied session moment self.old self.old.keys
            (board_reply self.old.rules moment (group_at self.old.keys key.now group.now))).out) }
        ensures sent { IfOk result (λ acted. acted.sent ≡ (replied session moment self.old self.old.keys
            (board_reply self.old.rules moment (group_at self.old.keys key.now group.now))).sent) }
        ensures err { OnErr result (self.new ≡ self.old) }
    {
        let reply = self.board_reply(alloc, moment, key, group)?;
        self.reply(alloc, session, moment, reply)
    }

    /// The board as a bulk string, or that there is no such group.
    fn board_reply(
        &self,
        alloc: Global,
        moment: u64,
        key: &Name,
        group: &Name,
    ) -> Result<Reply, AllocError>
        ensures { IfOk result (λ reply. reply ≡
            board_reply self.now.rules moment (group_at self.now.keys key.now group.now)) }
    {
        match self.space.group(key, group) {
            None => Ok(Reply::error(alloc, ErrCode::NoGroup)),
            Some(group) => {
                let text = board(alloc, group, moment, &self.policy)?;
                Ok(Reply::bulk(alloc, Name::new(text)))
            }
        }
    }

    /// The snapshot of a group with these consumers dead, or why there is none.
    ///
    /// Source: docs/RECOVERY.md.
    pub(super) fn snapshot(
        &mut self,
        alloc: Global,
        session: u64,
        moment: u64,
        key: &Name,
        group: &Name,
        dead: &Names,
    ) -> Result<Acted, AllocError>
        requires bound { moment < 2 ^ 63 }
        requires there { is_open session self.old.sessions ≡ true }
        ensures server { OnOk result (self.new ≡ (snapped_for session moment self.old
            (snapped self.old.rules self.old.keys key.now group.now dead.now)).server) }
        ensures out { IfOk result (λ acted. acted.out ≡ (snapped_for session moment self.old
            (snapped self.old.rules self.old.keys key.now group.now dead.now)).out) }
        ensures sent { IfOk result (λ acted. acted.sent ≡ (snapped_for session moment self.old
            (snapped self.old.rules self.old.keys key.now group.now dead.now)).sent) }
        ensures err { OnErr result (self.new ≡ self.old) }
    {
        match self
            .space
            .snap(alloc, key, group, dead.as_slice(), &self.policy)
        {
            Ok(snapshot) => Ok(self.unreplied(session, moment, Out::Snap(snapshot))),
            Err(fault) => {
                let reply = snap_error(alloc, fault)?;
                self.reply(alloc, session, moment, reply)
            }
        }
    }

    /// Replies a verdict, and carries it out if that is asked, exactly if the group is as the verdict's snapshot shows
    /// it. If not, the fresh snapshot is the answer, or an error in the last round.
    ///
    /// Source: docs/RECOVERY.md.
    pub(super) fn conclude(
        &mut self,
        alloc: Global,
        session: u64,
        moment: u64,
        verdict: &Verdict,
        apply: bool,
        last: bool,
    ) -> Result<Acted, AllocError>
        requires bound { moment < 2 ^ 63 }
        requires there { is_open session self.old.sessions ≡ true }
        ensures server { OnOk result (self.new ≡ (concluded session moment apply last verdict.now self.old
            (fresh_snapshot self.old verdict.now.snapshot)).server) }
        ensures out { IfOk result (λ acted. acted.out ≡ (concluded session moment apply last verdict.now self.old
            (fresh_snapshot self.old verdict.now.snapshot)).out) }
        ensures sent { IfOk result (λ acted. acted.sent ≡ (concluded session moment apply last verdict.now self.old
            (fresh_snapshot self.old verdict.now.snapshot)).sent) }
        ensures err { OnErr result (self.new ≡ self.old) }
    {
        let made = verdict.snapshot();
        match self
            .space
            .snap(alloc, made.key(), made.group(), made.dead(), &self.policy)
        {
            Ok(fresh) => {
                if still_holds(&fresh, made) {
                    self.carry_out(alloc, session, moment, verdict, apply)
                } else if last {
                    self.reply(alloc, session, moment, Reply::error(alloc, ErrCode::Stale))
                } else {
                    Ok(self.unreplied(session, moment, Out::Stale(fresh)))
                }
            }
            Err(fault) => {
                let reply = snap_error(alloc, fault)?;
                self.reply(alloc, session, moment, reply)
            }
        }
    }

    /// Replies a verdict on a group that is as its snapshot shows it, and carries it out if that is asked.
    ///
    /// The reply is made twice before any key changes: what changes the keys is the last step that can fail.
    fn carry_out(
        &mut self,
        alloc: Global,
        session: u64,
        moment: u64,
        verdict: &Verdict,
        apply: bool,
    ) -> Result<Acted, AllocError>
        requires bound { moment < 2 ^ 63 }
        requires there { is_open session self.old.sessions ≡ true }
        ensures server { OnOk result (self.new ≡ (replied session moment self.old
            (keys_after apply moment verdict.now self.old.keys)
            (verdict_answer verdict.now.snapshot verdict.now.answer apply)).server) }
        ensures out { IfOk result (λ acted. acted.out ≡ (replied session moment self.old
            (keys_after apply moment verdict.now self.old.keys)
            (verdict_answer verdict.now.snapshot verdict.now.answer apply)).out) }
        ensures sent { IfOk result (λ acted. acted.sent ≡ (replied session moment self.old
            (keys_after apply moment verdict.now self.old.keys)
            (verdict_answer verdict.now.snapshot verdict.now.answer apply)).sent) }
        ensures err { OnErr result (self.new ≡ self.old) }
    {
        let reply = verdict.reply(alloc, apply)?;
        let keep = reply.copy(alloc)?;
        if apply {
            self.space.commit(alloc, moment, verdict)?;
        }
        self.hear(session, moment);
        Ok(Acted {
            out: Out::Reply(reply),
            sent: Sent::one(session, keep),
        })
    }

    /// An event of a session is answered by a reply, and no key changes.
    fn reply(
        &mut self,
        alloc: Global,
        session: u64,
        moment: u64,
        reply: Reply,
    ) -> Result<Acted, AllocError>
        requires bound { moment < 2 ^ 63 }
        requires there { is_open session self.old.sessions ≡ true }
        ensures server { OnOk result (self.new ≡ (replied session moment self.old self.old.keys reply).server) }
        ensures out { IfOk result (λ acted. acted.out ≡ (replied session moment self.old self.old.keys reply).out) }
        ensures sent { IfOk result (λ acted. acted.sent ≡ (replied session moment self.old self.old.keys reply).sent) }
        ensures err { OnErr result (self.new ≡ self.old) }
    {
        let keep = reply.copy(alloc)?;
        self.hear(session, moment);
        Ok(Acted {
            out: Out::Reply(reply),
            sent: Sent::one(session, keep),
        })
    }

    /// An event of a session changes no key, and no reply is sent. Takes no memory.
    fn unreplied(&mut self, session: u64, moment: u64, out: Out) -> Acted
        requires bound { moment < 2 ^ 63 }
        requires there { is_open session self.old.sessions ≡ true }
        ensures server { self.new ≡ (unreplied session moment self.old out).server }
        ensures out { result.out ≡ out }
        ensures sent { result.sent ≡ [] }
    {
        self.hear(session, moment);
        Acted {
            out,
            sent: Sent::nobody(),
        }
    }

    /// An accepted event of a session empties its letter, and its moment is the last one. Takes no memory.
    fn hear(&mut self, session: u64, moment: u64)
        requires bound { moment < 2 ^ 63 }
        requires there { is_open session self.old.sessions ≡ true }
        ensures { self.new ≡ after_call session moment self.old.keys self.old.waiting self.old }
    {
        self.sessions.set_letter(session, None);
        self.last = moment;
    }
}

/// Whether a group is still as a snapshot shows it, by a fresh one of it.
fn still_holds(fresh: &Snapshot, made: &Snapshot) -> bool
    ensures { result ≡ same fresh.now made.now }
{
    fresh == made
}

/// The error that says why there is no snapshot. A failed allocation is none that is replied.
fn snap_error(alloc: Global, fault: SnapFault) -> Result<Reply, AllocError>
    ensures reply { IfOk result (λ reply. reply ≡ error_reply (snap_code fault)) }
    ensures told { OnOk result (fault ≢ SnapFault.Memory) }
{
    match fault {
        SnapFault::NoGroup => Ok(Reply::error(alloc, ErrCode::NoGroup)),
        SnapFault::TooMany => Ok(Reply::error(alloc, ErrCode::TooMany)),
        SnapFault::Memory => Err(AllocError),
    }
}
