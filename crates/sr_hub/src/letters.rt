//! Letters: the replies that records give to sessions which wait.
ghost use Rattle.std.specs.Prelude.{◌≡◌, ◌+◌, ◌^◌, ◌<◌, [], ◌∷◌, drop, length, IfNone, IfSome};
ghost use Rattle.sr_hub.specs.steps.Letters.{gives_letters, lettered_after, lettered_in, sessions_of};

use sr_book::{Kind, Record};
use sr_resp::Reply;

/// The next letter of some records.
#[derive(Clone, Copy)]
pub(crate) struct NextLetter {
    /// How many records come before the one that gives it.
    pub(crate) records: usize,
    /// How many letters that one gives before it.
    pub(crate) before: usize,
    /// The session to which it is given.
    pub(crate) session: u64,
}

/// The next letter of these records, but for the first ones of the first record, this many.
pub(crate) fn next_letter(records: &[Record], passed: usize) -> Option<NextLetter>
    ensures some { IfSome result (λ next. lettered_after passed records.now
        ≡ next.session ∷ lettered_after (next.before + 1) (drop next.records records.now)) }
    ensures within { IfSome result (λ next. next.records < length records.now) }
    ensures fits { IfSome result (λ next. next.before < 2 ^ 63) }
    ensures none { IfNone result (lettered_after passed records.now ≡ []) }
{
    let mut before = passed;
    for place in 0..records.len() {
        if let Some(session) = lettered_at(&records[place], before) {
            return Some(NextLetter {
                records: place,
                before,
                session,
            });
        }
        before = 0;
    }
    None
}

/// The session to which a record gives a letter after the first ones, this many.
fn lettered_at(recorded: &Record, before: usize) -> Option<u64>
    ensures some { IfSome result (λ session.
        drop before (lettered_in recorded.now) ≡ session ∷ drop (before + 1) (lettered_in recorded.now)) }
    ensures fits { IfSome result (λ session. before < 2 ^ 63) }
    ensures none { IfNone result (drop before (lettered_in recorded.now) ≡ []) }
{
    if gives_letters(recorded.kind()) {
        session_at(recorded.replies.as_slice(), before)
    } else {
        None
    }
}

/// The session of the reply at a place, if there is one.
fn session_at(replies: &[(u64, Reply)], place: usize) -> Option<u64>
    ensures some { IfSome result (λ session.
        drop place (sessions_of replies.now) ≡ session ∷ drop (place + 1) (sessions_of replies.now)) }
    ensures fits { IfSome result (λ session. place < 2 ^ 63) }
    ensures none { IfNone result (drop place (sessions_of replies.now) ≡ []) }
{
    if place < replies.len() {
        Some(replies[place].0)
    } else {
        None
    }
}

/// Whether a record of this gives replies to sessions that wait.
fn gives_letters(kind: Kind) -> bool
    ensures { result ≡ gives_letters kind }
{
    match kind {
        Kind::Serve | Kind::Expire => true,
        Kind::Join | Kind::Call | Kind::Board | Kind::Snapshot | Kind::Conclude | Kind::Leave =>
            false,
    }
}
