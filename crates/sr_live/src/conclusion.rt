//! A plan is carried out in Redis by one script, which first compares.
ghost use Rattle.std.specs.Prelude.{◌≡◌, ◌++◌, ◌∷◌, [], List, Err, Ok, IfErr, IfOk, IsTrue, OnOk, codes};
ghost use Rattle.std.specs.List.{flat_map};
ghost use Rattle.std.specs.String.{string_bytes};
ghost use Rattle.sr_policy.specs.{Text};
ghost use Rattle.sr_peer.specs.Reply as wire;
ghost use Rattle.sr_peer.specs.{Bulk, part_text, request_text};
ghost use Rattle.sr_live.specs.declared.fault.LiveCall.TheVariants.{Script};
ghost use Rattle.sr_live.specs.declared.fault.LiveFault.TheVariants.{ErrorReply};
ghost use Rattle.sr_live.specs.Conclusion.{HasNoConclusion, IsCalled, IsUnanswered, SaysConcluded};
ghost use Rattle.sr_live.specs.Conclusion.{script_call, script_digest, script_text};
ghost use Rattle.sr_live.specs.Looking.{Exchange, Talks};
ghost use Rattle.sr_live.specs.steps.Misread.{IsToldBy};

use crate::fault::{LiveCall, LiveFault};
use crate::said::{Misread, conclusion_said};
use crate::script::SCRIPT;
use hex::encode;
use sha1::Sha1;
use sr_bytes::Name;
use sr_peer::{Peer, PeerFault, append_header, append_word, ask};
use std::alloc::{AllocError, Global};

/// What came of a script.
#[derive(Drop)]
pub enum Concluded {
    /// The plan was carried out.
    Done {
        /// How many entries were claimed.
        claimed: u64,
        /// No plan of that moment costs less by more than this.
        gap: u64,
    },
    /// The group is not as it was looked up, and nothing was changed.
    Stale {
        /// What is not: `group`, `pending`, `entry`, `room`, `fee` or `gap`.
        what: Name,
        /// Of what: a consumer, an id, or a number.
        of: Name,
    },
}

/// Has Redis carry out the plan of these words, if the group still is as they say. It is sent by its digest first, and
/// whole if Redis does not have it.
///
/// Source: Redis documentation, commands EVALSHA and EVAL.
pub fn conclude<P: Peer>(
    peer: &mut P,
    alloc: Global,
    key: &Name,
    words: &[Name],
) -> Result<Concluded, LiveFault>
    // the last call is the script's, with exactly these words, and its reply says this
    ensures ok { IfOk result (λ concluded. (before : List Exchange) × (call : List Text) × (parts : List wire.Part)
        × IsCalled key.now words.now before call
        × Talks (P.sent peer.old) (P.got peer.old) (P.sent peer.new) (P.got peer.new) (before ++ (call, parts) ∷ [])
        × SaysConcluded parts concluded) }
    ensures err { IfErr result (HasNoConclusion key.now words.now (P.sent peer.old) (P.got peer.old) (P.sent peer.new)
        (P.got peer.new)) }
{
    let digest = digest_of_script(alloc)?;
    let said = call_script(peer, alloc, (b"EVALSHA", digest.as_bytes()), key, words);
    if is_missing(&said) {
        call_script(peer, alloc, (b"EVAL", text_of_script()), key, words)
    } else {
        said
    }
}

/// The text of the script.
fn text_of_script() -> &'static [u8]
    ensures { result.now ≡ script_text }
{
    SCRIPT.as_bytes()
}

/// What Redis knows the script by.
fn digest_of_script(alloc: Global) -> Result<String, AllocError>
    ensures { IfOk result (λ digest. string_bytes digest ≡ script_digest) }
{
    encode(alloc, Sha1::digest(text_of_script()))
}

/// Whether Redis replied that it does not have the script.
fn is_missing(said: &Result<Concluded, LiveFault>) -> bool
    ensures { IsTrue result → (rest : Text) × (said.now ≡ Err (ErrorReply Script (codes "NOSCRIPT" ++ rest))) }
{
    match said {
        Err(LiveFault::ErrorReply(LiveCall::Script, text)) => text
            .as_slice()
            .starts_with(b"NOSCRIPT"),
        _ => false,
    }
}

/// What comes of a script that is called so.
fn call_script<P: Peer>(
    peer: &mut P,
    alloc: Global,
    call: (&[u8], &[u8]),
    key: &Name,
    words: &[Name],
) -> Result<Concluded, LiveFault>
    ensures ok { IfOk result (λ concluded. (parts : List wire.Part)
        × Talks (P.sent peer.old) (P.got peer.old) (P.sent peer.new) (P.got peer.new)
        ((script_call call.entry.0.now call.entry.1.now key.now words.now, parts) ∷ [])
        × SaysConcluded parts concluded) }
    ensures err { IfErr result (IsUnanswered (script_call call.entry.0.now call.entry.1.now key.now words.now)
        (P.sent peer.old) (P.got peer.old) (P.sent peer.new) (P.got peer.new)) }
{
    let request = script_request(alloc, call.0, call.1, key, words)?;
    match ask(peer, alloc, request.as_slice(), 1) {
        Ok(answers) => known(conclusion_said(alloc, answers.parts())),
        Err(fault) => Err(LiveFault::Unknown(fault)),
    }
}

/// What a reply says, or why it says nothing. If memory was refused while it was read, what came of the script is not
/// known.
fn known(said: Result<Concluded, Misread>) -> Result<Concluded, LiveFault>
    ensures ok { IfOk result (λ concluded. said ≡ Ok concluded) }
    ensures err { IfErr result (IsToldBy said) }
{
    match said {
        Ok(concluded) => Ok(concluded),
        Err(Misread::Memory) => Err(LiveFault::Unknown(PeerFault::Memory)),
        Err(Misread::ErrorReply(text)) => Err(LiveFault::ErrorReply(LiveCall::Script, text)),
        Err(Misread::Shape) => Err(LiveFault::Shape(LiveCall::Script)),
    }
}

/// The request that calls a script: by which word, with what names it, and for one key.
fn script_request(
    alloc: Global,
    by: &[u8],
    script: &[u8],
    key: &Name,
    words: &[Name],
) -> Result<Vec<u8>, AllocError>
    ensures { IfOk result (λ request. request.items
        ≡ request_text (script_call by.now script.now key.now words.now)) }
{
    let mut request = Vec::new(alloc);
    append_header(&mut request, words.len() + 4)?;
    append_word(&mut request, by)?;
    append_word(&mut request, script)?;
    append_word(&mut request, b"1")?;
    append_word(&mut request, key.as_slice())?;
    append_words(&mut request, words)?;
    Ok(request)
}

/// Adds the words of a request.
fn append_words(out: &mut Vec<u8>, words: &[Name]) -> Result<(), AllocError>
    ensures { OnOk result (out.new.items ≡ out.old.items ++ flat_map (λ word. part_text (Bulk word)) words.now) }
{
    for word in words {
        append_word(out, word.as_slice())?;
    }
    Ok(())
}
