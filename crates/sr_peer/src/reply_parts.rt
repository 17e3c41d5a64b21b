ghost use Rattle.std.specs.Prelude.{◌≡◌, ◌∷◌, ◌+◌, [], List, IfNone, IfSome, length};
ghost use Rattle.sr_peer.specs.Shown.{part_of};
ghost use Rattle.sr_peer.specs.Spelled.{Spells, IsSpelled};
ghost use Rattle.sr_peer.specs.steps.OneSpelling.{IsSpelled-prop};

use crate::Part;
use crate::first::{Front, first_part};
use std::marker::Model;

/// The parts of replies that are still to be read, in the order in which they came.
///
/// Source: RESP2 protocol specification, "RESP protocol description".
#[derive(Drop)]
pub struct Parts<'a> {
    text: &'a [u8],
    ghost spelled: { IsSpelled text.now } by { IsSpelled-prop text.now },
}

impl<'a> Model for Parts<'a> {
    ghost use Rattle.std.specs.Prelude.{List};
    ghost use Rattle.sr_peer.specs.Reply.{Part};
    ghost use Rattle.sr_peer.specs.Spelled.{parts_of};

    ghost Value = { List Part };

    ghost view = { λ p. parts_of p.text.now p.spelled };
}

impl<'a> Parts<'a> {
    /// The parts that a text spells.
    pub(crate) fn new(text: &'a [u8]) -> Parts<'a>
        requires { IsSpelled text.now }
        ensures { Spells text.now result }
    {
        Parts { text }
    }

    /// The same parts once more, to be read apart from these.
    pub fn again(&self) -> Parts<'a>
        ensures { result ≡ self.now }
    {
        Parts { text: self.text }
    }

    /// The next part, which is then read.
    pub fn next(&mut self) -> Option<Part<'a>>
        ensures some { IfSome result (λ part. self.old ≡ part_of part ∷ self.new) }
        ensures none { IfNone result (self.old ≡ []) }
        ensures same { IfNone result (self.new ≡ []) }
        ensures shorter { IfSome result (λ _. length self.new + 1 ≡ length self.old) }
    {
        match first_part(self.text) {
            Front::Whole(part, after) => {
                self.text = after;
                Some(part)
            }
            _ => None,
        }
    }
}
