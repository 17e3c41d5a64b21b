//! What is looked up of a group, beside what this project's own server shows of it.
ghost use Rattle.std.specs.Prelude.{◌≡◌, ℕ, List, None, map};
ghost use Rattle.sr_entries.specs.declared.entry.Entry.{Entry};
ghost use Rattle.sr_pending.specs.declared.nack.Nack.{Nack};
ghost use Rattle.sr_policy.specs.{Text};
ghost use Rattle.sr_policy.specs.Rules.{Rules};
ghost use Rattle.sr_space.specs.{shown_with};
ghost use Rattle.sr_space.specs.Snap.{of_dead};
ghost use Rattle.sr_live.specs.declared.looked.Row.{Row};
ghost use Rattle.sr_live.specs.Looked.{is_seen, shown_by};
ghost use Rattle.sr_live.specs.Server.{AreCounted, row_of};

/// Law: what is looked up of a group at one moment gives the very snapshot that this project's server takes of it, if
/// these entries are in its stream, and these are pending, and no time is given in which a consumer has to have been
/// seen. Calling this has no effect.
pub fn shows_as_the_server()
    ensures { (rules : Rules) (key group : Text) (dead : List Text) (idles numbers : List (Text × ℕ))
        (rows : List Row) (entries : List Entry) (nacks : List Nack) → AreCounted rules dead nacks numbers
        → rows ≡ map (row_of entries) (of_dead dead nacks)
        → shown_by rules key group dead (is_seen None idles) numbers rows
        ≡ shown_with rules key group dead entries nacks }
{}
