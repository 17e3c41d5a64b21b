//! Snapshots are compared by what they show.
ghost use Rattle.std.specs.Prelude.{◌≡◌, ◌↔◌, IsTrue};
ghost use Rattle.std.specs.Cmp.{partial_equiv_from_equiv};
ghost use Rattle.sr_policy.specs.Same.{same, same_is_equivalence};

use crate::snapshot::Snapshot;

impl PartialEq for Snapshot {
    ghost eq = { same };

    ghost laws = { partial_equiv_from_equiv same_is_equivalence };

    fn eq(&self, other: &Snapshot) -> bool
        ensures value { result ≡ same self.now other.now }
        ensures exact { IsTrue result ↔ (self.now ≡ other.now) }
    {
        shows_same(self, other)
    }
}

impl Eq for Snapshot {
    ghost laws = { same_is_equivalence };
}

/// Whether two snapshots show the same.
fn shows_same(a: &Snapshot, b: &Snapshot) -> bool
    ensures { result ≡ same a.now b.now }
{
    a.key() == b.key()
        && a.group() == b.group()
        && a.dead() == b.dead()
        && a.stranded() == b.stranded()
        && a.gone() == b.gone()
        && a.live() == b.live()
        && a.rates() == b.rates()
}
