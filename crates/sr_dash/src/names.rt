//! The names in byte order that come before a name, and those that come after it.
ghost use Rattle.std.specs.Prelude.{◌≡◌, filter};
ghost use Rattle.sr_bytes.specs.{comes_before};
ghost use Rattle.sr_dash.specs.steps.Names.{AreRising};

use sr_bytes::Name;

/// The names that come before this one, found by binary search.
pub(crate) fn names_before<'a>(names: &'a [Name], name: &Name) -> &'a [Name]
    requires { AreRising names.now }
    ensures { result.now ≡ filter (λ other. comes_before other name.now) names.now }
{
    let count = names.partition_point(|other| other.comes_before(name));
    &names[..count]
}

/// The names that come after this one, found by binary search.
pub(crate) fn names_after<'a>(names: &'a [Name], name: &Name) -> &'a [Name]
    requires { AreRising names.now }
    ensures { result.now ≡ filter (λ other. comes_before name.now other) names.now }
{
    let count = names.partition_point(|other| !name.comes_before(other));
    &names[count..]
}
