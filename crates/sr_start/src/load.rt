ghost use Rattle.std.specs.Prelude.{Some, option_map};
ghost use Rattle.sr_start.specs.Policy.{Loads};

use crate::fault::{Fault, policy_fault};
use crate::text_files::{TextFault, TextFiles};
use sr_policy::Policy;
use std::alloc::Global;

/// The policy of the file at a path, or the empty one without a path.
pub(crate) fn load_policy<F: TextFiles>(
    alloc: Global,
    files: &mut F,
    path: Option<&str>,
) -> Result<Policy, Fault>
    ensures { Loads (F.may_hold files.old) (option_map (λ path. path.now) path.entry) result }
{
    match path {
        Some(path) => read_policy(alloc, files, path),
        None => Ok(Policy::empty(alloc)),
    }
}

/// The policy of the file at a path.
fn read_policy<F: TextFiles>(alloc: Global, files: &mut F, path: &str) -> Result<Policy, Fault>
    ensures { Loads (F.may_hold files.old) (Some path.now) result }
{
    let text = match files.read_text(path) {
        Ok(text) => text,
        Err(TextFault::Unreadable) => return Err(Fault::PolicyUnreadable),
        Err(TextFault::Memory) => return Err(Fault::PolicyMemory),
    };
    match Policy::read(alloc, text.as_str()) {
        Ok(policy) => Ok(policy),
        Err(fault) => Err(policy_fault(fault)),
    }
}
