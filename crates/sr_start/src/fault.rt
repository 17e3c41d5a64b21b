ghost use Rattle.std.specs.Prelude.{◌≡◌, true, IfErr};
ghost use Rattle.sr_start.specs.Fault.{outcome_of, is_of_session};
ghost use Rattle.sr_start.specs.Policy.{fault_of};

use sr_policy::PolicyFault;
use sr_session::End;
use thiserror::Error;

/// What went wrong. Its text is the line on standard error.
#[derive(Clone, Copy, Debug, PartialEq, Eq, Error)]
pub enum Fault {
    #[error("start: out of memory")]
    StartMemory,
    #[error("start: no random source")]
    NoRandomSource,
    #[error("start: no thread")]
    NoThread,
    #[error("policy: cannot read")]
    PolicyUnreadable,
    #[error("policy: not TOML")]
    PolicyNotToml,
    #[error("policy: wrong shape")]
    PolicyShape,
    #[error("policy: value out of range")]
    PolicyRange,
    #[error("policy: out of memory")]
    PolicyMemory,
    #[error("listen: cannot bind")]
    Bind,
    #[error("listen: accept fault")]
    Accept,
    #[error("session: protocol error")]
    Protocol,
    #[error("session: read fault")]
    Read,
    #[error("session: write fault")]
    Write,
    #[error("session: too many reads")]
    Turns,
    #[error("session: out of memory")]
    SessionMemory,
    #[error("session: desk fault")]
    Desk,
}

/// What went wrong with a text that is not a policy.
pub(crate) fn policy_fault(fault: PolicyFault) -> Fault
    ensures { result ≡ fault_of fault }
{
    match fault {
        PolicyFault::Toml => Fault::PolicyNotToml,
        PolicyFault::Shape => Fault::PolicyShape,
        PolicyFault::Range => Fault::PolicyRange,
        PolicyFault::Memory => Fault::PolicyMemory,
    }
}

/// What went wrong in a session that ended so, if anything.
pub fn outcome(end: End) -> Result<(), Fault>
    ensures value { result ≡ outcome_of end }
    ensures session { IfErr result (λ fault. is_of_session fault ≡ true) }
{
    match end {
        End::Closed => Ok(()),
        End::Protocol => Err(Fault::Protocol),
        End::ReadFault => Err(Fault::Read),
        End::SendFault { sent: _ } => Err(Fault::Write),
        End::Turns => Err(Fault::Turns),
        End::Memory => Err(Fault::SessionMemory),
        End::Desk => Err(Fault::Desk),
    }
}
