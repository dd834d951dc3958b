//! Why a part of an operation was refused.
ghost use Rattle.std.specs.Prelude.{◌≡◌};
ghost use Rattle.qe_ops.specs.Refusals.{answered_refusal};

use qe_base::{OpFault, Rule};
use qe_text::Memory;
use qe_view::ConnFault;

/// Why a part of an operation was refused.
#[derive(Clone, Copy, Debug, PartialEq, Eq)]
pub enum Refusal {
    /// A rule is broken.
    Rule(Rule),
    /// A call of the view was refused, or memory is wanting.
    Fault(ConnFault),
}

impl From<ConnFault> for Refusal {
    ghost use Rattle.qe_ops.specs.declared.refusal.Refusal.TheVariants as refusal;

    ghost from_gives = { λ fault e. e ≡ refusal.Fault fault };

    fn from(fault: ConnFault) -> Refusal {
        Refusal::Fault(fault)
    }
}

impl From<Memory> for Refusal {
    ghost use Rattle.qe_view.specs.declared.changes.ConnFault.TheVariants as fault;
    ghost use Rattle.qe_ops.specs.declared.refusal.Refusal.TheVariants as refusal;

    ghost from_gives = { λ _ e. e ≡ refusal.Fault fault.Memory };

    fn from(_: Memory) -> Refusal {
        Refusal::Fault(ConnFault::Memory)
    }
}

/// What is answered for a refusal, by the view's counts of faults before the operation and after it.
pub fn answered(refusal: Refusal, before: u64, after: u64) -> OpFault
    ensures { result ≡ answered_refusal before after refusal }
{
    match refusal {
        Refusal::Rule(rule) => OpFault::Rule(rule),
        Refusal::Fault(ConnFault::Failed) => OpFault::Connector { before, after },
        Refusal::Fault(ConnFault::Misfit { table, column }) => OpFault::Misfit { table, column },
        Refusal::Fault(ConnFault::Memory) => OpFault::Memory,
    }
}
