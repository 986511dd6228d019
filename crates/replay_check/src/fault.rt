//! Why nothing is replayed.

ghost use Rattle.std.specs.Prelude.{◌≡◌};
ghost use Rattle.replay_check.specs.declared.fault.ReplayFault.TheVariants.{Memory};
ghost use Rattle.replay_check.specs.Refusals.{refused_as};

use elf2flt_tool::Refusal;
use std::alloc::{AllocError, AllocFailed};

/// Why nothing is replayed: the first of these, in this order, or out of memory.
#[derive(Drop)]
pub enum ReplayFault {
    /// The ELF file isn't converted.
    Original(Refusal),
    /// The items' stack isn't one that an ELF file can have: 16 to 1,048,576 bytes.
    Stack,
    /// The start frame with the items' strings doesn't fit in the program's stack.
    Args,
    /// The block at the items' base ends behind the last page that memory can have.
    Base,
    /// Out of host memory.
    Memory,
}

/// Why an ELF file isn't replayed that isn't converted.
#[tactic(auto, using(crate::proofs::Refusals::not_memory))]
pub(crate) fn refused(refusal: Refusal) -> ReplayFault
    ensures { result ≡ refused_as refusal }
{
    if let Refusal::Memory = &refusal {
        return ReplayFault::Memory;
    }
    ReplayFault::Original(refusal)
}

impl From<AllocError> for ReplayFault {
    ghost from_gives = { λ _ e. e ≡ Memory };

    fn from(_error: AllocError) -> ReplayFault {
        ReplayFault::Memory
    }
}

impl<T: Drop> From<AllocFailed<T>> for ReplayFault {
    ghost from_gives = { λ _ e. e ≡ Memory };

    fn from(_error: AllocFailed<T>) -> ReplayFault {
        ReplayFault::Memory
    }
}
