ghost use Rattle.std.specs.Prelude.{◌≡◌};
ghost use Rattle.sq_packet.specs.declared.fault.PacketFault.TheVariants.{Packet, NoMemory};

use sq_base::QueryFault;
use std::alloc::{AllocError, AllocFailed};

/// Why a packet was not read: its first fault, by code and place in bytes, or want of memory.
#[derive(Clone, Copy, Debug, PartialEq, Eq)]
pub enum PacketFault {
    Packet(QueryFault),
    NoMemory,
}

impl From<QueryFault> for PacketFault {
    ghost from_gives = { λ fault e. e ≡ Packet fault };

    fn from(fault: QueryFault) -> PacketFault {
        PacketFault::Packet(fault)
    }
}

impl From<AllocError> for PacketFault {
    ghost from_gives = { λ _ e. e ≡ NoMemory };

    fn from(_error: AllocError) -> PacketFault {
        PacketFault::NoMemory
    }
}

impl<T: Drop> From<AllocFailed<T>> for PacketFault {
    ghost from_gives = { λ _ e. e ≡ NoMemory };

    fn from(_error: AllocFailed<T>) -> PacketFault {
        PacketFault::NoMemory
    }
}

pub fn refused(code: u16, at: u32) -> QueryFault
    ensures { result ≡ record { code = code; at = at } }
{
    QueryFault { code, at }
}
