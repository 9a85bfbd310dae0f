//! Laws of packets.

ghost use Rattle.sq_packet.specs.Laws.{FaultsLie};

/// Each fault of a packet stands in the packet or at its end.
pub fn faults_lie_in_the_packet()
    ensures { FaultsLie }
{}
