//! Laws of written packets, for callers that read them again. The functions do nothing.
ghost use Rattle.sq_packet_writer.specs.Laws.{ReadsBack, ReadsAreWritable};

use sq_schema::numbers_read_back;

/// The packet of a request is read as that request, where a packet can hold it: it may be asked, its texts hold XML
/// characters, and its refiners have names and bounds that reading gives.
pub fn packets_read_back()
    ensures { ReadsBack }
{
    numbers_read_back();
}

/// Each request that is read has a packet, so no request can be held but those of [`packets_read_back`].
pub fn read_requests_are_writable()
    ensures { ReadsAreWritable }
{}
