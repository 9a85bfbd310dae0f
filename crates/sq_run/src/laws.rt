//! Laws of what is replied.
ghost use Rattle.sq_run.specs.Complete.{PacketsAreAnswered, TextsAreAnswered, TextsAreLowered, RequestsAreAnswered};
ghost use Rattle.sq_run.specs.Leak.{NoReplyLeaks, NoConnectionLeaks};

use sq_engine::nothing_leaks;
use sq_http::equal_answers_give_equal_replies;

/// Two corpora with equal schemas that have for a name equal rows, or none in both, and of which that caller sees the same, give
/// him the same reply to every body at every moment: nothing of an item that he may not see is told, not even by a count.
pub fn no_leak()
    ensures { NoReplyLeaks }
{
    nothing_leaks();
}

/// The same of a whole connection: if two corpora look the same to each caller who asks in its bytes, it sends the same.
pub fn no_leak_on_wires()
    ensures { NoConnectionLeaks }
{
    no_leak();
    equal_answers_give_equal_replies();
}

/// A corpus text, a known caller, and a packet whose text has no fault, whose refiners may be counted and whose sorts have keys give
/// status 0 and the answer that is defined.
pub fn complete_packets()
    ensures { PacketsAreAnswered }
{}

/// A corpus text, a known caller and a text without a fault give status 0 and the answer that is defined, and a KQL text without a
/// fault gives status 0 and its FQL text.
pub fn complete_texts()
    ensures asked { TextsAreAnswered }
    ensures lowered { TextsAreLowered }
{}

/// On a connection such a packet has the reply 200 with its answer, where the request around it isn't refused.
pub fn complete_requests()
    ensures { RequestsAreAnswered }
{}
