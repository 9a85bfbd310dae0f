//! What replies depend on.
ghost use Rattle.sq_http.specs.Alike.{EqualAnswersGiveEqualReplies};

/// The law that bytes in which only callers with equal answers stand have equal replies: two
/// answerings with one reply to each caller and body that the bytes of a connection ask for owe one
/// text for these bytes.
pub fn equal_answers_give_equal_replies()
    ensures { EqualAnswersGiveEqualReplies }
{}
