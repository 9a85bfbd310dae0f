//! What ties the head as a function to the grammar.
ghost use Rattle.sq_head.specs.Head.{HeadsAreOfTheGrammar};

/// The law that `head_of` gives a head exactly where the bytes are, whole, a request head of the
/// grammar of `httparse` with at most 64 fields, and that it gives that head.
pub fn heads_are_of_the_grammar()
    ensures { HeadsAreOfTheGrammar }
{}
