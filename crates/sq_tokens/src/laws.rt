//! Laws of the definitions. Each function does nothing: its contract is the law.
ghost use Rattle.sq_tokens.specs.Laws.{SpansRise, TokensWithinBytes};

/// The spans of a text's tokens rise and lie in the text.
pub fn spans_rise()
    ensures { SpansRise }
{}

/// A text has no more tokens than bytes, and its pattern no more texts.
pub fn tokens_within_bytes()
    ensures { TokensWithinBytes }
{}
