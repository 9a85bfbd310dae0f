//! Laws of the lexemes of a text. Each function does nothing: its contract is the law.
ghost use Rattle.sq_lex.specs.Places.{LexemesAreInPlace};
ghost use Rattle.sq_lex.specs.Shape.{LexemesAreSound};

/// Each WORDS list is whole, and each lexeme keeps its limits. Lexemes stand one behind the other in the text, and the pieces of each fill it.
pub fn lexemes_are_sound()
    ensures sound { LexemesAreSound }
    ensures places { LexemesAreInPlace }
{}
