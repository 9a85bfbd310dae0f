//! Laws of the lexemes of a text of FQL. Each function does nothing: its contract is the law.

ghost use Rattle.sq_lex.specs.FqlShape.{FqlLexemesAreSound};

/// Places rise and lie in the text, each lexeme is spelled by its bytes, and between lexemes stands white space alone.
pub fn fql_lexemes_are_sound()
    ensures { FqlLexemesAreSound }
{}
