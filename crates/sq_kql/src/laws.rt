//! Laws of the grammar.

ghost use Rattle.sq_kql.specs.Law.{SpellsNoOther, SpellsTheRead};

/// Lexemes spell at most one tree, and it is the one that is read of them.
pub fn spells_no_other()
    ensures { SpellsNoOther }
{}

/// Lexemes that stand in order, with whole WORDS lists, spell the tree that is read of them.
pub fn spells_the_read()
    ensures { SpellsTheRead }
{}
