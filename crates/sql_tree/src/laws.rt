ghost use Rattle.sql_tree.specs.Laws.{CanonicalTokensSpell, CanonicalTextSpells};

/// The canonical tokens of a statement spell it.
pub fn canonical_tokens_spell()
    ensures { CanonicalTokensSpell }
{}

/// The canonical text of a statement spells it.
pub fn canonical_text_spells()
    ensures { CanonicalTextSpells }
{}
