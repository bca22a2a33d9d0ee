ghost use Rattle.sql_derivations.specs.Laws.{OneOutcome, OneStatement, CanonicalTextIsParsed, SpelledIsStatement};

/// A text has at most one outcome under a limit: its statement, or its refusal with the place.
pub fn one_outcome()
    ensures { OneOutcome }
{}

/// A text spells one statement at most.
pub fn one_statement()
    ensures { OneStatement }
{}

/// The canonical text of a statement that isn't nested too deeply has that statement as its outcome, where the limit allows.
pub fn canonical_text_is_parsed()
    ensures { CanonicalTextIsParsed }
{}

/// What a text spells is a statement that has a text.
pub fn spelled_is_statement()
    ensures { SpelledIsStatement }
{}
