//! Laws of what matches.
ghost use Rattle.std.specs.Prelude.{◌≡◌, true, false};
ghost use Rattle.sql_tree.specs.declared.statement.Statement.{Statement as AStatement};
ghost use Rattle.sql_patterns.specs.Matching.{statement_matches};

/// Without holes a statement matches the equal one alone.
pub fn equal_alone()
    ensures same { (a : AStatement) (b : AStatement) → statement_matches false a b ≡ true → a ≡ b }
    ensures itself { (a : AStatement) → statement_matches false a a ≡ true }
{}
