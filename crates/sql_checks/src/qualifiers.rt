//! The names that stand before columns.

ghost use Rattle.std.specs.Prelude.{◌≡◌, not};
ghost use Rattle.std.specs.List.{list_all};
ghost use Rattle.std.specs.Prelude.{nat_eq};
ghost use Rattle.std.specs.Cmp.Lexicographic.{pointwise};
ghost use Rattle.sql_tokens.specs.Seen.{seen};
ghost use Rattle.sql_tree.specs.Spelling.{tokens_of};
ghost use Rattle.sql_readers.specs.Passes.{dot_first, named};
ghost use Rattle.sql_readers.specs.Passes as passes;

use sql_tokens::{Sign, TokenRef, TokenSlice};
use sql_tree::Statement;

fn begins_with_dot(tokens: &TokenSlice<'_>) -> bool
    ensures { result ≡ dot_first (tokens_of tokens.now) }
{
    match tokens.first() {
        Some(TokenRef::Sign(sign)) => matches!(sign, Sign::Dot),
        _ => false,
    }
}

/// Whether it is another name than the table's, where a dot follows.
fn is_another(token: TokenRef<'_>, dotted: bool, table: &[u8]) -> bool
    ensures { result ≡ not (list_all (λ q. pointwise nat_eq q table.now) (named dotted (seen token.entry))) }
{
    match token {
        TokenRef::Name { name, .. } => dotted && name != table,
        _ => false,
    }
}

fn agree(tokens: &TokenSlice<'_>, table: &[u8]) -> bool
    ensures { result ≡ passes.agree table.now (tokens_of tokens.now) }
{
    let mut rest = tokens.again();
    'tokens: loop {
        let Some(first) = rest.first() else {
            return true;
        };
        rest = rest.rest();
        if is_another(first, begins_with_dot(&rest), table) {
            return false;
        }
    }
}

/// Whether each name before a dot is that of the statement's table.
pub fn qualifiers_agree(statement: &Statement, tokens: &TokenSlice<'_>) -> bool
    ensures { result ≡ passes.qualifiers_agree statement.now (tokens_of tokens.now) }
{
    match statement {
        Statement::Select { table, .. } => agree(tokens, table.as_slice()),
        Statement::Update { table, .. } => agree(tokens, table.as_slice()),
        Statement::Delete { table, .. } => agree(tokens, table.as_slice()),
        _ => true,
    }
}
