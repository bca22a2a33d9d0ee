//! Reading what a SELECT gives, and by what its rows are ordered.

ghost use Rattle.std.specs.Prelude.{◌≡◌, map, Ok};
ghost use Rattle.sql_tree.specs.declared.statement.Items.TheVariants as items;
ghost use Rattle.sql_tree.specs.Grammar.{Direction, is_descending, label_name, item_tree, items_tree, key_tree};
ghost use Rattle.sql_readers.specs.Reads.{Reads};
ghost use Rattle.sql_reading.specs.Gives.{Gives};
ghost use Rattle.sql_readers.specs.Productions as productions;
ghost use Rattle.sql_reading.specs.Clauses as clauses;

use crate::cursor::Cursor;
use crate::parts::{read_column, read_column_rest};
use crate::stop::Stop;
use acra_base::{Name, Sequence};
use sql_tokens::{Keyword, Sign};
use sql_tree::{Item, Items, OrderKey};
use std::alloc::Global;

/// AS and a name, where they stand.
fn read_label(alloc: Global, cursor: &mut Cursor<'_>) -> Result<Option<Name>, Stop>
    ensures { Gives label_name productions.label cursor.old result cursor.new }
{
    if !cursor.eat_word(Keyword::As) {
        return Ok(None);
    }
    let name = cursor.name(alloc)?;
    Ok(Some(name))
}

fn read_item(alloc: Global, cursor: &mut Cursor<'_>) -> Result<Item, Stop>
    ensures { Gives item_tree productions.item cursor.old result cursor.new }
{
    let column = read_column(alloc, cursor)?;
    let label = read_label(alloc, cursor)?;
    Ok(Item { column, label })
}

fn read_star(cursor: &mut Cursor<'_>) -> Result<Items, Stop>
    ensures { Gives (λ _. items.All) (productions.sign_reader Sign.Star) cursor.old result cursor.new }
{
    cursor.sign(Sign::Star)?;
    Ok(Items::All)
}

/// What stands behind COUNT.
fn read_count(alloc: Global, cursor: &mut Cursor<'_>) -> Result<Items, Stop>
    ensures { Gives (λ label. items.Count (label_name label)) clauses.count cursor.old result cursor.new }
{
    cursor.sign(Sign::Open)?;
    cursor.sign(Sign::Star)?;
    cursor.sign(Sign::Close)?;
    let label = read_label(alloc, cursor)?;
    Ok(Items::Count { label })
}

/// Items of which the first begins with a name.
fn read_columns(alloc: Global, cursor: &mut Cursor<'_>, first: Name) -> Result<Items, Stop>
    ensures { Gives (clauses.columns_tree first) clauses.columns cursor.old result cursor.new }
{
    let column = read_column_rest(alloc, cursor, first)?;
    let label = read_label(alloc, cursor)?;
    let mut items = Sequence::new(alloc);
    items.push(Item { column, label })?;
    'more: while cursor.eat_sign(Sign::Comma) {
        let next = read_item(alloc, cursor)?;
        items.push(next)?;
    }
    Ok(Items::Columns(items))
}

/// What a SELECT gives.
pub(crate) fn read_items(alloc: Global, cursor: &mut Cursor<'_>) -> Result<Items, Stop>
    ensures { Gives items_tree productions.items cursor.old result cursor.new }
{
    if cursor.is_sign(Sign::Star) {
        return read_star(cursor);
    }
    if cursor.eat_call(b"count") {
        return read_count(alloc, cursor);
    }
    let first = cursor.name(alloc)?;
    read_columns(alloc, cursor, first)
}

/// Whether DESC stands there, or else perhaps ASC.
fn read_direction(cursor: &mut Cursor<'_>) -> bool
    ensures { (d : Direction) × (result ≡ is_descending d) × Reads productions.direction cursor.old (Ok (d, cursor.new)) }
{
    if cursor.eat_word(Keyword::Asc) {
        return false;
    }
    if cursor.eat_word(Keyword::Desc) {
        return true;
    }
    false
}

fn read_key(alloc: Global, cursor: &mut Cursor<'_>) -> Result<OrderKey, Stop>
    ensures { Gives key_tree productions.key cursor.old result cursor.new }
{
    let column = read_column(alloc, cursor)?;
    let descending = read_direction(cursor);
    Ok(OrderKey { column, descending })
}

fn read_key_list(alloc: Global, cursor: &mut Cursor<'_>) -> Result<Sequence<OrderKey>, Stop>
    ensures { Gives clauses.keys_of (productions.listed productions.key) cursor.old result cursor.new }
{
    let mut keys = Sequence::new(alloc);
    let first = read_key(alloc, cursor)?;
    keys.push(first)?;
    'more: while cursor.eat_sign(Sign::Comma) {
        let next = read_key(alloc, cursor)?;
        keys.push(next)?;
    }
    Ok(keys)
}

/// What stands behind ORDER.
pub(crate) fn read_keys(alloc: Global, cursor: &mut Cursor<'_>) -> Result<Sequence<OrderKey>, Stop>
    ensures { Gives clauses.keys_of productions.keys cursor.old result cursor.new }
{
    cursor.word(Keyword::By)?;
    let keys = read_key_list(alloc, cursor)?;
    Ok(keys)
}
