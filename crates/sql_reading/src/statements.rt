//! Reading statements, and a whole text.

ghost use Rattle.std.specs.Prelude.{◌≡◌, Ok};
ghost use Rattle.sql_tree.specs.declared.condition.Operand.TheVariants as operand;
ghost use Rattle.sql_tree.specs.Parts.{Spelled};
ghost use Rattle.sql_tree.specs.Grammar.{pair_tree, setting_operand};
ghost use Rattle.sql_readers.specs.Readers as readers;
ghost use Rattle.sql_reading.specs.Made as made;
ghost use Rattle.sql_readers.specs.Reads.{Reads};
ghost use Rattle.sql_reading.specs.Gives.{Gives};
ghost use Rattle.sql_readers.specs.Productions as productions;
ghost use Rattle.sql_reading.specs.Clauses as clauses;

use crate::conditions::read_cond;
use crate::cursor::Cursor;
use crate::items::{read_items, read_keys};
use crate::made::{Filter, Nested, Reading};
use crate::parts::{read_negated, read_number, read_text, read_value, read_values};
use crate::stop::Stop;
use acra_base::{Bytes, Name, Sequence};
use sql_tokens::{Keyword, Sign};
use sql_tree::{Operand, OrderKey, SetPair, Statement};
use std::alloc::Global;

/// WHERE and a condition, where they stand.
pub(crate) fn read_where(alloc: Global, cursor: &mut Cursor<'_>) -> Result<Filter, Stop>
    ensures { Gives made.filter productions.where_clause cursor.old result cursor.new }
{
    if !cursor.eat_word(Keyword::Where) {
        return Ok(Filter {
            cond: None,
            deepest: 0,
        });
    }
    let nested = read_cond(alloc, cursor)?;
    let Nested { cond, deepest } = nested;
    Ok(Filter {
        cond: Some(cond),
        deepest,
    })
}

fn read_order(alloc: Global, cursor: &mut Cursor<'_>) -> Result<Sequence<OrderKey>, Stop>
    ensures { Gives clauses.order_of productions.order_clause cursor.old result cursor.new }
{
    if !cursor.eat_word(Keyword::Order) {
        return Ok(Sequence::new(alloc));
    }
    let keys = read_keys(alloc, cursor)?;
    Ok(keys)
}

/// The word and a number, where they stand.
fn read_bound(cursor: &mut Cursor<'_>, word: Keyword) -> Result<Option<u64>, Stop>
    ensures { Gives clauses.bound_of (productions.clause word productions.bound) cursor.old result cursor.new }
{
    if !cursor.eat_word(word) {
        return Ok(None);
    }
    let bound = cursor.bound()?;
    Ok(Some(bound))
}

fn read_select(alloc: Global, cursor: &mut Cursor<'_>) -> Result<Reading, Stop>
    ensures { Gives clauses.selected productions.select cursor.old result cursor.new }
{
    let items = read_items(alloc, cursor)?;
    cursor.word(Keyword::From)?;
    let table = cursor.name(alloc)?;
    let filter = read_where(alloc, cursor)?;
    let order = read_order(alloc, cursor)?;
    let limit = read_bound(cursor, Keyword::Limit)?;
    let offset = read_bound(cursor, Keyword::Offset)?;
    let Filter { cond, deepest } = filter;
    let statement = Statement::Select {
        table,
        items,
        cond,
        order,
        limit,
        offset,
    };
    Ok(Reading { statement, deepest })
}

fn read_name_list(alloc: Global, cursor: &mut Cursor<'_>) -> Result<Sequence<Name>, Stop>
    ensures { Gives made.names_of (productions.listed productions.name) cursor.old result cursor.new }
{
    let mut names = Sequence::new(alloc);
    let first = cursor.name(alloc)?;
    names.push(first)?;
    'more: while cursor.eat_sign(Sign::Comma) {
        let next = cursor.name(alloc)?;
        names.push(next)?;
    }
    Ok(names)
}

/// Names in parentheses, where they stand.
fn read_names(alloc: Global, cursor: &mut Cursor<'_>) -> Result<Option<Sequence<Name>>, Stop>
    ensures { Gives clauses.some_names productions.names cursor.old result cursor.new }
{
    if !cursor.is_sign(Sign::Open) {
        return Ok(None);
    }
    cursor.sign(Sign::Open)?;
    let names = read_name_list(alloc, cursor)?;
    cursor.sign(Sign::Close)?;
    Ok(Some(names))
}

fn read_row_list(
    alloc: Global,
    cursor: &mut Cursor<'_>,
) -> Result<Sequence<Sequence<Operand>>, Stop>
    ensures { Gives clauses.rows_of (productions.listed productions.values) cursor.old result cursor.new }
{
    let mut rows = Sequence::new(alloc);
    let first = read_values(alloc, cursor)?;
    rows.push(first)?;
    'more: while cursor.eat_sign(Sign::Comma) {
        let next = read_values(alloc, cursor)?;
        rows.push(next)?;
    }
    Ok(rows)
}

fn read_insert(alloc: Global, cursor: &mut Cursor<'_>) -> Result<Reading, Stop>
    ensures { Gives clauses.inserted productions.insert cursor.old result cursor.new }
{
    cursor.word(Keyword::Into)?;
    let table = cursor.name(alloc)?;
    let columns = read_names(alloc, cursor)?;
    cursor.word(Keyword::Values)?;
    let rows = read_row_list(alloc, cursor)?;
    let statement = Statement::Insert {
        table,
        columns,
        rows,
    };
    Ok(Reading {
        statement,
        deepest: 0,
    })
}

fn read_pair(alloc: Global, cursor: &mut Cursor<'_>) -> Result<SetPair, Stop>
    ensures { Gives pair_tree productions.pair cursor.old result cursor.new }
{
    let column = cursor.name(alloc)?;
    cursor.sign(Sign::Equal)?;
    let value = read_value(alloc, cursor)?;
    Ok(SetPair { column, value })
}

fn read_pair_list(alloc: Global, cursor: &mut Cursor<'_>) -> Result<Sequence<SetPair>, Stop>
    ensures { Gives clauses.pairs_of (productions.listed productions.pair) cursor.old result cursor.new }
{
    let mut pairs = Sequence::new(alloc);
    let first = read_pair(alloc, cursor)?;
    pairs.push(first)?;
    'more: while cursor.eat_sign(Sign::Comma) {
        let next = read_pair(alloc, cursor)?;
        pairs.push(next)?;
    }
    Ok(pairs)
}

fn read_update(alloc: Global, cursor: &mut Cursor<'_>) -> Result<Reading, Stop>
    ensures { Gives clauses.updated productions.update cursor.old result cursor.new }
{
    let table = cursor.name(alloc)?;
    cursor.word(Keyword::Set)?;
    let sets = read_pair_list(alloc, cursor)?;
    let filter = read_where(alloc, cursor)?;
    let Filter { cond, deepest } = filter;
    let statement = Statement::Update { table, sets, cond };
    Ok(Reading { statement, deepest })
}

fn read_delete(alloc: Global, cursor: &mut Cursor<'_>) -> Result<Reading, Stop>
    ensures { Gives clauses.deleted productions.delete cursor.old result cursor.new }
{
    cursor.word(Keyword::From)?;
    let table = cursor.name(alloc)?;
    let filter = read_where(alloc, cursor)?;
    let Filter { cond, deepest } = filter;
    let statement = Statement::Delete { table, cond };
    Ok(Reading { statement, deepest })
}

/// `=` or TO.
fn read_set_sign(cursor: &mut Cursor<'_>) -> Result<(), Stop>
    ensures { Gives (λ _. tt) productions.set_sign cursor.old result cursor.new }
{
    if cursor.is_sign(Sign::Equal) {
        return cursor.sign(Sign::Equal);
    }
    cursor.word(Keyword::To)
}

/// A name that is a string.
fn read_named(alloc: Global, cursor: &mut Cursor<'_>) -> Result<Operand, Stop>
    ensures { Gives (λ (s : Spelled). operand.Text s.name) productions.name cursor.old result cursor.new }
{
    let name = cursor.name(alloc)?;
    let text = Bytes::copied(alloc, name.as_slice())?;
    Ok(Operand::Text(text))
}

/// The value that SET sets.
fn read_setting(alloc: Global, cursor: &mut Cursor<'_>) -> Result<Operand, Stop>
    ensures { Gives setting_operand productions.setting cursor.old result cursor.new }
{
    if cursor.is_text() {
        return read_text(alloc, cursor);
    }
    if cursor.is_number() {
        return read_number(cursor);
    }
    if cursor.eat_sign(Sign::Plus) {
        return read_number(cursor);
    }
    if cursor.eat_sign(Sign::Minus) {
        return read_negated(cursor);
    }
    read_named(alloc, cursor)
}

fn read_set(alloc: Global, cursor: &mut Cursor<'_>) -> Result<Reading, Stop>
    ensures { Gives clauses.settled productions.set cursor.old result cursor.new }
{
    let name = cursor.name(alloc)?;
    read_set_sign(cursor)?;
    let value = read_setting(alloc, cursor)?;
    let statement = Statement::Set { name, value };
    Ok(Reading {
        statement,
        deepest: 0,
    })
}

fn read_body(alloc: Global, cursor: &mut Cursor<'_>) -> Result<Reading, Stop>
    ensures { Gives made.reading productions.body cursor.old result cursor.new }
{
    if cursor.eat_word(Keyword::Select) {
        return read_select(alloc, cursor);
    }
    if cursor.eat_word(Keyword::Insert) {
        return read_insert(alloc, cursor);
    }
    if cursor.eat_word(Keyword::Update) {
        return read_update(alloc, cursor);
    }
    if cursor.eat_word(Keyword::Delete) {
        return read_delete(alloc, cursor);
    }
    cursor.word(Keyword::Set)?;
    read_set(alloc, cursor)
}

fn read_start(alloc: Global, cursor: &mut Cursor<'_>) -> Result<Reading, Stop>
    ensures { Gives clauses.body_reading (readers.optionally productions.begins_body productions.body) cursor.old result cursor.new }
{
    if !cursor.begins_statement() {
        return Ok(Reading {
            statement: Statement::Empty,
            deepest: 0,
        });
    }
    read_body(alloc, cursor)
}

fn read_semicolon(cursor: &mut Cursor<'_>) -> bool
    ensures { Reads productions.semicolon cursor.old (Ok (result, cursor.new)) }
{
    if cursor.eat_sign(Sign::Semicolon) {
        return true;
    }
    false
}

/// A statement, or none, and perhaps a semicolon.
pub fn read_whole(alloc: Global, cursor: &mut Cursor<'_>) -> Result<Reading, Stop>
    ensures { Gives made.whole_reading productions.whole cursor.old result cursor.new }
{
    let reading = read_start(alloc, cursor)?;
    let _semicolon = read_semicolon(cursor);
    Ok(reading)
}
