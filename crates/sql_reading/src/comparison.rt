//! Reading tests.

ghost use Rattle.std.specs.Prelude.{◌≡◌, IfOk, Ok};
ghost use Rattle.sql_tree.specs.Conditions.{test_tree, side_operand, not_tree};
ghost use Rattle.sql_readers.specs.Readers as readers;
ghost use Rattle.sql_readers.specs.Reads.{Reads};
ghost use Rattle.sql_reading.specs.Gives.{Gives};
ghost use Rattle.sql_readers.specs.Productions as productions;
ghost use Rattle.sql_reading.specs.Tests.{compared, listed_in, tail_tree, null_tail, null_tree, column_tail_tree, substr_tree, column_test_tree};

use crate::cursor::Cursor;
use crate::parts::{read_column_rest, read_left, read_substr_rest, read_value, read_values};
use crate::stop::Stop;
use acra_base::{Name, NoMemory};
use sql_tokens::Keyword;
use sql_tree::{Cond, Operand};
use sqlite_items::Boxed;
use std::alloc::Global;

fn not_cond(alloc: Global, negated: bool, cond: Cond) -> Result<Cond, NoMemory>
    ensures { IfOk result (λ c. c ≡ not_tree negated cond) }
{
    if !negated {
        return Ok(cond);
    }
    Ok(Cond::Not(Boxed::new(alloc, cond)?))
}

/// NOT, where it stands.
fn read_not(cursor: &mut Cursor<'_>) -> bool
    ensures { Reads productions.negated cursor.old (Ok (result, cursor.new)) }
{
    if cursor.eat_word(Keyword::Not) {
        return true;
    }
    false
}

/// What stands right of an operator.
fn read_side(alloc: Global, cursor: &mut Cursor<'_>) -> Result<Operand, Stop>
    ensures { Gives side_operand productions.side cursor.old result cursor.new }
{
    if cursor.is_name() {
        return read_left(alloc, cursor);
    }
    read_value(alloc, cursor)
}

fn read_comparison(alloc: Global, cursor: &mut Cursor<'_>, left: Operand) -> Result<Cond, Stop>
    ensures { Gives (compared left) (readers.both productions.op productions.side) cursor.old result cursor.new }
{
    let op = cursor.op()?;
    let right = read_side(alloc, cursor)?;
    Ok(Cond::Compare { left, op, right })
}

fn read_within(alloc: Global, cursor: &mut Cursor<'_>, left: Operand) -> Result<Cond, Stop>
    ensures { Gives (listed_in left) (readers.both productions.negated (productions.behind Keyword.In productions.values)) cursor.old result cursor.new }
{
    let negated = read_not(cursor);
    cursor.word(Keyword::In)?;
    let list = read_values(alloc, cursor)?;
    let test = not_cond(alloc, negated, Cond::Within { left, list })?;
    Ok(test)
}

/// What stands behind a left side.
fn read_tail(alloc: Global, cursor: &mut Cursor<'_>, left: Operand) -> Result<Cond, Stop>
    ensures { Gives (tail_tree left) productions.tail cursor.old result cursor.new }
{
    if cursor.is_op() {
        return read_comparison(alloc, cursor, left);
    }
    read_within(alloc, cursor, left)
}

fn read_null(alloc: Global, cursor: &mut Cursor<'_>, column: Name) -> Result<Cond, Stop>
    ensures { Gives (null_tree column) null_tail cursor.old result cursor.new }
{
    cursor.word(Keyword::Is)?;
    let negated = read_not(cursor);
    cursor.word(Keyword::Null)?;
    let test = not_cond(alloc, negated, Cond::Null { column })?;
    Ok(test)
}

/// What stands behind a column.
fn read_column_tail(alloc: Global, cursor: &mut Cursor<'_>, column: Name) -> Result<Cond, Stop>
    ensures { Gives (column_tail_tree column) productions.column_tail cursor.old result cursor.new }
{
    if cursor.is_word(Keyword::Is) {
        return read_null(alloc, cursor, column);
    }
    read_tail(alloc, cursor, Operand::Column(column))
}

fn read_flipped_test(alloc: Global, cursor: &mut Cursor<'_>) -> Result<Cond, Stop>
    ensures { Gives test_tree productions.flipped_test cursor.old result cursor.new }
{
    let left = read_value(alloc, cursor)?;
    let op = cursor.op()?;
    let right = read_left(alloc, cursor)?;
    Ok(Cond::Compare { left, op, right })
}

fn read_substr_test(alloc: Global, cursor: &mut Cursor<'_>) -> Result<Cond, Stop>
    ensures { Gives substr_tree (readers.both productions.substr_rest productions.tail) cursor.old result cursor.new }
{
    let column = read_substr_rest(alloc, cursor)?;
    read_tail(alloc, cursor, Operand::Prefix33(column))
}

fn read_column_test(alloc: Global, cursor: &mut Cursor<'_>, first: Name) -> Result<Cond, Stop>
    ensures { Gives (column_test_tree first) (readers.both productions.column_rest productions.column_tail) cursor.old result cursor.new }
{
    let column = read_column_rest(alloc, cursor, first)?;
    read_column_tail(alloc, cursor, column)
}

fn read_led_test(alloc: Global, cursor: &mut Cursor<'_>) -> Result<Cond, Stop>
    ensures { Gives test_tree productions.led_test cursor.old result cursor.new }
{
    if cursor.eat_call(b"substr") {
        return read_substr_test(alloc, cursor);
    }
    let first = cursor.name(alloc)?;
    read_column_test(alloc, cursor, first)
}

/// A comparison, or a test by IN or IS NULL.
pub(crate) fn read_test(alloc: Global, cursor: &mut Cursor<'_>) -> Result<Cond, Stop>
    ensures { Gives test_tree productions.test cursor.old result cursor.new }
{
    if cursor.is_name() {
        return read_led_test(alloc, cursor);
    }
    read_flipped_test(alloc, cursor)
}
