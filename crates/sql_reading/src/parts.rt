//! Reading columns and values.

ghost use Rattle.std.specs.Prelude.{map, pos, neg_ℤ};
ghost use Rattle.sql_tree.specs.declared.condition.Operand.TheVariants as operand;
ghost use Rattle.sql_tree.specs.Parts.{column_name, value_operand, left_operand};
ghost use Rattle.sql_reading.specs.Made.{row_of};
ghost use Rattle.sql_reading.specs.Gives.{Gives};
ghost use Rattle.sql_readers.specs.Productions as productions;
ghost use Rattle.sql_reading.specs.Cursor.{last_of};

use crate::cursor::Cursor;
use crate::stop::Stop;
use acra_base::{Name, Sequence};
use sql_tokens::{Keyword, Sign};
use sql_tree::{Operand, Whole};
use std::alloc::Global;

/// The column that begins with a name, which is the table's where a dot follows.
pub(crate) fn read_column_rest(
    alloc: Global,
    cursor: &mut Cursor<'_>,
    first: Name,
) -> Result<Name, Stop>
    ensures { Gives (last_of first) productions.column_rest cursor.old result cursor.new }
{
    if !cursor.eat_sign(Sign::Dot) {
        return Ok(first);
    }
    cursor.name(alloc)
}

/// A column.
pub(crate) fn read_column(alloc: Global, cursor: &mut Cursor<'_>) -> Result<Name, Stop>
    ensures { Gives column_name productions.column cursor.old result cursor.new }
{
    let first = cursor.name(alloc)?;
    read_column_rest(alloc, cursor, first)
}

/// A string.
pub(crate) fn read_text(alloc: Global, cursor: &mut Cursor<'_>) -> Result<Operand, Stop>
    ensures { Gives operand.Text productions.text cursor.old result cursor.new }
{
    let text = cursor.text(alloc)?;
    Ok(Operand::Text(text))
}

/// A number.
pub(crate) fn read_number(cursor: &mut Cursor<'_>) -> Result<Operand, Stop>
    ensures { Gives (λ n. operand.Number (pos n)) productions.number cursor.old result cursor.new }
{
    let number = cursor.number()?;
    Ok(Operand::Number(Whole::new(number as i128)))
}

/// A number behind a minus.
pub(crate) fn read_negated(cursor: &mut Cursor<'_>) -> Result<Operand, Stop>
    ensures { Gives (λ n. operand.Number (neg_ℤ (pos n))) productions.number cursor.old result cursor.new }
{
    let number = cursor.number()?;
    Ok(Operand::Number(Whole::new(-(number as i128))))
}

fn read_null(cursor: &mut Cursor<'_>) -> Result<Operand, Stop>
    ensures { Gives (λ _. operand.NullValue) (productions.word_reader Keyword.Null) cursor.old result cursor.new }
{
    cursor.word(Keyword::Null)?;
    Ok(Operand::NullValue)
}

fn read_parameter(cursor: &mut Cursor<'_>) -> Result<Operand, Stop>
    ensures { Gives operand.Parameter productions.parameter cursor.old result cursor.new }
{
    let number = cursor.parameter()?;
    Ok(Operand::Parameter(number))
}

/// A value.
pub(crate) fn read_value(alloc: Global, cursor: &mut Cursor<'_>) -> Result<Operand, Stop>
    ensures { Gives value_operand productions.value cursor.old result cursor.new }
{
    if cursor.is_text() {
        return read_text(alloc, cursor);
    }
    if cursor.is_number() {
        return read_number(cursor);
    }
    if cursor.eat_sign(Sign::Plus) {
        return read_number(cursor);
    }
    if cursor.eat_sign(Sign::Minus) {
        return read_negated(cursor);
    }
    if cursor.is_word(Keyword::Null) {
        return read_null(cursor);
    }
    read_parameter(cursor)
}

/// The parentheses of `substr(column, 1, 33)`.
pub(crate) fn read_substr_rest(alloc: Global, cursor: &mut Cursor<'_>) -> Result<Name, Stop>
    ensures { Gives column_name productions.substr_rest cursor.old result cursor.new }
{
    cursor.sign(Sign::Open)?;
    let column = read_column(alloc, cursor)?;
    cursor.sign(Sign::Comma)?;
    cursor.exactly(1)?;
    cursor.sign(Sign::Comma)?;
    cursor.exactly(33)?;
    cursor.sign(Sign::Close)?;
    Ok(column)
}

fn read_prefix(alloc: Global, cursor: &mut Cursor<'_>) -> Result<Operand, Stop>
    ensures { Gives (λ c. operand.Prefix33 (column_name c)) productions.substr_rest cursor.old result cursor.new }
{
    let column = read_substr_rest(alloc, cursor)?;
    Ok(Operand::Prefix33(column))
}

fn read_named(alloc: Global, cursor: &mut Cursor<'_>, first: Name) -> Result<Operand, Stop>
    ensures { Gives (λ rest. operand.Column (last_of first rest)) productions.column_rest cursor.old result cursor.new }
{
    let column = read_column_rest(alloc, cursor, first)?;
    Ok(Operand::Column(column))
}

/// A column, or the first bytes of one.
pub(crate) fn read_left(alloc: Global, cursor: &mut Cursor<'_>) -> Result<Operand, Stop>
    ensures { Gives left_operand productions.left cursor.old result cursor.new }
{
    if cursor.eat_call(b"substr") {
        return read_prefix(alloc, cursor);
    }
    let first = cursor.name(alloc)?;
    read_named(alloc, cursor, first)
}

fn read_value_list(alloc: Global, cursor: &mut Cursor<'_>) -> Result<Sequence<Operand>, Stop>
    ensures { Gives row_of (productions.listed productions.value) cursor.old result cursor.new }
{
    let mut values = Sequence::new(alloc);
    let first = read_value(alloc, cursor)?;
    values.push(first)?;
    'more: while cursor.eat_sign(Sign::Comma) {
        let next = read_value(alloc, cursor)?;
        values.push(next)?;
    }
    Ok(values)
}

/// Values in parentheses, with a comma between two.
pub(crate) fn read_values(alloc: Global, cursor: &mut Cursor<'_>) -> Result<Sequence<Operand>, Stop>
    ensures { Gives row_of productions.values cursor.old result cursor.new }
{
    cursor.sign(Sign::Open)?;
    let values = read_value_list(alloc, cursor)?;
    cursor.sign(Sign::Close)?;
    Ok(values)
}
