ghost use Rattle.std.specs.Prelude.{◌≡◌, ◌==◌, ◌++◌, ◌∷◌, [], OnOk, OnErr, not, List, ℕ, if◌then◌else◌, Option};
ghost use Rattle.std.specs.List.{flat_map};
ghost use Rattle.sql_tokens.specs.declared.token.Token.{Token};
ghost use Rattle.sql_tokens.specs.declared.token.Token.TheVariants as t;
ghost use Rattle.sql_tokens.specs.declared.sign.Sign.TheVariants as sign;
ghost use Rattle.sql_tokens.specs.declared.keyword.Keyword.TheVariants as word;
ghost use Rattle.sql_tree.specs.Parts.{optional, op_token};
ghost use Rattle.sql_tree.specs.Shapes.{quoted, operand_shape, commas, in_parens, shape, label_shape, item_shape, items_shape, key_shape, order_shape, where_shape, pair_shape, row_shape, printed, bound_shape};
ghost use Rattle.sql_tree.specs.Canonical.{canon};
ghost use Rattle.sql_tree.specs.Writing.{Wrote, token_if};

use crate::condition::{Cond, Op, Operand};
use crate::statement::{Item, Items, OrderKey, SetPair, Statement};
use crate::writer::Writer;
use acra_base::{Name, NoMemory, Sequence};
use sql_tokens::{Keyword, Sign};

/// What has canonical tokens.
trait Canonical {
    ghost tokens: { Self → List Token };

    /// Writes the tokens.
    fn write(&self, writer: &mut Writer) -> Result<(), NoMemory>
        ensures { OnOk result (Wrote writer.old (tokens self.now) writer.new) };
}

impl Canonical for Name {
    ghost tokens = { quoted };

    fn write(&self, writer: &mut Writer) -> Result<(), NoMemory> {
        writer.name(self)
    }
}

impl Canonical for Operand {
    ghost tokens = { operand_shape };

    fn write(&self, writer: &mut Writer) -> Result<(), NoMemory> {
        match self {
            Operand::Column(column) => writer.name(column),
            Operand::Prefix33(column) => write_prefix(column, writer),
            Operand::Text(text) => writer.text(text),
            Operand::Number(number) => writer.signed(number.get()),
            Operand::NullValue => writer.word(Keyword::Null),
            Operand::Parameter(number) => writer.parameter(*number),
        }
    }
}

impl Canonical for Item {
    ghost tokens = { item_shape };

    fn write(&self, writer: &mut Writer) -> Result<(), NoMemory> {
        writer.name(&self.column)?;
        write_label(&self.label, writer)
    }
}

impl Canonical for OrderKey {
    ghost tokens = { key_shape };

    fn write(&self, writer: &mut Writer) -> Result<(), NoMemory> {
        writer.name(&self.column)?;
        if self.descending {
            writer.word(Keyword::Desc)?;
        }
        Ok(())
    }
}

impl Canonical for SetPair {
    ghost tokens = { pair_shape };

    fn write(&self, writer: &mut Writer) -> Result<(), NoMemory> {
        writer.name(&self.column)?;
        writer.sign(Sign::Equal)?;
        self.value.write(writer)
    }
}

impl Canonical for Sequence<Operand> {
    ghost tokens = { row_shape };

    fn write(&self, writer: &mut Writer) -> Result<(), NoMemory> {
        write_list(self.as_slice(), writer)
    }
}

fn write_prefix(column: &Name, writer: &mut Writer) -> Result<(), NoMemory>
    ensures { OnOk result (Wrote writer.old (operand_shape (Operand.Prefix33 column.now)) writer.new) }
{
    writer.substr()?;
    writer.sign(Sign::Open)?;
    writer.name(column)?;
    writer.sign(Sign::Comma)?;
    writer.number(1)?;
    writer.sign(Sign::Comma)?;
    writer.number(33)?;
    writer.sign(Sign::Close)?;
    Ok(())
}

fn write_label(label: &Option<Name>, writer: &mut Writer) -> Result<(), NoMemory>
    ensures { OnOk result (Wrote writer.old (label_shape label.now) writer.new) }
{
    match label {
        Some(name) => {
            writer.word(Keyword::As)?;
            writer.name(name)
        }
        None => Ok(()),
    }
}

fn write_others<T: Canonical>(parts: &[T], writer: &mut Writer) -> Result<(), NoMemory>
    ensures { OnOk result (Wrote writer.old (flat_map (λ part. t.Sign sign.Comma ∷ T.tokens part) parts.now) writer.new) }
{
    'parts: for part in parts {
        writer.sign(Sign::Comma)?;
        part.write(writer)?;
    }
    Ok(())
}

fn write_commas<T: Canonical>(parts: &[T], writer: &mut Writer) -> Result<(), NoMemory>
    ensures { OnOk result (Wrote writer.old (commas T.tokens parts.now) writer.new) }
{
    let [first, others @ ..] = parts else {
        return Ok(());
    };
    first.write(writer)?;
    write_others(others, writer)?;
    Ok(())
}

fn write_list<T: Canonical>(parts: &[T], writer: &mut Writer) -> Result<(), NoMemory>
    ensures { OnOk result (Wrote writer.old (in_parens (commas T.tokens parts.now)) writer.new) }
{
    writer.sign(Sign::Open)?;
    write_commas(parts, writer)?;
    writer.sign(Sign::Close)?;
    Ok(())
}

fn op_sign(op: Op) -> Sign
    ensures { t.Sign result ≡ op_token op }
{
    match op {
        Op::Eq => Sign::Equal,
        Op::Ne => Sign::NotEqual,
        Op::Lt => Sign::Less,
        Op::Le => Sign::AtMost,
        Op::Gt => Sign::Greater,
        Op::Ge => Sign::AtLeast,
    }
}

fn is_group(cond: &Cond) -> bool
    ensures { result ≡ (shape cond.now).0 }
{
    match cond {
        Cond::And(_) => true,
        Cond::Or(_) => true,
        Cond::Not(_) => false,
        Cond::Compare { .. } => false,
        Cond::Within { .. } => false,
        Cond::Null { .. } => false,
    }
}

fn write_sign_if(wanted: bool, sign: Sign, writer: &mut Writer) -> Result<(), NoMemory>
    ensures { OnOk result (Wrote writer.old (token_if wanted (t.Sign sign)) writer.new) }
{
    if wanted {
        return writer.sign(sign);
    }
    Ok(())
}

fn write_between(index: usize, word: Keyword, writer: &mut Writer) -> Result<(), NoMemory>
    ensures { OnOk result (Wrote writer.old (token_if (not (index == 0)) (t.Word word)) writer.new) }
{
    if index == 0 {
        return Ok(());
    }
    writer.word(word)
}

fn write_compare(
    left: &Operand,
    op: Op,
    right: &Operand,
    writer: &mut Writer,
) -> Result<(), NoMemory>
    ensures { OnOk result (Wrote writer.old (operand_shape left.now ++ op_token op ∷ operand_shape right.now) writer.new) }
{
    left.write(writer)?;
    writer.sign(op_sign(op))?;
    right.write(writer)?;
    Ok(())
}

fn write_within(left: &Operand, list: &[Operand], writer: &mut Writer) -> Result<(), NoMemory>
    ensures { OnOk result (Wrote writer.old (operand_shape left.now ++ t.Word word.In ∷ in_parens (commas operand_shape list.now)) writer.new) }
{
    left.write(writer)?;
    writer.word(Keyword::In)?;
    write_list(list, writer)?;
    Ok(())
}

fn write_null(column: &Name, writer: &mut Writer) -> Result<(), NoMemory>
    ensures { OnOk result (Wrote writer.old (quoted column.now ++ t.Word word.Is ∷ t.Word word.Null ∷ []) writer.new) }
{
    writer.name(column)?;
    writer.word(Keyword::Is)?;
    writer.word(Keyword::Null)?;
    Ok(())
}

fn write_cond(cond: &Cond, writer: &mut Writer) -> Result<(), NoMemory>
    ensures { OnOk result (Wrote writer.old (shape cond.now).1 writer.new) }
{
    match cond {
        Cond::And(parts) => {
            'ands: for (index, part) in parts.as_slice().iter().enumerate() {
                write_between(index, Keyword::And, writer)?;
                let group = is_group(part);
                write_sign_if(group, Sign::Open, writer)?;
                write_cond(part, writer)?;
                write_sign_if(group, Sign::Close, writer)?;
            }
            Ok(())
        }
        Cond::Or(parts) => {
            'ors: for (index, part) in parts.as_slice().iter().enumerate() {
                write_between(index, Keyword::Or, writer)?;
                let group = is_group(part);
                write_sign_if(group, Sign::Open, writer)?;
                write_cond(part, writer)?;
                write_sign_if(group, Sign::Close, writer)?;
            }
            Ok(())
        }
        Cond::Not(part) => {
            let group = is_group(part.get());
            writer.word(Keyword::Not)?;
            write_sign_if(group, Sign::Open, writer)?;
            write_cond(part.get(), writer)?;
            write_sign_if(group, Sign::Close, writer)?;
            Ok(())
        }
        Cond::Compare { left, op, right } => {
            write_compare(left, *op, right, writer)?;
            Ok(())
        }
        Cond::Within { left, list } => {
            write_within(left, list.as_slice(), writer)?;
            Ok(())
        }
        Cond::Null { column } => {
            write_null(column, writer)?;
            Ok(())
        }
    }
}

fn write_items(items: &Items, writer: &mut Writer) -> Result<(), NoMemory>
    ensures { OnOk result (Wrote writer.old (items_shape items.now) writer.new) }
{
    match items {
        Items::All => writer.sign(Sign::Star),
        Items::Count { label } => {
            writer.count()?;
            writer.sign(Sign::Open)?;
            writer.sign(Sign::Star)?;
            writer.sign(Sign::Close)?;
            write_label(label, writer)
        }
        Items::Columns(columns) => write_commas(columns.as_slice(), writer),
    }
}

fn write_where(cond: &Option<Cond>, writer: &mut Writer) -> Result<(), NoMemory>
    ensures { OnOk result (Wrote writer.old (where_shape cond.now) writer.new) }
{
    match cond {
        Some(cond) => {
            writer.word(Keyword::Where)?;
            write_cond(cond, writer)
        }
        None => Ok(()),
    }
}

fn write_order(keys: &[OrderKey], writer: &mut Writer) -> Result<(), NoMemory>
    ensures { OnOk result (Wrote writer.old (order_shape keys.now) writer.new) }
{
    if keys.is_empty() {
        return Ok(());
    }
    writer.word(Keyword::Order)?;
    writer.word(Keyword::By)?;
    write_commas(keys, writer)
}

fn write_bound(word: Keyword, number: &Option<u64>, writer: &mut Writer) -> Result<(), NoMemory>
    ensures { OnOk result (Wrote writer.old (bound_shape word number.now) writer.new) }
{
    match number {
        Some(number) => {
            writer.word(word)?;
            writer.number(*number)
        }
        None => Ok(()),
    }
}

fn write_columns(columns: &Option<Sequence<Name>>, writer: &mut Writer) -> Result<(), NoMemory>
    ensures { OnOk result (Wrote writer.old (optional (λ names. in_parens (commas quoted names)) columns.now) writer.new) }
{
    match columns {
        Some(names) => write_list(names.as_slice(), writer),
        None => Ok(()),
    }
}

fn write_select(
    table: &Name,
    items: &Items,
    cond: &Option<Cond>,
    order: &[OrderKey],
    limit: &Option<u64>,
    offset: &Option<u64>,
    writer: &mut Writer,
) -> Result<(), NoMemory>
    ensures { OnOk result (Wrote writer.old (printed (Statement.Select table.now items.now cond.now order.now limit.now offset.now)) writer.new) }
{
    writer.word(Keyword::Select)?;
    write_items(items, writer)?;
    writer.word(Keyword::From)?;
    writer.name(table)?;
    write_where(cond, writer)?;
    write_order(order, writer)?;
    write_bound(Keyword::Limit, limit, writer)?;
    write_bound(Keyword::Offset, offset, writer)?;
    Ok(())
}

fn write_insert(
    table: &Name,
    columns: &Option<Sequence<Name>>,
    rows: &[Sequence<Operand>],
    writer: &mut Writer,
) -> Result<(), NoMemory>
    ensures { OnOk result (Wrote writer.old (printed (Statement.Insert table.now columns.now rows.now)) writer.new) }
{
    writer.word(Keyword::Insert)?;
    writer.word(Keyword::Into)?;
    writer.name(table)?;
    write_columns(columns, writer)?;
    writer.word(Keyword::Values)?;
    write_commas(rows, writer)?;
    Ok(())
}

fn write_update(
    table: &Name,
    sets: &[SetPair],
    cond: &Option<Cond>,
    writer: &mut Writer,
) -> Result<(), NoMemory>
    ensures { OnOk result (Wrote writer.old (printed (Statement.Update table.now sets.now cond.now)) writer.new) }
{
    writer.word(Keyword::Update)?;
    writer.name(table)?;
    writer.word(Keyword::Set)?;
    write_commas(sets, writer)?;
    write_where(cond, writer)?;
    Ok(())
}

fn write_delete(table: &Name, cond: &Option<Cond>, writer: &mut Writer) -> Result<(), NoMemory>
    ensures { OnOk result (Wrote writer.old (printed (Statement.Delete table.now cond.now)) writer.new) }
{
    writer.word(Keyword::Delete)?;
    writer.word(Keyword::From)?;
    writer.name(table)?;
    write_where(cond, writer)?;
    Ok(())
}

fn write_statement(statement: &Statement, writer: &mut Writer) -> Result<(), NoMemory>
    ensures { OnOk result (Wrote writer.old (printed statement.now) writer.new) }
{
    match statement {
        Statement::Empty => Ok(()),
        Statement::Set { name, value } => {
            writer.word(Keyword::Set)?;
            writer.name(name)?;
            writer.sign(Sign::Equal)?;
            value.write(writer)
        }
        Statement::Select {
            table,
            items,
            cond,
            order,
            limit,
            offset,
        } => write_select(table, items, cond, order.as_slice(), limit, offset, writer),
        Statement::Insert {
            table,
            columns,
            rows,
        } => write_insert(table, columns, rows.as_slice(), writer),
        Statement::Update { table, sets, cond } => {
            write_update(table, sets.as_slice(), cond, writer)
        }
        Statement::Delete { table, cond } => write_delete(table, cond, writer),
    }
}

/// Appends the canonical text. Without memory the text stays as it was.
pub fn print(statement: &Statement, out: &mut Vec<u8>) -> Result<(), NoMemory>
    ensures ok { OnOk result (out.new.items ≡ out.old.items ++ canon statement.now) }
    ensures err { OnErr result (out.new.items ≡ out.old.items) }
{
    let mut writer = Writer::new(*out.allocator());
    write_statement(statement, &mut writer)?;
    out.extend_from_slice(writer.as_slice())?;
    Ok(())
}
