//! Random statements, executed by the tables and by the plain program.

ghost use Rattle.std.specs.Prelude.{◌<◌, IfOk};
ghost use Rattle.table_store.specs.Shelves.{IsTable};

use crate::plain::{
    Column, Condition, Given, Key, Plan, Query, Row, Sense, Set, Shape, TEXTS, Test, Value, run,
};
use acra_base::{Bytes, Name, Sequence, ValueKind};
use acra_devices::SureRandom;
use outcome_text::{alone, column, told};
use sql_tree::Op;
use std::alloc::Global;
use std::process::Abort;
use std::test::Fail;
use table_machine::TableDef;
use table_store::Tables;

/// Draws of a seed.
#[derive(Drop)]
struct Dice {
    random: SureRandom,
}

impl Dice {
    /// A number below this one.
    fn below(&mut self, sides: u8) -> u8
        requires { 0 < sides }
    {
        let mut byte = [0];
        self.random.fill(&mut byte);
        byte[0] % sides
    }

    fn is_one_in(&mut self, sides: u8) -> bool
        requires { 0 < sides }
    {
        self.below(sides) == 0
    }

    fn column(&mut self) -> Column {
        match self.below(3) {
            0 => Column::K,
            1 => Column::N,
            _ => Column::S,
        }
    }

    /// A value of a column, sometimes NULL.
    fn value(&mut self, column: Column) -> Value {
        if self.is_one_in(8) {
            return Value::Null;
        }
        match column {
            Column::K => Value::Number(i64::from(self.below(20))),
            Column::N => Value::Number(i64::from(self.below(4)) - 1),
            Column::S => Value::Text(self.below(5)),
        }
    }

    /// A value that is written, of which some are no int4.
    fn written(&mut self, column: Column) -> Value {
        if column == Column::N && self.is_one_in(40) {
            return Value::Number(2_147_483_648);
        }
        self.value(column)
    }

    fn row(&mut self, named: bool) -> Row {
        let k = self.written(Column::K);
        let n = if named {
            Value::Null
        } else {
            self.written(Column::N)
        };
        let s = self.written(Column::S);
        Row { k, n, s }
    }

    fn sense(&mut self) -> Sense {
        match self.below(8) {
            0 => Sense::Compare(Op::Eq),
            1 => Sense::Compare(Op::Ne),
            2 => Sense::Compare(Op::Lt),
            3 => Sense::Compare(Op::Le),
            4 => Sense::Compare(Op::Gt),
            5 => Sense::Compare(Op::Ge),
            6 => Sense::IsNull,
            _ => Sense::Among,
        }
    }

    fn test(&mut self) -> Test {
        let column = self.column();
        let sense = self.sense();
        let value = self.value(column);
        let other = self.value(column);
        Test {
            column,
            sense,
            value,
            other,
        }
    }

    fn condition(&mut self) -> Condition {
        let shape = match self.below(7) {
            0 => Shape::Always,
            1 => Shape::One,
            2 => Shape::Not,
            3 => Shape::And,
            4 => Shape::Or,
            5 => Shape::NotBoth,
            _ => Shape::AndNot,
        };
        let a = self.test();
        let b = self.test();
        let c = self.test();
        Condition { shape, a, b, c }
    }

    fn key(&mut self) -> Option<Key> {
        let column = self.column();
        let descending = self.is_one_in(2);
        if self.is_one_in(2) {
            return None;
        }
        Some(Key { column, descending })
    }

    fn count(&mut self) -> Option<usize> {
        if self.is_one_in(2) {
            return None;
        }
        Some(self.below(8) as usize)
    }

    fn query(&mut self) -> Query {
        let given = match self.below(3) {
            0 => Given::All,
            1 => Given::Count,
            _ => Given::Columns,
        };
        let condition = self.condition();
        let first = self.key();
        let second = if first.is_some() { self.key() } else { None };
        let limit = self.count();
        let offset = self.count();
        Query {
            given,
            condition,
            first,
            second,
            limit,
            offset,
        }
    }

    fn update(&mut self) -> Plan {
        let column = self.column();
        let value = self.written(column);
        // Another column: one may be set once.
        let beside = match column {
            Column::K => Column::N,
            Column::N => Column::S,
            Column::S => Column::K,
        };
        let set = Set { column, value };
        let value = self.written(beside);
        let other = Set {
            column: beside,
            value,
        };
        let other = if self.is_one_in(2) { Some(other) } else { None };
        let condition = self.condition();
        Plan::Update {
            set,
            other,
            condition,
        }
    }

    fn plan(&mut self) -> Plan {
        match self.below(8) {
            0 | 1 | 2 => Plan::Select(self.query()),
            3 | 4 | 5 => {
                let named = self.is_one_in(3);
                let row = self.row(named);
                let other = self.row(named);
                let other = if self.is_one_in(2) { Some(other) } else { None };
                Plan::Insert { row, other, named }
            }
            6 => self.update(),
            _ => Plan::Delete(self.condition()),
        }
    }
}

fn name_of(column: Column) -> &'static str {
    match column {
        Column::K => "k",
        Column::N => "n",
        Column::S => "s",
    }
}

/// A value as a literal. An odd number is written as a string.
fn literal(alloc: Global, value: Value) -> Result<String, Fail> {
    match value {
        Value::Null => Ok(format!(in alloc; "NULL")?),
        Value::Number(number) => {
            if number % 2 == 1 {
                Ok(format!(in alloc; "'{number}'")?)
            } else {
                Ok(format!(in alloc; "{number}")?)
            }
        }
        Value::Text(place) => {
            let text = TEXTS.get(place as usize).unwrap_or(&"");
            Ok(format!(in alloc; "'{text}'")?)
        }
    }
}

fn sign(op: Op) -> &'static str {
    match op {
        Op::Eq => "=",
        Op::Ne => "<>",
        Op::Lt => "<",
        Op::Le => "<=",
        Op::Gt => ">",
        Op::Ge => ">=",
    }
}

fn test_text(alloc: Global, test: &Test) -> Result<String, Fail> {
    let column = name_of(test.column);
    let value = literal(alloc, test.value)?;
    let other = literal(alloc, test.other)?;
    match test.sense {
        Sense::Compare(op) => {
            let sign = sign(op);
            Ok(format!(in alloc; "{column} {sign} {value}")?)
        }
        Sense::IsNull => Ok(format!(in alloc; "{column} IS NULL")?),
        Sense::Among => Ok(format!(in alloc; "{column} IN ({value}, {other})")?),
    }
}

fn condition_text(alloc: Global, condition: &Condition) -> Result<String, Fail> {
    let a = test_text(alloc, &condition.a)?;
    let b = test_text(alloc, &condition.b)?;
    let c = test_text(alloc, &condition.c)?;
    match condition.shape {
        Shape::Always => Ok(String::new(alloc)),
        Shape::One => Ok(format!(in alloc; " WHERE {a}")?),
        Shape::Not => Ok(format!(in alloc; " WHERE NOT {a}")?),
        Shape::And => Ok(format!(in alloc; " WHERE {a} AND {b}")?),
        Shape::Or => Ok(format!(in alloc; " WHERE {a} OR {b}")?),
        Shape::NotBoth => Ok(format!(in alloc; " WHERE NOT ({a} AND {b}) OR {c}")?),
        Shape::AndNot => Ok(format!(in alloc; " WHERE ({a} OR {b}) AND NOT {c}")?),
    }
}

fn key_text(alloc: Global, word: &str, key: Option<Key>) -> Result<String, Fail> {
    let Some(key) = key else {
        return Ok(String::new(alloc));
    };
    let column = name_of(key.column);
    let direction = if key.descending { " DESC" } else { "" };
    Ok(format!(in alloc; "{word}{column}{direction}")?)
}

fn count_text(alloc: Global, word: &str, count: Option<usize>) -> Result<String, Fail> {
    match count {
        None => Ok(String::new(alloc)),
        Some(count) => Ok(format!(in alloc; "{word}{count}")?),
    }
}

fn query_text(alloc: Global, query: &Query) -> Result<String, Fail> {
    let given = match query.given {
        Given::All => "*",
        Given::Count => "COUNT(*)",
        Given::Columns => "n, k",
    };
    let condition = condition_text(alloc, &query.condition)?;
    let first = key_text(alloc, " ORDER BY ", query.first)?;
    let second = key_text(alloc, ", ", query.second)?;
    let limit = count_text(alloc, " LIMIT ", query.limit)?;
    let offset = count_text(alloc, " OFFSET ", query.offset)?;
    Ok(format!(in alloc; "SELECT {given} FROM t{condition}{first}{second}{limit}{offset}")?)
}

fn row_text(alloc: Global, row: &Row, named: bool) -> Result<String, Fail> {
    let k = literal(alloc, row.k)?;
    let n = literal(alloc, row.n)?;
    let s = literal(alloc, row.s)?;
    if named {
        return Ok(format!(in alloc; "({s}, {k})")?);
    }
    Ok(format!(in alloc; "({k}, {n}, {s})")?)
}

fn insert_text(alloc: Global, row: &Row, other: Option<Row>, named: bool) -> Result<String, Fail> {
    let list = if named { " (s, k)" } else { "" };
    let first = row_text(alloc, row, named)?;
    match other {
        None => Ok(format!(in alloc; "INSERT INTO t{list} VALUES {first}")?),
        Some(other) => {
            let second = row_text(alloc, &other, named)?;
            Ok(format!(in alloc; "INSERT INTO t{list} VALUES {first}, {second}")?)
        }
    }
}

fn set_text(alloc: Global, word: &str, set: Option<Set>) -> Result<String, Fail> {
    let Some(set) = set else {
        return Ok(String::new(alloc));
    };
    let column = name_of(set.column);
    let value = literal(alloc, set.value)?;
    Ok(format!(in alloc; "{word}{column} = {value}")?)
}

fn plan_text(alloc: Global, plan: &Plan) -> Result<String, Fail> {
    match plan {
        Plan::Select(query) => query_text(alloc, query),
        Plan::Insert { row, other, named } => insert_text(alloc, row, *other, *named),
        Plan::Update {
            set,
            other,
            condition,
        } => {
            let first = set_text(alloc, " SET ", Some(*set))?;
            let second = set_text(alloc, ", ", *other)?;
            let condition = condition_text(alloc, condition)?;
            Ok(format!(in alloc; "UPDATE t{first}{second}{condition}")?)
        }
        Plan::Delete(condition) => {
            let condition = condition_text(alloc, condition)?;
            Ok(format!(in alloc; "DELETE FROM t{condition}")?)
        }
    }
}

/// The columns k, int8, n, int4, and s, text, of the table t, whose key is k or which has none.
fn random_table(alloc: Global, keyed: bool) -> Result<TableDef, Fail>
    ensures { IfOk result IsTable }
{
    let mut columns = Sequence::new(alloc);
    columns.push(column(alloc, b"k", ValueKind::Int64)?)?;
    columns.push(column(alloc, b"n", ValueKind::Int32)?)?;
    columns.push(column(alloc, b"s", ValueKind::Str)?)?;
    let bytes = Bytes::copied(alloc, b"t")?;
    Ok(TableDef {
        name: Name::new(bytes),
        columns,
        key: if keyed { Some(0) } else { None },
    })
}

/// All rows, in their order.
fn everything() -> Query {
    let test = Test {
        column: Column::K,
        sense: Sense::IsNull,
        value: Value::Null,
        other: Value::Null,
    };
    let condition = Condition {
        shape: Shape::Always,
        a: test,
        b: test,
        c: test,
    };
    Query {
        given: Given::All,
        condition,
        first: None,
        second: None,
        limit: None,
        offset: None,
    }
}

/// One random statement, and then all rows, by both.
fn is_done_alike(
    rt: &impl Abort,
    alloc: Global,
    tables: &mut Tables,
    rows: &mut Vec<Row>,
    keyed: bool,
    plan: &Plan,
) -> Result<(), Fail> {
    let text = plan_text(alloc, plan)?;
    let got = told(alloc, tables, &text)?;
    let want = run(alloc, rows, keyed, plan)?;
    assert_eq!(rt; got.as_slice(), want.as_slice(), "at {text}");
    let got = told(alloc, tables, "SELECT * FROM t")?;
    let want = run(alloc, rows, keyed, &Plan::Select(everything()))?;
    assert_eq!(rt; got.as_slice(), want.as_slice(), "behind {text}");
    Ok(())
}

fn are_done_alike(rt: &impl Abort, alloc: Global, keyed: bool, seed: u64) -> Result<(), Fail> {
    let mut dice = Dice {
        random: SureRandom::new(seed),
    };
    let mut tables = alone(alloc, random_table(alloc, keyed)?)?;
    let mut rows = Vec::new(alloc);
    'statements: for _ in 0..500 {
        let plan = dice.plan();
        is_done_alike(rt, alloc, &mut tables, &mut rows, keyed, &plan)?;
    }
    Ok(())
}

#[test]
fn random_statements_do_what_the_plain_program_does(rt: HostRuntime) -> Result<(), Fail> {
    are_done_alike(&rt, rt.alloc(), true, 7)?;
    are_done_alike(&rt, rt.alloc(), false, 8)
}
