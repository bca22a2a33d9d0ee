//! The policy: which columns are protected, how, and what strangers see.
ghost use Rattle.std.specs.Prelude.{◌≡◌, ◌<◌, length, bytes_eq, IfSome};
ghost use Rattle.std.specs.List.{HoldsAt, position_from};
ghost use Rattle.enc_config.specs.Look.{ColumnAt};

use acra_base::{Bytes, ClientId, Name, Sequence, ValueKind};
use std::marker::Model;

/// How a column is stored.
#[derive(Drop)]
pub enum Shape {
    /// As the client sends it.
    Plain,
    /// Sealed.
    Sealed,
    /// Sealed, beside an index by which equal values are found.
    Searchable,
    /// `length` characters of a str, or bytes, stay readable at the left or else the right end. The
    /// rest is sealed, and others are shown the mask in its place, at most 64 bytes. `length` is at
    /// most 2^18.
    Masked {
        left: bool,
        length: u32,
        mask: Bytes,
    },
    /// A token stands for it; where consistent, equal values of a client have equal tokens.
    Token {
        consistent: bool,
    },
}

/// What a client sees that isn't the owner.
#[derive(Drop)]
pub enum Strangers {
    /// What is stored.
    Stored,
    /// A default value in place of every value; its canonical plaintext, at most 1,024 bytes.
    Default(Bytes),
    /// What stays readable, and the mask.
    Mask,
    /// The token.
    Token,
}

/// What the policy says of a column. Of a protected column without an owner, whoever writes a value
/// owns it. A plain column has no owner.
#[derive(Drop)]
pub struct ColumnRule {
    pub owner: Option<ClientId>,
    pub shape: Shape,
    pub value: ValueKind,
    pub strangers: Strangers,
}

/// A column of a table, with its rule.
#[derive(Drop)]
pub struct Column {
    pub name: Name,
    pub rule: ColumnRule,
}

/// A table, with its columns in the order of the text.
#[derive(Drop)]
pub struct Table {
    pub name: Name,
    pub columns: Sequence<Column>,
    /// The place of the column by which the lab's table tells its rows apart.
    pub key: Option<u16>,
}

/// A policy, which contracts see as its tables: at most 256, of at most 256 columns each. A look-up
/// takes no memory, and finds a table or a column by comparing names in order.
#[derive(Drop)]
pub struct Policy {
    tables: Sequence<Table>,
}

impl Model for Policy {
    ghost use Rattle.std.specs.Prelude.{List};
    ghost use Rattle.enc_config.specs.declared.policy.Table.{Table};
    ghost use Rattle.enc_config.specs.Sizes.{HasSizes};

    ghost Value = { List Table };

    ghost view = { λ p. p.tables };

    ghost invariant = { λ p. HasSizes p.tables };
}

fn place_of_table(tables: &[Table], name: &[u8]) -> Option<usize>
    ensures place { result ≡ position_from (λ t. bytes_eq name.now t.name) 0 tables.now }
    ensures within { IfSome result (λ i. i < length tables.now) }
{
    'each: for place in 0..tables.len() {
        if name == tables[place].name.as_slice() {
            return Some(place);
        }
    }
    None
}

fn place_of_column(columns: &[Column], name: &[u8]) -> Option<usize>
    ensures place { result ≡ position_from (λ c. bytes_eq name.now c.name) 0 columns.now }
    ensures within { IfSome result (λ i. i < length columns.now) }
{
    'each: for place in 0..columns.len() {
        if name == columns[place].name.as_slice() {
            return Some(place);
        }
    }
    None
}

impl Policy {
    ghost use Rattle.enc_config.specs.Sizes.{HasSizes};

    pub(crate) fn new(tables: Sequence<Table>) -> Policy
        requires { HasSizes tables }
        ensures { result ≡ tables }
    {
        Policy { tables }
    }

    /// The tables, in the order of the text.
    pub fn tables(&self) -> &[Table]
        ensures { result.now ≡ self.now }
    {
        self.tables.as_slice()
    }

    /// The place of the table of this name, from 0; none where no table has it.
    pub fn table(&self, name: &[u8]) -> Option<u16>
        ensures place { result ≡ position_from (λ t. bytes_eq name.now t.name) 0 self.now }
        ensures within { IfSome result (λ table. table < length self.now) }
    {
        match place_of_table(self.tables.as_slice(), name) {
            Some(place) => Some(place as u16),
            None => None,
        }
    }

    /// How many columns a table has, 0 to 256.
    pub fn columns(&self, table: u16) -> u16
        requires { table < length self.now }
        ensures { HoldsAt (λ t. result ≡ length t.columns) self.now table }
    {
        self.tables.as_slice()[table as usize]
            .columns
            .as_slice()
            .len() as u16
    }

    /// The name of a column.
    pub fn name(&self, table: u16, column: u16) -> &Name
        requires has_table { table < length self.now }
        requires has_column { HoldsAt (λ t. column < length t.columns) self.now table }
        ensures { ColumnAt (λ c. result.now ≡ c.name) self.now table column }
    {
        &self.tables.as_slice()[table as usize].columns.as_slice()[column as usize].name
    }

    /// The place of the column of this name in a table, from 0; none where no column has it.
    pub fn find(&self, table: u16, name: &[u8]) -> Option<u16>
        requires { table < length self.now }
        ensures place { HoldsAt (λ t. result ≡ position_from (λ c. bytes_eq name.now c.name) 0 t.columns) self.now table }
        ensures within { IfSome result (λ column. HoldsAt (λ t. column < length t.columns) self.now table) }
    {
        match place_of_column(
            self.tables.as_slice()[table as usize].columns.as_slice(),
            name,
        ) {
            Some(place) => Some(place as u16),
            None => None,
        }
    }

    /// What the policy says of a column.
    pub fn column(&self, table: u16, column: u16) -> &ColumnRule
        requires has_table { table < length self.now }
        requires has_column { HoldsAt (λ t. column < length t.columns) self.now table }
        ensures { ColumnAt (λ c. result.now ≡ c.rule) self.now table column }
    {
        &self.tables.as_slice()[table as usize].columns.as_slice()[column as usize].rule
    }
}
