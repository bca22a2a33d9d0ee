//! What of a statement's parts is mixed into its fingerprint.
ghost use Rattle.std.specs.Prelude.{◌≡◌, ℕ, ◌%◌, ◌^◌, unsigned_abs};
ghost use Rattle.sql_patterns.specs.Fingerprints as prints;

use crate::parts::op_number;
use acra_base::{Name, Sequence};
use sql_tree::{Cond, Item, Items, Operand, OrderKey, SetPair};

// The multiplier of FNV-1a in 64 bits.
const MULTIPLIER: u64 = 1_099_511_628_211;

/// A number mixed into what was mixed before.
pub(crate) fn mix(number: u64, hash: u64) -> u64
    ensures { result ≡ prints.mix number hash }
{
    (hash ^ number).wrapping_mul(MULTIPLIER)
}

/// What is mixed into a fingerprint.
pub(crate) trait Mixed {
    ghost mixed: { Self → ℕ → ℕ };

    /// Mixes it into what was mixed before.
    fn mix_into(&self, hash: u64) -> u64
        ensures { result ≡ mixed self.now hash };
}

/// Mixes in how many there are, and each.
pub(crate) fn mix_all<T: Mixed>(parts: &[T], hash: u64) -> u64
    ensures { result ≡ prints.mix_all T.mixed parts.now hash }
{
    let mut hash = mix(parts.len() as u64, hash);
    'each: for part in parts {
        hash = part.mix_into(hash);
    }
    hash
}

pub(crate) fn mix_option<T: Mixed>(part: &Option<T>, hash: u64) -> u64
    ensures { result ≡ prints.mix_option T.mixed part.now hash }
{
    match part {
        Some(part) => part.mix_into(mix(1, hash)),
        None => mix(0, hash),
    }
}

pub(crate) fn mix_bytes(bytes: &[u8], hash: u64) -> u64
    ensures { result ≡ prints.mix_bytes bytes.now hash }
{
    let mut hash = mix(bytes.len() as u64, hash);
    'each: for byte in bytes {
        hash = mix(*byte as u64, hash);
    }
    hash
}

impl Mixed for u64 {
    ghost use Rattle.sql_patterns.specs.Fingerprints.{mix};

    ghost mixed = { mix };

    fn mix_into(&self, hash: u64) -> u64 {
        mix(*self, hash)
    }
}

impl Mixed for Name {
    ghost use Rattle.sql_patterns.specs.Fingerprints.{mix_bytes};

    ghost mixed = { mix_bytes };

    fn mix_into(&self, hash: u64) -> u64 {
        mix_bytes(self.as_slice(), hash)
    }
}

impl Mixed for Operand {
    ghost use Rattle.sql_patterns.specs.Fingerprints.{mix_operand};

    ghost mixed = { mix_operand };

    fn mix_into(&self, hash: u64) -> u64 {
        match self {
            Operand::Column(column) => mix_bytes(column.as_slice(), mix(1, hash)),
            Operand::Prefix33(column) => mix_bytes(column.as_slice(), mix(2, hash)),
            Operand::Text(text) => mix_bytes(text.as_slice(), mix(3, hash)),
            Operand::Number(number) => mix(low_bits(number.get()), mix(4, hash)),
            Operand::NullValue => mix(5, hash),
            Operand::Parameter(number) => mix(*number as u64, mix(6, hash)),
        }
    }
}

/// The low 64 bits of a number without its sign.
fn low_bits(number: i128) -> u64
    ensures { result ≡ unsigned_abs number % 2 ^ 64 }
{
    (number.unsigned_abs() % (1 << 64)) as u64
}

impl Mixed for Item {
    ghost use Rattle.sql_patterns.specs.Fingerprints.{mix_item};

    ghost mixed = { mix_item };

    fn mix_into(&self, hash: u64) -> u64 {
        mix_option(&self.label, mix_bytes(self.column.as_slice(), hash))
    }
}

impl Mixed for Items {
    ghost use Rattle.sql_patterns.specs.Fingerprints.{mix_items};

    ghost mixed = { mix_items };

    fn mix_into(&self, hash: u64) -> u64 {
        match self {
            Items::All => mix(1, hash),
            Items::Count { label } => mix_option(label, mix(2, hash)),
            Items::Columns(columns) => mix_all(columns.as_slice(), mix(3, hash)),
        }
    }
}

fn flag_number(flag: bool) -> u64
    ensures { result ≡ prints.flag_number flag }
{
    if flag { 1 } else { 0 }
}

impl Mixed for OrderKey {
    ghost use Rattle.sql_patterns.specs.Fingerprints.{mix_key};

    ghost mixed = { mix_key };

    fn mix_into(&self, hash: u64) -> u64 {
        mix(
            flag_number(self.descending),
            mix_bytes(self.column.as_slice(), hash),
        )
    }
}

impl Mixed for SetPair {
    ghost use Rattle.sql_patterns.specs.Fingerprints.{mix_pair};

    ghost mixed = { mix_pair };

    fn mix_into(&self, hash: u64) -> u64 {
        self.value.mix_into(mix_bytes(self.column.as_slice(), hash))
    }
}

impl Mixed for Sequence<Operand> {
    ghost use Rattle.sql_patterns.specs.Fingerprints.{mix_row};

    ghost mixed = { mix_row };

    fn mix_into(&self, hash: u64) -> u64 {
        mix_all(self.as_slice(), hash)
    }
}

impl Mixed for Sequence<Name> {
    ghost use Rattle.sql_patterns.specs.Fingerprints.{mix_names};

    ghost mixed = { mix_names };

    fn mix_into(&self, hash: u64) -> u64 {
        mix_all(self.as_slice(), hash)
    }
}

/// Mixes in each condition.
#[cycle(mixing)]
fn mix_conds(conds: &[Cond], hash: u64) -> u64
    ensures { result ≡ prints.mix_each prints.mix_cond conds.now hash }
{
    let mut hash = hash;
    'each: for cond in conds {
        hash = mix_cond(cond, hash);
    }
    hash
}

/// Mixes in a condition. It recurses as deep as its nodes stand.
#[cycle(mixing)]
fn mix_cond(cond: &Cond, hash: u64) -> u64
    ensures { result ≡ prints.mix_cond cond.now hash }
{
    match cond {
        Cond::And(parts) => mix_conds(parts.as_slice(), mix(parts.len() as u64, mix(1, hash))),
        Cond::Or(parts) => mix_conds(parts.as_slice(), mix(parts.len() as u64, mix(2, hash))),
        Cond::Not(part) => mix_cond(part.get(), mix(3, hash)),
        Cond::Compare { left, op, right } => {
            let left = left.mix_into(mix(4, hash));
            right.mix_into(mix(op_number(*op) as u64, left))
        }
        Cond::Within { left, list } => { mix_all(list.as_slice(), left.mix_into(mix(5, hash))) }
        Cond::Null { column } => mix_bytes(column.as_slice(), mix(6, hash)),
    }
}

impl Mixed for Cond {
    ghost use Rattle.sql_patterns.specs.Fingerprints.{mix_cond};

    ghost mixed = { mix_cond };

    fn mix_into(&self, hash: u64) -> u64 {
        mix_cond(self, hash)
    }
}
