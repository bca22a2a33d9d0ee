ghost use Rattle.std.specs.Prelude.{◌≡◌, ℕ, List};
ghost use Rattle.pg_wire.specs.Bodies.{field_at, items_at, counted_at};
ghost use Rattle.byte_reader.specs.Readers.{Gives};

use crate::back::Field;
use crate::counted::format_of;
use acra_base::Sequence;
use byte_reader::{Unread, be_u16_of, be_u32_of, text_of};
use std::alloc::Global;

/// Reads the description of a column.
#[tactic(auto, unfolding(crate::specs::Bodies::field_at))]
fn field_of(alloc: Global, bytes: &[u8]) -> Result<(Field, &[u8]), Unread>
    ensures { Gives (λ x. (x.0, x.1.now)) result (field_at bytes.now) }
{
    let (name, rest) = text_of(alloc, bytes)?;
    let (table, rest) = be_u32_of(rest)?;
    let (attribute, rest) = be_u16_of(rest)?;
    let (kind, rest) = be_u32_of(rest)?;
    let (size, rest) = be_u16_of(rest)?;
    let (modifier, rest) = be_u32_of(rest)?;
    let (format, rest) = format_of(rest)?;
    let field = Field {
        name,
        table,
        attribute,
        kind,
        size: size.cast_signed(),
        modifier: modifier.cast_signed(),
        format,
    };
    Ok((field, rest))
}

/// Reads this many descriptions of columns.
fn fields_of(alloc: Global, count: u16, bytes: &[u8]) -> Result<(Sequence<Field>, &[u8]), Unread>
    ensures { Gives (λ x. (x.0, x.1.now)) result (items_at field_at count bytes.now) }
{
    let mut fields = Sequence::new(alloc);
    let mut rest = bytes;
    'fields: for _ in 0..count {
        let (field, after) = field_of(alloc, rest)?;
        fields.push(field)?;
        rest = after;
    }
    Ok((fields, rest))
}

/// Reads the description of a row.
#[tactic(auto, unfolding(crate::specs::Bodies::counted_at))]
pub fn row_of(alloc: Global, bytes: &[u8]) -> Result<(Sequence<Field>, &[u8]), Unread>
    ensures { Gives (λ x. (x.0, x.1.now)) result (counted_at field_at bytes.now) }
{
    let (count, rest) = be_u16_of(bytes)?;
    fields_of(alloc, count, rest)
}
