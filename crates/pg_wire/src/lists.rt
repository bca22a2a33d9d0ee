ghost use Rattle.std.specs.Prelude.{◌≡◌, ℕ, List};
ghost use Rattle.pg_wire.specs.Bodies.{pair_at, error_at, listed_at};
ghost use Rattle.byte_reader.specs.Readers.{Gives};

use crate::back::ErrorField;
use crate::front::Pair;
use acra_base::Sequence;
use byte_reader::{Unread, text_of};
use std::alloc::Global;

/// Reads a field of an error or of a notice.
#[tactic(auto, unfolding(crate::specs::Bodies::error_at))]
fn error_field_of(alloc: Global, bytes: &[u8]) -> Result<(ErrorField, &[u8]), Unread>
    ensures { Gives (λ x. (x.0, x.1.now)) result (error_at bytes.now) }
{
    match bytes {
        [] => Err(Unread::At { left: 0 }),
        [code, rest @ ..] => {
            let (text, rest) = text_of(alloc, rest)?;
            Ok((ErrorField { code: *code, text }, rest))
        }
    }
}

/// Reads the fields of an error or of a notice, and the zero byte that ends them.
pub fn error_fields_of(alloc: Global, bytes: &[u8]) -> Result<(Sequence<ErrorField>, &[u8]), Unread>
    ensures { Gives (λ x. (x.0, x.1.now)) result (listed_at error_at bytes.now) }
{
    let mut fields = Sequence::new(alloc);
    let mut rest = bytes;
    'fields: loop {
        if rest.is_empty() {
            return Err(Unread::At { left: 0 });
        }
        if rest[0] == 0 {
            return Ok((fields, &rest[1..]));
        }
        let (field, after) = error_field_of(alloc, rest)?;
        fields.push(field)?;
        rest = after;
    }
}

/// Reads a name and its value.
#[tactic(auto, unfolding(crate::specs::Bodies::pair_at))]
pub fn pair_of(alloc: Global, bytes: &[u8]) -> Result<(Pair, &[u8]), Unread>
    ensures { Gives (λ x. (x.0, x.1.now)) result (pair_at bytes.now) }
{
    let (name, rest) = text_of(alloc, bytes)?;
    let (value, rest) = text_of(alloc, rest)?;
    Ok((Pair { name, value }, rest))
}

/// Reads names with their values and the zero byte that ends them.
pub fn pairs_of(alloc: Global, bytes: &[u8]) -> Result<(Sequence<Pair>, &[u8]), Unread>
    ensures { Gives (λ x. (x.0, x.1.now)) result (listed_at pair_at bytes.now) }
{
    let mut pairs = Sequence::new(alloc);
    let mut rest = bytes;
    'pairs: loop {
        if rest.is_empty() {
            return Err(Unread::At { left: 0 });
        }
        if rest[0] == 0 {
            return Ok((pairs, &rest[1..]));
        }
        let (pair, after) = pair_of(alloc, rest)?;
        pairs.push(pair)?;
        rest = after;
    }
}
