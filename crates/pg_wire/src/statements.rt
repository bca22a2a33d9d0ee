ghost use Rattle.std.specs.Prelude.{◌≡◌, ℕ, List};
ghost use Rattle.pg_wire.specs.Bodies.{mapped, parse_at, bind_at, target_at, targeted_at, execute_at};
ghost use Rattle.byte_reader.specs.Readers.{Gives};
ghost use Rattle.pg_wire.specs.declared.front.Front.TheVariants as fronts;

use crate::counted::{counted_cells_of, counted_formats_of, counted_oids_of};
use crate::front::{Front, Target};
use byte_reader::{Unread, be_u32_of, text_of};
use std::alloc::Global;

/// Reads a Parse.
#[tactic(auto, unfolding(crate::specs::Bodies::parse_at))]
pub fn parse_of(alloc: Global, bytes: &[u8]) -> Result<(Front, &[u8]), Unread>
    ensures { Gives (λ x. (x.0, x.1.now)) result (parse_at bytes.now) }
{
    let (name, rest) = text_of(alloc, bytes)?;
    let (text, rest) = text_of(alloc, rest)?;
    let (types, rest) = counted_oids_of(alloc, rest)?;
    Ok((Front::Parse { name, text, types }, rest))
}

/// Reads a Bind.
#[tactic(auto, unfolding(crate::specs::Bodies::bind_at))]
pub fn bind_of(alloc: Global, bytes: &[u8]) -> Result<(Front, &[u8]), Unread>
    ensures { Gives (λ x. (x.0, x.1.now)) result (bind_at bytes.now) }
{
    let (portal, rest) = text_of(alloc, bytes)?;
    let (name, rest) = text_of(alloc, rest)?;
    let (formats, rest) = counted_formats_of(alloc, rest)?;
    let (values, rest) = counted_cells_of(alloc, rest)?;
    let (results, rest) = counted_formats_of(alloc, rest)?;
    let message = Front::Bind {
        portal,
        name,
        formats,
        values,
        results,
    };
    Ok((message, rest))
}

/// Reads the byte that says what a message is about.
#[tactic(auto, unfolding(crate::specs::Bodies::target_at))]
fn target_of(bytes: &[u8]) -> Result<(Target, &[u8]), Unread>
    ensures { Gives (λ x. (x.0, x.1.now)) result (target_at bytes.now) }
{
    match bytes {
        [] => Err(Unread::At { left: 0 }),
        [b'S', rest @ ..] => Ok((Target::Prepared, rest)),
        [b'P', rest @ ..] => Ok((Target::Portal, rest)),
        _ => Err(Unread::At { left: bytes.len() }),
    }
}

/// Reads a Describe.
#[tactic(auto, unfolding(crate::specs::Bodies::targeted_at))]
pub fn describe_of(alloc: Global, bytes: &[u8]) -> Result<(Front, &[u8]), Unread>
    ensures { Gives (λ x. (x.0, x.1.now)) result (mapped (λ x. fronts.Describe x.0 x.1) (targeted_at bytes.now)) }
{
    let (target, rest) = target_of(bytes)?;
    let (name, rest) = text_of(alloc, rest)?;
    Ok((Front::Describe { target, name }, rest))
}

/// Reads a Close.
#[tactic(auto, unfolding(crate::specs::Bodies::targeted_at))]
pub fn close_of(alloc: Global, bytes: &[u8]) -> Result<(Front, &[u8]), Unread>
    ensures { Gives (λ x. (x.0, x.1.now)) result (mapped (λ x. fronts.Close x.0 x.1) (targeted_at bytes.now)) }
{
    let (target, rest) = target_of(bytes)?;
    let (name, rest) = text_of(alloc, rest)?;
    Ok((Front::Close { target, name }, rest))
}

/// Reads an Execute.
#[tactic(auto, unfolding(crate::specs::Bodies::execute_at))]
pub fn execute_of(alloc: Global, bytes: &[u8]) -> Result<(Front, &[u8]), Unread>
    ensures { Gives (λ x. (x.0, x.1.now)) result (execute_at bytes.now) }
{
    let (portal, rest) = text_of(alloc, bytes)?;
    let (limit, rest) = be_u32_of(rest)?;
    Ok((Front::Execute { portal, limit }, rest))
}
