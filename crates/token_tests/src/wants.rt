//! Keys and values.
ghost use Rattle.std.specs.Prelude.{◌≡◌, IfOk};

use acra_base::{Bytes, ClientId, ValueKind};
use std::alloc::Global;
use std::test::Fail;
use token_records::is_token_value;
use token_rule::TokenWant;

/// The 32 bytes from this one on.
pub fn key_from(first: u8) -> [u8; 32] {
    let mut key = [0; 32];
    for (place, byte) in key.iter_mut().zip(0..32u8) {
        *place = byte.wrapping_add(first);
    }
    key
}

/// A value that wants a token.
pub fn want(
    alloc: Global,
    kind: ValueKind,
    owner: &[u8],
    plain: &[u8],
    consistent: bool,
) -> Result<TokenWant, Fail>
    ensures { IfOk result (λ want. (want.kind ≡ kind) × (want.consistent ≡ consistent)) }
{
    let owner = ClientId::read(owner)?;
    let plain = Bytes::copied(alloc, plain)?;
    if is_token_value(kind, plain.as_slice()) {
        Ok(TokenWant::new(kind, owner, plain, consistent))
    } else {
        Err("the value is not canonical")?
    }
}
