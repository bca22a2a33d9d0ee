//! Tokens whose numbers would be the same.
ghost use Rattle.std.specs.Prelude.{◌≡◌, ◌≤◌, ◌<◌, ◌+◌, length};

use crate::wants::{key_from, want};
use acra_base::ValueKind;
use acra_crypto::Aes256Gcm;
use acra_devices::MemKeeper;
use std::alloc::Global;
use std::test::Fail;
use token_map::TokenMap;
use token_rule::token_start;
use token_store::Tokens;

/// Two values of the client app whose searches start at one number, which Python's hmac gives.
const VALUES: [&[u8]; 2] = [b"101912", b"2427"];

const START: u64 = 0x68ae_ae2c;

#[test]
fn one_start_for_two_values(rt: HostRuntime) -> Result<(), Fail> {
    let alloc = rt.alloc();
    let mut keeper = MemKeeper::new(alloc, Vec::new(alloc));
    let mut tokens = Tokens::new(alloc, key_from(0), key_from(32), 2);
    for (value, token) in VALUES.iter().zip(START..) {
        let want = want(alloc, ValueKind::Int32, b"app", value, true)?;
        assert_eq!(rt; token_start(&key_from(0), &want, 0), START);
        assert_eq!(rt;
            tokens.token(alloc, &Aes256Gcm, &mut keeper, &want, &[0; 12]),
            Ok(token)
        );
    }
    Ok(())
}

/// Gives the number that is free from this one on to a value.
fn given_from(alloc: Global, map: &mut TokenMap, start: u32) -> Result<u64, Fail>
    requires { length map.old < 1000 }
    ensures { length map.new ≤ length map.old + 1 }
{
    let kind = ValueKind::Int32;
    let number = map.free_number(kind, u64::from(start));
    map.add(want(alloc, kind, b"app", b"1", false)?, number)?;
    Ok(number)
}

#[test]
fn numbers_go_round(rt: HostRuntime) -> Result<(), Fail> {
    let alloc = rt.alloc();
    let mut map = TokenMap::new(alloc);
    let last = u64::from(u32::MAX);
    assert_eq!(rt; given_from(alloc, &mut map, u32::MAX)?, last);
    assert_eq!(rt; given_from(alloc, &mut map, u32::MAX)?, 0);
    assert_eq!(rt; given_from(alloc, &mut map, u32::MAX)?, 1);
    assert_eq!(rt; given_from(alloc, &mut map, u32::MAX - 1)?, last - 1);
    assert_eq!(rt; given_from(alloc, &mut map, u32::MAX - 1)?, 2);
    Ok(())
}
