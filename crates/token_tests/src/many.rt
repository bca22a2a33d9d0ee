//! Many tokens.

use crate::wants::{key_from, want};
use acra_base::ValueKind;
use acra_crypto::Aes256Gcm;
use acra_devices::MemKeeper;
use std::test::Fail;
use token_store::Tokens;

const COUNT: u32 = 100_000;

#[test]
fn many_tokens(rt: HostRuntime) -> Result<(), Fail> {
    let alloc = rt.alloc();
    let mut keeper = MemKeeper::new(alloc, Vec::new(alloc));
    let mut tokens = Tokens::new(alloc, key_from(0), key_from(32), COUNT);
    let mut last = 0;
    for number in 0..COUNT {
        let plain = format!(in alloc; "{number}")?;
        let want = want(alloc, ValueKind::Int64, b"app", plain.as_bytes(), true)?;
        last = tokens.token(alloc, &Aes256Gcm, &mut keeper, &want, &[0; 12])?;
    }
    let loaded = Tokens::load(
        alloc,
        &Aes256Gcm,
        key_from(0),
        key_from(32),
        COUNT,
        keeper.kept(),
    )?;
    let value = loaded.value_of(ValueKind::Int64, last).ok_or("no value")?;
    assert_eq!(rt; value.plain, b"99999".as_slice());
    Ok(())
}
