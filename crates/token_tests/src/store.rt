//! The store of tokens, by an example worked by hand: two tokens at most, of text in a consistent column.

use crate::wants::{key_from, want};
use acra_base::{Bytes, ValueKind};
use acra_crypto::Aes256Gcm;
use acra_devices::{Keeper, MemKeeper};
use std::alloc::Global;
use std::process::Abort;
use std::test::Fail;
use token_store::{LoadRefusal, TokenRefusal, Tokens};

const NONCE: [u8; 12] = [7; 12];

fn empty(alloc: Global) -> Tokens {
    Tokens::new(alloc, key_from(0), key_from(32), 2)
}

/// What a value of a client gets.
fn given<K: Keeper>(
    alloc: Global,
    tokens: &mut Tokens,
    keeper: &mut K,
    owner: &[u8],
    plain: &[u8],
) -> Result<Result<u64, TokenRefusal>, Fail> {
    let want = want(alloc, ValueKind::Str, owner, plain, true)?;
    Ok(tokens.token(alloc, &Aes256Gcm, keeper, &want, &NONCE))
}

/// The values of two tokens, and that another number is none.
fn are_told(rt: &impl Abort, tokens: &Tokens, first: u64, second: u64) -> Result<(), Fail> {
    let value = tokens.value_of(ValueKind::Str, first).ok_or("no value")?;
    assert_eq!(rt; value.owner.text(), b"c1".as_slice());
    assert_eq!(rt; value.plain, b"5".as_slice());
    let value = tokens.value_of(ValueKind::Str, second).ok_or("no value")?;
    assert_eq!(rt; value.owner.text(), b"c2".as_slice());
    assert_eq!(rt; value.plain, b"5".as_slice());
    assert!(rt; tokens.value_of(ValueKind::Bytes, first).is_none());
    assert!(rt; tokens.value_of(ValueKind::Str, first ^ 1).is_none());
    Ok(())
}

/// The store that these pieces give.
fn loaded(alloc: Global, pieces: &[Bytes]) -> Result<Tokens, LoadRefusal> {
    Tokens::load(alloc, &Aes256Gcm, key_from(0), key_from(32), 2, pieces)
}

#[test]
fn two_tokens(rt: HostRuntime) -> Result<(), Fail> {
    let alloc = rt.alloc();
    let mut keeper = MemKeeper::new(alloc, Vec::new(alloc));
    let mut tokens = empty(alloc);
    let first = given(alloc, &mut tokens, &mut keeper, b"c1", b"5")??;
    let second = given(alloc, &mut tokens, &mut keeper, b"c2", b"5")??;
    assert!(rt; first != second);
    assert_eq!(rt;
        given(alloc, &mut tokens, &mut keeper, b"c1", b"5")?,
        Ok(first)
    );
    assert_eq!(rt;
        given(alloc, &mut tokens, &mut keeper, b"c1", b"6")?,
        Err(TokenRefusal::Full)
    );
    are_told(&rt, &tokens, first, second)?;
    assert_eq!(rt; keeper.kept().len(), 2);
    are_told(&rt, &loaded(alloc, keeper.kept())?, first, second)
}

#[test]
fn tokens_that_are_known(rt: HostRuntime) -> Result<(), Fail> {
    let alloc = rt.alloc();
    let mut keeper = MemKeeper::new(alloc, Vec::new(alloc));
    let mut tokens = empty(alloc);
    let token = given(alloc, &mut tokens, &mut keeper, b"c1", b"5")??;
    let known = tokens.known(alloc, ValueKind::Str, token)?;
    assert_eq!(rt; known.token(), token);
    assert_eq!(rt; known.plain(), b"5".as_slice());
    let owner = known.owner().ok_or("no owner")?;
    assert_eq!(rt; owner.text(), b"c1".as_slice());
    let unknown = tokens.known(alloc, ValueKind::Int64, token)?;
    assert_eq!(rt; unknown.kind(), ValueKind::Int64);
    assert!(rt; unknown.owner().is_none());
    assert!(rt; unknown.plain().is_empty());
    Ok(())
}

#[test]
fn records_in_another_order(rt: HostRuntime) -> Result<(), Fail> {
    let alloc = rt.alloc();
    let mut keeper = MemKeeper::new(alloc, Vec::new(alloc));
    let mut tokens = empty(alloc);
    given(alloc, &mut tokens, &mut keeper, b"c1", b"5")??;
    given(alloc, &mut tokens, &mut keeper, b"c2", b"5")??;
    let mut pieces = Vec::new(alloc);
    for piece in keeper.kept().iter().rev() {
        pieces.push(Bytes::copied(alloc, piece.as_slice())?)?;
    }
    match loaded(alloc, &pieces) {
        Err(LoadRefusal::BadRecord { index }) => assert_eq!(rt; index, 0),
        _ => Err("the records were loaded")?,
    }
    Ok(())
}

#[test]
fn keeper_that_fails(rt: HostRuntime) -> Result<(), Fail> {
    let alloc = rt.alloc();
    let mut keeper = MemKeeper::new(alloc, vec![in alloc; 0]?);
    let mut tokens = empty(alloc);
    assert_eq!(rt;
        given(alloc, &mut tokens, &mut keeper, b"c1", b"5")?,
        Err(TokenRefusal::KeeperFault)
    );
    assert!(rt; keeper.kept().is_empty());
    let first = given(alloc, &mut tokens, &mut keeper, b"c1", b"5")??;
    assert!(rt; tokens.value_of(ValueKind::Str, first).is_some());
    Ok(())
}
