//! Tokens in a file, of which a piece may be cut off.

use crate::records::{NONCE, RECORD};
use crate::wants::{key_from, want};
use acra_base::ValueKind;
use acra_crypto::Aes256Gcm;
use acra_devices::{Failed, FileKeeper, Keeper, MemKeeper};
use piece_keeper::PieceKeeper;
use std::alloc::Global;
use std::fs;
use std::process::Abort;
use std::test::Fail;
use token_records::{PiecesFault, read_pieces};
use token_store::Tokens;

const FOLDER: &str = "token_test";

const FILE: &str = "token_test/tokens";

/// Makes the tokens of these texts.
fn make<K: Keeper>(
    alloc: Global,
    tokens: &mut Tokens,
    keeper: &mut K,
    texts: &[&[u8]],
) -> Result<(), Fail> {
    for text in texts {
        let want = want(alloc, ValueKind::Str, b"app", text, true)?;
        tokens.token(alloc, &Aes256Gcm, keeper, &want, &NONCE)?;
    }
    Ok(())
}

/// The front of a file that ends inside its last piece tells that piece's place.
fn tells_the_cut(rt: &impl Abort, alloc: Global, bytes: &[u8], last: usize) -> Result<(), Fail> {
    for end in 0..bytes.len() {
        if end > last {
            match read_pieces(alloc, &bytes[..end]) {
                Err(fault) => assert_eq!(rt; fault, PiecesFault::NotWhole { place: last }),
                Ok(_) => Err("a piece that was cut off was read")?,
            }
        }
    }
    Ok(())
}

#[test]
fn tokens_of_a_file(rt: HostRuntime) -> Result<(), Fail> {
    let alloc = rt.alloc();
    let _ = fs::remove_dir_all(&rt, FOLDER);
    fs::create_dir(&rt, FOLDER)?;
    let file = FileKeeper::new(alloc, rt, FOLDER, "tokens")?;
    let mut keeper = PieceKeeper::new(alloc, file);
    let mut tokens = Tokens::new(alloc, key_from(0), key_from(32), 3);
    make(alloc, &mut tokens, &mut keeper, &[b"555-0100"])?;
    let mut first = vec![in alloc; RECORD.len() as u8, 0, 0, 0]?;
    first.extend_from_slice(RECORD)?;
    assert_eq!(rt; fs::read(&rt, FILE)?.as_slice(), first.as_slice());

    make(alloc, &mut tokens, &mut keeper, &[b"555-0101"])?;
    let last = fs::read(&rt, FILE)?.len();
    make(alloc, &mut tokens, &mut keeper, &[b""])?;
    let bytes = fs::read(&rt, FILE)?;
    tells_the_cut(&rt, alloc, &bytes, last)?;
    let pieces = read_pieces(alloc, &bytes)?;
    assert_eq!(rt; pieces.as_slice().len(), 3);
    let loaded = Tokens::load(
        alloc,
        &Aes256Gcm,
        key_from(0),
        key_from(32),
        3,
        pieces.as_slice(),
    )?;
    let value = loaded
        .value_of(ValueKind::Str, 0xf418_7a96_26bd_bf7c)
        .ok_or("the token is lost")?;
    assert_eq!(rt; value.plain, b"555-0100".as_slice());
    fs::remove_dir_all(&rt, FOLDER)?;
    Ok(())
}

/// A keeper keeps these pieces.
fn is_kept(rt: &impl Abort, keeper: &MemKeeper, pieces: &[&[u8]]) {
    assert_eq!(rt; keeper.kept().len(), pieces.len());
    for (kept, piece) in keeper.kept().iter().zip(pieces) {
        assert_eq!(rt; kept.as_slice(), *piece);
    }
}

#[test]
fn pieces_behind_their_lengths(rt: HostRuntime) -> Result<(), Fail> {
    let alloc = rt.alloc();
    let below = MemKeeper::new(alloc, vec![in alloc; 1]?);
    let mut keeper = PieceKeeper::new(alloc, below);
    assert_eq!(rt; keeper.append(b"ab"), Ok(()));
    assert_eq!(rt; keeper.append(b"cd"), Err(Failed));
    assert_eq!(rt; keeper.append(b""), Ok(()));
    is_kept(
        &rt,
        keeper.below(),
        &[b"\x02\x00\x00\x00ab", b"\x00\x00\x00\x00"],
    );
    assert_eq!(rt; keeper.replace(b"z"), Ok(()));
    is_kept(&rt, keeper.below(), &[b"\x01\x00\x00\x00z"]);
    Ok(())
}
