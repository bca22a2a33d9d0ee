ghost use Rattle.std.specs.Prelude.{◌≡◌};
ghost use Rattle.acra_block.specs.Cells.{blind_index};

use acra_crypto::hmac_sha256;

/// The byte that begins a blind index.
const VERSION: u8 = 1;

/// The blind index of a value: the byte 01, and the HMAC of the value under the owner's key for
/// indexes. Equal values of an owner have equal indexes. It takes no memory.
pub fn blind_index(search: &[u8; 32], plain: &[u8]) -> [u8; 33]
    ensures { result ≡ blind_index search.now plain.now }
{
    let mut index = [VERSION; 33];
    index[1..].copy_from_slice(&hmac_sha256(search, plain));
    index
}
