ghost use Rattle.std.specs.Prelude.{◌≡◌, ◌<◌, ◌++◌, ◌∷◌, [], length, take};
ghost use Rattle.token_rule.specs.Rule.{kind_byte, number_count, front_number, start_mark, start_text, token_start};

use crate::want::TokenWant;
use acra_base::ValueKind;
use acra_crypto::HmacStream;

/// The byte that stands for a kind: 0 for int32, 1 for int64, 2 for str, 3 for bytes.
pub fn kind_byte(kind: ValueKind) -> u8
    ensures { result ≡ kind_byte kind }
{
    match kind {
        ValueKind::Int32 => 0,
        ValueKind::Int64 => 1,
        ValueKind::Str => 2,
        ValueKind::Bytes => 3,
    }
}

/// The number at the front of a mac.
fn front_number(kind: ValueKind, mac: &[u8; 32]) -> u64
    ensures { result ≡ front_number kind mac.now }
{
    let [a, b, c, d, e, f, g, h, ..] = *mac;
    match kind {
        ValueKind::Int32 => u64::from(u32::from_be_bytes([a, b, c, d])),
        ValueKind::Int64 | ValueKind::Str | ValueKind::Bytes => {
            u64::from_be_bytes([a, b, c, d, e, f, g, h])
        }
    }
}

/// Where the search for a value's token starts, by the token key and by how many tokens were made before. It
/// takes no memory.
pub fn token_start(token_key: &[u8; 32], want: &TokenWant, serial: u64) -> u64
    ensures start { result ≡ token_start token_key.now want.now serial }
    ensures within { result < number_count want.now.kind }
{
    want.owner().is_spelled();
    let owner = want.owner().text();
    let mut stream = HmacStream::new(token_key);
    stream.update(&[kind_byte(want.kind()), owner.len() as u8]);
    stream.update(owner);
    if want.is_consistent() {
        stream.update(&[0]);
    } else {
        stream.update(&[1]);
        stream.update(&serial.to_be_bytes());
    }
    stream.update(want.plain());
    front_number(want.kind(), &stream.finish())
}
