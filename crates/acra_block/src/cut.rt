ghost use Rattle.std.specs.Prelude.{◌≡◌, ◌≤◌, ◌+◌, true, false, length};
ghost use Rattle.std.specs.Str.{IsUtf8};
ghost use Rattle.acra_block.specs.Cells.{cut};
ghost use Rattle.acra_block.specs.Characters.{begins_character, count_characters, first_len};

/// Whether a byte begins a character of UTF-8.
fn begins_character(byte: u8) -> bool
    ensures { result ≡ begins_character byte }
{
    byte < 0x80 || byte >= 0xc0
}

/// How many characters a text has.
fn characters(text: &[u8]) -> usize
    ensures value { result ≡ count_characters text.now }
    ensures most { result ≤ length text.now }
{
    let mut count = 0;
    'bytes: for place in 0..text.len() {
        if begins_character(text[place]) {
            count += 1;
        }
    }
    count
}

/// How many bytes the first characters of a text take.
fn first_len(text: &[u8], count: usize) -> usize
    ensures value { result ≡ first_len count text.now }
    ensures most { result ≤ length text.now }
{
    let mut left = count;
    'bytes: for place in 0..text.len() {
        if begins_character(text[place]) {
            if left == 0 {
                return place;
            }
            left -= 1;
        }
    }
    text.len()
}

/// So many bytes of the left or the right end, and the others; nothing where there are no more.
fn cut_bytes(left: bool, count: usize, value: &[u8]) -> (&[u8], &[u8])
    ensures plain { result.0.now ≡ (cut left count false value.now).0 }
    ensures rest { result.1.now ≡ (cut left count false value.now).1 }
    ensures whole { length result.0.now + length result.1.now ≡ length value.now }
{
    if value.len() <= count {
        return (&[], value);
    }
    if left {
        value.split_at(count)
    } else {
        let (front, back) = value.split_at(value.len() - count);
        (back, front)
    }
}

/// So many characters of the left or the right end, and the others; nothing where there are no more.
fn cut_characters(left: bool, count: usize, text: &[u8]) -> (&[u8], &[u8])
    requires { IsUtf8 text.now }
    ensures plain { result.0.now ≡ (cut left count true text.now).0 }
    ensures rest { result.1.now ≡ (cut left count true text.now).1 }
    ensures whole { length result.0.now + length result.1.now ≡ length text.now }
{
    let total = characters(text);
    if total <= count {
        return (&[], text);
    }
    if left {
        text.split_at(first_len(text, count))
    } else {
        let (front, back) = text.split_at(first_len(text, total - count));
        (back, front)
    }
}

/// The plain part of a value and the rest of it, cut by characters or by bytes.
pub fn cut(left: bool, count: usize, chars: bool, value: &[u8]) -> (&[u8], &[u8])
    requires { chars ≡ true → IsUtf8 value.now }
    ensures plain { result.0.now ≡ (cut left count chars value.now).0 }
    ensures rest { result.1.now ≡ (cut left count chars value.now).1 }
    ensures whole { length result.0.now + length result.1.now ≡ length value.now }
{
    if chars {
        cut_characters(left, count, value)
    } else {
        cut_bytes(left, count, value)
    }
}
