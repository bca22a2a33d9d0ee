ghost use Rattle.std.specs.Prelude.{◌≡◌};
ghost use Rattle.command_words.specs.Numbers.{number_of};

/// The number that 1 to 20 decimal digits spell, where it is below 2^64. Any other word is no number.
pub fn read_number(word: &str) -> Option<u64>
    ensures { result ≡ number_of word.now }
{
    let text = word.as_bytes();
    if text.is_empty() || text.len() > 20 {
        return None;
    }
    let mut value: u64 = 0;
    'digits: for i in 0..text.len() {
        let digit = text[i];
        if !digit.is_ascii_digit() {
            return None;
        }
        let next = value as u128 * 10 + (digit - b'0') as u128;
        if next >= 1 << 64 {
            return None;
        }
        value = next as u64;
    }
    Some(value)
}
