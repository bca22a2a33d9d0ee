//! Bytes that are read as far as they go.

ghost use Rattle.std.specs.Prelude.{◌≡◌, ◌≤◌, ◌<◌, ◌^◌, ◌+◌, ◌*◌, ◌-◌, take, drop, map, length, true, IfOk, IfSome, IfNone, IsTrue, ◌↔◌, ◌&&◌, ◌||◌, ◌==◌, nat_le, ℕ};
ghost use Rattle.std.specs.List.{list_all};
ghost use Rattle.sql_tokens.specs.Classes.{Stops, folded, is_digit, number_from};
ghost use Rattle.sql_tokens.specs.Comments.{IsText};
ghost use Rattle.sql_tokens.specs.Runs.{run_test, NumbersParameter};

use acra_base::{Bytes, NoMemory};
use std::alloc::Global;
use std::str::from_utf8;

/// The largest number of a parameter.
const LAST_PARAMETER: u128 = 20_480;

/// What runs on as far as it goes.
#[derive(Clone, Copy)]
pub enum Run {
    /// A word.
    Word,
    /// A number.
    Digits,
    /// What stands before a newline.
    Line,
    /// All but this quote.
    Inside(u8),
}

impl Run {
    /// Whether the byte belongs to the run.
    pub fn holds(self, byte: u8) -> bool
        ensures { result ≡ run_test self byte }
    {
        match self {
            Run::Word => { matches!(byte, b'a'..=b'z' | b'A'..=b'Z' | b'_' | b'0'..=b'9' | b'$') }
            Run::Digits => byte.is_ascii_digit(),
            Run::Line => byte != b'\n',
            Run::Inside(quote) => byte != quote,
        }
    }

    /// How many bytes of the run begin the text.
    pub fn len_in(self, text: &[u8]) -> usize
        ensures within { result ≤ length text.now }
        ensures all { list_all (run_test self) (take result text.now) ≡ true }
        ensures stops { Stops (run_test self) (drop result text.now) }
    {
        'bytes: for (place, byte) in text.iter().enumerate() {
            if !self.holds(*byte) {
                return place;
            }
        }
        text.len()
    }
}

fn lower(byte: u8) -> u8
    ensures { result ≡ folded byte }
{
    byte.to_ascii_lowercase()
}

/// The word in lower case.
pub fn folded_word(alloc: Global, word: &[u8]) -> Result<Bytes, NoMemory>
    ensures { IfOk result (λ bytes. bytes ≡ map folded word.now) }
{
    let bytes = word.iter().map(|byte| lower(*byte)).collect(alloc)?;
    Ok(Bytes::from_vec(bytes))
}

fn with_digit(number: u128, digit: u8) -> Option<u128>
    requires { is_digit digit ≡ true }
    ensures some { IfSome result (λ n. n ≡ number * 10 + (digit - 48)) }
    ensures small { IfSome result (λ n. n < 2 ^ 127) }
    ensures none { IfNone result (2 ^ 127 ≤ number * 10 + (digit - 48)) }
{
    let next = number.checked_mul(10)?.checked_add((digit - b'0') as u128)?;
    if next >> 127 == 0 { Some(next) } else { None }
}

/// The number that digits spell, where it is below 2^127.
pub fn number_of(digits: &[u8]) -> Option<u128>
    requires { list_all is_digit digits.now ≡ true }
    ensures some { IfSome result (λ n. n ≡ number_from 0 digits.now) }
    ensures small { IfSome result (λ n. n < 2 ^ 127) }
    ensures none { IfNone result (2 ^ 127 ≤ number_from 0 digits.now) }
{
    let mut number = 0;
    'digits: for digit in digits {
        number = with_digit(number, *digit)?;
    }
    Some(number)
}

/// The number of a parameter, where the digits spell one.
pub fn parameter_of(digits: &[u8]) -> Option<u16>
    requires { list_all is_digit digits.now ≡ true }
    ensures some { IfSome result (λ n. NumbersParameter digits.now n) }
    ensures none { IfNone result ((n : ℕ) → NumbersParameter digits.now n → ⊥) }
{
    let Some(first) = digits.first() else {
        return None;
    };
    if *first == b'0' {
        return None;
    }
    match number_of(digits) {
        Some(number) => {
            if number > LAST_PARAMETER {
                return None;
            }
            Some(number as u16)
        }
        None => None,
    }
}

/// Whether the bytes are UTF-8 without a zero byte.
pub fn is_text(bytes: &[u8]) -> bool
    ensures { IsTrue result ↔ IsText bytes.now }
{
    if bytes.contains(&0) {
        return false;
    }
    match from_utf8(bytes) {
        Ok(_) => true,
        Err(_) => false,
    }
}
