//! What is printed.

ghost use Rattle.std.specs.Prelude.{◌≡◌, ◌++◌, codes, IfOk, length, if◌then◌else◌};
ghost use Rattle.std.specs.Fmt.{decimal};
ghost use Rattle.audit_core.specs.Texts.{closing_word};

use acra_base::{Bytes, NoMemory};
use itoa::Buffer;
use std::alloc::Global;

fn number_text(alloc: Global, word: &[u8], number: u64) -> Result<Bytes, NoMemory>
    ensures { IfOk result (λ text. text ≡ word.now ++ decimal number) }
{
    let mut buffer = Buffer::new();
    let mut text = Bytes::copied(alloc, word)?;
    text.extend(buffer.format(number).as_bytes())?;
    Ok(text)
}

/// A line of a word, a number and what ends it.
pub fn number_line(alloc: Global, word: &[u8], number: u64, end: &[u8]) -> Result<Bytes, NoMemory>
    ensures { IfOk result (λ text. text ≡ word.now ++ decimal number ++ end.now) }
{
    let mut text = number_text(alloc, word, number)?;
    text.extend(end)?;
    Ok(text)
}

/// What ends the line of a valid log.
pub fn closing_word(closed: bool) -> &'static [u8]
    ensures { result.now ≡ closing_word closed }
{
    if closed { b" closed\n" } else { b" open\n" }
}
