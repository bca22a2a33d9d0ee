//! The tokens of texts, with their places.

use sql_tokens::{Lexed, TokenRef, lex};
use std::alloc::Global;
use std::str::from_utf8;
use std::test::Fail;

/// The token with its place.
fn show(alloc: Global, token: TokenRef<'_>, at: u32) -> Result<String, Fail> {
    Ok(match token {
        TokenRef::Word(word) => format!(in alloc; "{at}:{word:?}")?,
        TokenRef::Sign(sign) => format!(in alloc; "{at}:{sign:?}")?,
        TokenRef::Number(number) => format!(in alloc; "{at}:{number}")?,
        TokenRef::Parameter(number) => format!(in alloc; "{at}:${number}")?,
        TokenRef::Text(text) => {
            let text = from_utf8(text).map_err(|_| "no text")?;
            format!(in alloc; "{at}:'{text}'")?
        }
        TokenRef::Name { name, quoted } => {
            let name = from_utf8(name).map_err(|_| "no name")?;
            let mark = if quoted { "\"" } else { "" };
            format!(in alloc; "{at}:{mark}{name}{mark}")?
        }
    })
}

/// All tokens with their places, and the place of the fault.
fn shown(alloc: Global, lexed: &Lexed) -> Result<String, Fail> {
    let mut line = String::new(alloc);
    let tokens = lexed.tokens.as_slice();
    for index in 0..tokens.len() {
        let left = tokens.skip(index);
        if let (Some(token), Some(place)) = (left.first(), left.place()) {
            line.push_str(show(alloc, token, place)?.as_str())?;
            line.push(' ')?;
        }
    }
    if let Some(place) = lexed.fault {
        line.push_str(format!(in alloc; "!{place}")?.as_str())?;
    }
    Ok(line)
}

fn lexed(alloc: Global, text: &[u8]) -> Result<Lexed, Fail> {
    if text.len() > 1 << 20 {
        return Err("too long".into());
    }
    Ok(lex(alloc, text)?)
}

const TABLE: [(&[u8], &str); 38] = [
    (b"", ""),
    (b" \t\n\r\x0c", ""),
    (
        b"SELECT a.B_1$ FROM t;",
        "0:Select 7:a 8:Dot 9:b_1$ 14:From 19:t 20:Semicolon ",
    ),
    (b"\"Select\" selects As", "0:\"Select\" 9:selects 17:As "),
    (b"\"a\"\"b\"\"\" x", "0:\"a\"b\"\" 9:x "),
    (b"'it''s' '' ''''", "0:'it's' 8:'' 11:''' "),
    (b"'a\\' b", "0:'a\\' 5:b "),
    (b"'\xc3\xa9' 1", "0:'\u{e9}' 5:1 "),
    (b"0 007 1a 1.5", "0:0 2:7 6:1 7:a 9:1 10:Dot 11:5 "),
    (b"$1 $20480 $1a", "0:$1 3:$20480 10:$1 12:a "),
    (
        b"( ) , ; . * = + -",
        "0:Open 2:Close 4:Comma 6:Semicolon 8:Dot 10:Star 12:Equal 14:Plus 16:Minus ",
    ),
    (
        b"<>!=<<=>>=",
        "0:NotEqual 2:NotEqual 4:Less 5:AtMost 7:Greater 8:AtLeast ",
    ),
    (b"a-b - -1", "0:a 1:Minus 2:b 4:Minus 6:Minus 7:1 "),
    (b"a--b\nc", "0:a 5:c "),
    (b"a--b\rc", "0:a "),
    (b"--", ""),
    (b"a/* x /* ' */ -- */b", "0:a 19:b "),
    (b"/**/a/***/b", "4:a 10:b "),
    (
        b"count(*) substr",
        "0:count 5:Open 6:Star 7:Close 9:substr ",
    ),
    (b"a /* b", "0:a !2"),
    (b"a /* /* */ b", "0:a !2"),
    (b"/*/", "!0"),
    (b"a 'b", "0:a !2"),
    (b"'a''", "!0"),
    (b"\"", "!0"),
    (b"\"\"", "!0"),
    (b"x \"a\0b\"", "0:x !2"),
    (b"x 'a\0b'", "0:x !2"),
    (b"x '\xff'", "0:x !2"),
    (b"x -- \xff\ny", "0:x !2"),
    (b"x /* \0 */ y", "0:x !2"),
    (b"x \xc3\xa9", "0:x !2"),
    (b"\0", "!0"),
    (b"x % y", "0:x !2"),
    (b"x !y", "0:x !2"),
    (b"a / b", "0:a !2"),
    (b"$0 x", "!0"),
    (b"$01 $20481", "!0"),
];

#[test]
fn texts_are_lexed(rt: HostRuntime) -> Result<(), Fail> {
    for (text, expected) in TABLE {
        let found = lexed(rt.alloc(), text)?;
        let line = shown(rt.alloc(), &found)?;
        assert!(rt; line.as_str() == expected, "{line}");
    }
    Ok(())
}

#[test]
fn lengths_and_values_have_bounds(rt: HostRuntime) -> Result<(), Fail> {
    let long = [b'a'; 64];
    assert!(rt; lexed(rt.alloc(), &long[..63])?.fault.is_none());
    assert!(rt; lexed(rt.alloc(), &long)?.fault == Some(0));
    let mut quoted = [b'a'; 66];
    quoted[0] = b'"';
    quoted[65] = b'"';
    assert!(rt; lexed(rt.alloc(), &quoted)?.fault == Some(0));
    quoted[64] = b'"';
    quoted[65] = b' ';
    assert!(rt; lexed(rt.alloc(), &quoted)?.fault.is_none());
    let most = b"170141183460469231731687303715884105727";
    let more = b"170141183460469231731687303715884105728";
    assert!(rt; lexed(rt.alloc(), most)?.fault.is_none());
    assert!(rt; lexed(rt.alloc(), more)?.fault == Some(0));
    assert!(rt; lexed(rt.alloc(), b"1 $20481")?.fault == Some(2));
    Ok(())
}
