use super::*;
use std::alloc::Global;
use std::test::Fail;

#[test]
fn numbers(rt: HostRuntime) {
    let cases: [(&str, Option<u64>); 14] = [
        ("0", Some(0)),
        ("7", Some(7)),
        ("007", Some(7)),
        ("18446744073709551615", Some(18_446_744_073_709_551_615)),
        ("00000000000000000001", Some(1)),
        ("", None),
        ("18446744073709551616", None),
        ("99999999999999999999", None),
        ("000000000000000000001", None),
        ("-1", None),
        ("+1", None),
        (" 1", None),
        ("1a", None),
        ("\u{661}", None),
    ];
    'cases: for (word, want) in cases {
        assert_eq!(rt; read_number(word), want, "at {word}");
    }
}

#[test]
fn clients(rt: HostRuntime) {
    let longest = "abcdefghijklmnopqrstuvwxyz_0123456789_abcdefghijklmnopqrstuvwxyz";
    let longer = "abcdefghijklmnopqrstuvwxyz_0123456789_abcdefghijklmnopqrstuvwxyz0";
    let cases: [(&str, bool); 7] = [
        ("app", true),
        ("client_07", true),
        (longest, true),
        ("", false),
        (longer, false),
        ("App", false),
        ("a-b", false),
    ];
    'cases: for (word, is_one) in cases {
        let text: Option<&[u8]> = if is_one { Some(word.as_bytes()) } else { None };
        match read_client(word) {
            Some(client) => assert_eq!(rt; Some(client.text()), text, "at {word}"),
            None => assert_eq!(rt; None, text, "at {word}"),
        }
    }
}

fn spoken(alloc: Global, texts: &[&str]) -> Result<Vec<String>, Fail> {
    let mut words = Vec::new(alloc);
    'texts: for text in texts {
        words.push(String::from_str(alloc, text)?)?;
    }
    Ok(words)
}

#[test]
fn asked(rt: HostRuntime) -> Result<(), Fail> {
    let cases: [(&[&str], Asked); 8] = [
        (&["--help"], Asked::Help),
        (&["--version"], Asked::Version),
        (&[], Asked::Work),
        (&["--Help"], Asked::Work),
        (&["-h"], Asked::Work),
        (&["--help", "--help"], Asked::Work),
        (&["--version", ""], Asked::Work),
        (&["keys", "list"], Asked::Work),
    ];
    'cases: for (texts, want) in cases {
        assert_eq!(rt; asked_by(&spoken(rt.alloc(), texts)?), want, "at {texts:?}");
    }
    Ok(())
}
