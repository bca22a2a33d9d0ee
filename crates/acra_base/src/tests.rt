use super::*;
use std::test::Fail;

#[test]
fn client_names(rt: HostRuntime) {
    let long = [b'a'; 65];
    let cases: [(&[u8], Option<BadClientId>); 9] = [
        (b"a", None),
        (b"client_07", None),
        (b"_`{", Some(BadClientId::Byte { place: 1 })),
        (&long[..64], None),
        (&long, Some(BadClientId::Length)),
        (b"", Some(BadClientId::Length)),
        (b"A", Some(BadClientId::Byte { place: 0 })),
        (b"ab.c.", Some(BadClientId::Byte { place: 2 })),
        (b"a/:", Some(BadClientId::Byte { place: 1 })),
    ];
    for (text, fault) in cases {
        match ClientId::read(text) {
            Ok(client) => {
                assert_eq!(rt; fault, None, "at {text:?}");
                assert_eq!(rt; client.text(), text);
            }
            Err(why) => assert_eq!(rt; Some(why), fault, "at {text:?}"),
        }
    }
}

#[test]
fn lists(rt: HostRuntime) -> Result<(), Fail> {
    let alloc = rt.alloc();
    let mut bytes = Bytes::copied(alloc, b"ab")?;
    bytes.push(b'c')?;
    bytes.extend(b"de")?;
    assert_eq!(rt; bytes.len(), 5);
    assert_eq!(rt; bytes, Bytes::from_vec(Vec::from_slice(alloc, b"abcde")?));
    assert_ne!(rt; bytes, Bytes::new(alloc));

    let mut names = Sequence::new(alloc);
    assert!(rt; names.is_empty());
    names.push(Name::new(Bytes::copied(alloc, b"notes")?))?;
    assert_eq!(rt; names.len(), 1);
    assert_eq!(rt; names.as_slice()[0].as_slice(), b"notes".as_slice());
    let again = names.clone()?;
    assert_eq!(rt; again.len(), 1);
    assert_eq!(rt; again.as_slice()[0].as_slice(), b"notes".as_slice());
    Ok(())
}
