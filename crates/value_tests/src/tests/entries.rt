//! Entries that break a rule: the second one of the second schema.

use super::*;
use std::test::Fail;

/// What stands before such an entry, and behind it.
const BEFORE: &str =
    r#"{"schemas":[{"table":"s","columns":["z"]},{"table":"t","columns":["a","b","c"],"encrypted":[{"column":"b"},{"#;

const AFTER: &str = "}]}]}";

/// What stands before the other members of an entry of the column `a`.
const BEFORE_OTHERS: &str =
    r#"{"schemas":[{"table":"s","columns":["z"]},{"table":"t","columns":["a","b","c"],"encrypted":[{"column":"b"},{"column":"a","#;

/// The members of the entry.
const ENTRIES: [(&str, u8); 22] = [
    (r#""client_id":"x""#, 3),
    (r#""column":1"#, 3),
    (r#""column":"a","more":1"#, 3),
    (r#""column":"a","searchable":"true""#, 3),
    (r#""column":"a","plaintext_length":-1"#, 3),
    (r#""column":"b""#, 5),
    (r#""column":"d""#, 6),
    (r#""column":"a","client_id":"App""#, 7),
    (r#""column":"a","data_type":"text""#, 8),
    (r#""column":"a","crypto_envelope":"other""#, 8),
    (r#""column":"a","token_type":"str","data_type":"int32""#, 8),
    (r#""column":"a","searchable":true,"masking":"x""#, 9),
    (r#""column":"a","searchable":true,"token_type":"str""#, 9),
    (r#""column":"a","masking":"x","token_type":"str""#, 9),
    (r#""column":"a","masking":"x""#, 10),
    (r#""column":"a","plaintext_side":"left""#, 10),
    (r#""column":"a","tokenized":true"#, 11),
    (r#""column":"a","consistent_tokenization":false"#, 11),
    (r#""column":"a","token_type":"str","tokenized":false"#, 11),
    (r#""column":"a","response_on_fail":"none""#, 12),
    (r#""column":"a","default_data_value":"x""#, 12),
    (r#""column":"a","token_type":"str""#, 14),
];

/// The other members, of columns with a mask.
const MASKS: [(&str, u8); 7] = [
    (
        r#""masking":"","plaintext_length":262144,"plaintext_side":"right""#,
        POLICY,
    ),
    (
        r#""masking":"x","plaintext_length":262145,"plaintext_side":"left""#,
        10,
    ),
    (
        r#""masking":"x","plaintext_length":4,"plaintext_side":"top""#,
        10,
    ),
    (
        r#""masking":"xxxxxxxxxxxxxxxxxxxxxxxxxxxxxxxxxxxxxxxxxxxxxxxxxxxxxxxxxxxxxxxxx","plaintext_length":4,"plaintext_side":"left""#,
        10,
    ),
    (
        r#""masking":"x\u0000","plaintext_length":4,"plaintext_side":"left""#,
        10,
    ),
    (
        r#""data_type":"int32","masking":"x","plaintext_length":4,"plaintext_side":"left""#,
        10,
    ),
    (
        r#""masking":"x","plaintext_length":4,"plaintext_side":"left","response_on_fail":"ciphertext""#,
        11,
    ),
];

/// The other members, of columns with a default.
const DEFAULTS: [(&str, u8); 7] = [
    (r#""response_on_fail":"ciphertext""#, POLICY),
    (r#""response_on_fail":"default_value""#, 12),
    (
        r#""response_on_fail":"default_value","default_data_value":"aGk=""#,
        POLICY,
    ),
    (
        r#""response_on_fail":"default_value","default_data_value":"aGk""#,
        13,
    ),
    (
        r#""data_type":"int64","response_on_fail":"default_value","default_data_value":" -1""#,
        POLICY,
    ),
    (
        r#""data_type":"int32","response_on_fail":"default_value","default_data_value":"2147483648""#,
        13,
    ),
    (
        r#""data_type":"str","response_on_fail":"default_value","default_data_value":"x\u0000""#,
        13,
    ),
];

#[test]
fn entries(rt: HostRuntime) -> Result<(), Fail> {
    each_breaks(&rt, rt.alloc(), BEFORE, AFTER, (1, 1), &ENTRIES)?;
    Ok(())
}

#[test]
fn masks_and_defaults(rt: HostRuntime) -> Result<(), Fail> {
    for texts in [MASKS.as_slice(), DEFAULTS.as_slice()] {
        each_breaks(&rt, rt.alloc(), BEFORE_OTHERS, AFTER, (1, 1), texts)?;
    }
    Ok(())
}

/// The default is so many times `x`.
const LENGTHS: [(usize, u8); 3] = [(0, POLICY), (1024, POLICY), (1025, 13)];

#[test]
fn the_longest_default(rt: HostRuntime) -> Result<(), Fail> {
    let members = r#""data_type":"str","response_on_fail":"default_value","default_data_value":""#;
    let before = between(rt.alloc(), BEFORE_OTHERS, members, "")?;
    for (count, rule) in LENGTHS {
        let text = vec![in rt.alloc(); b'x'; count]?;
        let text = std::str::from_utf8(&text).map_err(|_| "not UTF-8")?;
        let is_so = breaks(rt.alloc(), before.as_str(), text, r#""}]}]}"#, (1, 1), rule)?;
        assert!(rt; is_so, "{count}");
    }
    Ok(())
}
