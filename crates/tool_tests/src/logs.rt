//! A log, and the folder that holds it.

/// The key of the log: the bytes 0 to 31.
pub const KEY: [u8; 32] = [
    0, 1, 2, 3, 4, 5, 6, 7, 8, 9, 10, 11, 12, 13, 14, 15, 16, 17, 18, 19, 20, 21, 22, 23, 24, 25,
    26, 27, 28, 29, 30, 31,
];

/// The lines of a log, as Python's hmac makes them.
pub const LINES: [&[u8]; 4] = [
    b"1 start app - 1691e4162715e775c2b6d34fdb5413591e853169df3210b70212c53be302da66\n",
    b"2 deny app 2.1 00ee352746a94794a08ffc37f6e271763ae26f20eb8ed4d4582a0ca399440c5f\n",
    b"3 rotate web_2 18446744073709551615 \
      5d2dfcf051b4be6b88e740c879647ff4158715f9061e5fa141ab1e26c14900b2\n",
    b"4 close - - 9a556ec792f1c7df3264a0106bf772e8fbe8d1b871be0d0078728712518a0f0d\n",
];

/// The whole log.
pub const LOG: &[u8] =
    b"1 start app - 1691e4162715e775c2b6d34fdb5413591e853169df3210b70212c53be302da66
2 deny app 2.1 00ee352746a94794a08ffc37f6e271763ae26f20eb8ed4d4582a0ca399440c5f
3 rotate web_2 18446744073709551615 5d2dfcf051b4be6b88e740c879647ff4158715f9061e5fa141ab1e26c14900b2
4 close - - 9a556ec792f1c7df3264a0106bf772e8fbe8d1b871be0d0078728712518a0f0d
";

/// The master key of the keystore file below.
pub const MASTER: &[u8] = b"404142434445464748494a4b4c4d4e4f505152535455565758595a5b5c5d5e5f\n";

/// A keystore file without clients, whose audit key is that of the log, as Python's cryptography
/// 48.0 seals it.
pub const KEYSTORE: &str = "414b5231000102030405060708090a0b\
    2b147d69669d55b1d30391d3a9fcddaa92d53c187d5dbc42ff31f98750a0784f\
    6252e6239960295d923a5abd6389f5d20b3d281ff466390611a1a59773476cc4\
    c672f8aff2a831c8da3ad2b9131b8469e9c0f8e151b81320f03fe70c12612449\
    8e82e5ef03f8796e1fac2c470fdf9ca9797035c0982fa7e891dc";
