/// What a column's plaintext is.
#[derive(Clone, Copy, Debug, PartialEq, Eq)]
pub enum ValueKind {
    /// Text: UTF-8 without a zero byte.
    Str,
    /// Any bytes.
    Bytes,
    /// An integer of 32 bits, signed.
    Int32,
    /// An integer of 64 bits, signed.
    Int64,
}
