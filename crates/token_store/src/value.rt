use acra_base::ClientId;

/// What a token stands for.
#[derive(Clone, Copy)]
pub struct TokenValue<'a> {
    /// Whose value it is.
    pub owner: &'a ClientId,
    /// The value's plaintext, canonical for its kind and at most 256 bytes.
    pub plain: &'a [u8],
}
