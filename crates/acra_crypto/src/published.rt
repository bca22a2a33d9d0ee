ghost use Rattle.acra_crypto.specs.Published.{PublishedExamples};

/// The definitions give the published examples: a block of AES-256 (FIPS 197, C.3), three seals of
/// AES-256-GCM (test cases 13, 14 and 16 of its submission to NIST), and three HMACs over SHA-256
/// (RFC 4231). A law, for callers' proofs; it does nothing.
pub fn published_examples()
    ensures { PublishedExamples }
{}
