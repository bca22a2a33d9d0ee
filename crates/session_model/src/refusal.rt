/// Why a session itself refuses a text, of which nothing is sent to the backend.
#[derive(Clone, Copy, Debug, PartialEq, Eq)]
pub enum Refusal {
    /// The text is longer than 2^20 bytes.
    TooLong,
    /// The statement is not served.
    NotServed,
    /// No statement is spelled so. The place is a byte of the text, counted from its beginning, or the
    /// text's length.
    Misspelled { place: u32 },
    /// The statement's condition nests too deep.
    TooDeep,
}
