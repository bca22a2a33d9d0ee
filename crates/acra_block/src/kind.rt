/// The kinds of cells.
#[derive(Clone, Copy, Debug, PartialEq, Eq)]
pub enum CellKind {
    /// A container.
    Sealed,
    /// The blind index of the value, 33 bytes, and a container.
    Searchable,
    /// A part of the value in the clear, and a container of the rest.
    Masked {
        /// Whether the part is the left end of the value, and not the right one.
        left: bool,
        /// How long the part is. A value that is no longer is sealed whole.
        length: u32,
        /// Whether the length counts characters of UTF-8, and not bytes.
        chars: bool,
    },
}
