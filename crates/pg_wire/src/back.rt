use crate::front::Pair;
use acra_base::{Bytes, Sequence};

/// The length that stands for NULL, -1 as a signed number.
pub(crate) const NULL_LENGTH: u32 = 4_294_967_295;

/// A column of a result, as it is described.
#[derive(Debug, Drop)]
pub struct Field {
    /// The column's name, without a zero byte.
    pub name: Bytes,
    /// The table's OID, 0 for none.
    pub table: u32,
    /// The column's number in its table from 1, 0 for none.
    pub attribute: u16,
    /// The type's OID.
    pub kind: u32,
    /// The type's size in bytes, -1 for one that varies.
    pub size: i16,
    /// The type's modifier, -1 for none.
    pub modifier: i32,
    /// 0 for text, 1 for binary.
    pub format: u16,
}

/// A field of an error or of a notice.
#[derive(Debug, Drop)]
pub struct ErrorField {
    /// What the text is, as `M` for the message. It isn't 0.
    pub code: u8,
    /// The text, without a zero byte.
    pub text: Bytes,
}

/// A message of the server. Names and texts hold no zero byte, and a list that is written with a count
/// has at most 65,535 items.
#[derive(Debug, Drop)]
pub enum Back {
    /// Authentication: a code, 0 for success, and what follows it.
    Auth { code: u32, rest: Bytes },
    /// ParameterStatus.
    Status(Pair),
    /// BackendKeyData.
    KeyData { process: u32, key: u32 },
    /// ReadyForQuery: `I` for idle, `T` in a transaction, `E` in a failed one.
    Ready(u8),
    /// RowDescription.
    Row(Sequence<Field>),
    /// DataRow: the cells, `None` for NULL.
    Cells(Sequence<Option<Bytes>>),
    /// CommandComplete with its tag.
    Complete(Bytes),
    /// EmptyQueryResponse, in place of CommandComplete.
    EmptyQuery,
    /// ErrorResponse.
    Error(Sequence<ErrorField>),
    /// NoticeResponse.
    Notice(Sequence<ErrorField>),
    /// ParseComplete.
    ParseDone,
    /// BindComplete.
    BindDone,
    /// CloseComplete.
    CloseDone,
    /// NoData: what was described returns no rows.
    NoData,
    /// ParameterDescription: the OIDs of the parameters' types.
    Params(Sequence<u32>),
    /// PortalSuspended: an Execute reached its row limit.
    Suspended,
}
