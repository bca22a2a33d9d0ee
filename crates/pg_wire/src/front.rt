use acra_base::{Bytes, Sequence};

/// The code of protocol 3.0.
pub(crate) const PROTOCOL: u32 = 196_608;

/// The code of a packet that asks for encryption by TLS.
pub(crate) const TLS_REQUEST: u32 = 80_877_103;

/// The code of a packet that asks for encryption by GSSAPI.
pub(crate) const GSS_REQUEST: u32 = 80_877_104;

/// The code of a packet that cancels a request of another connection.
pub(crate) const CANCEL_REQUEST: u32 = 80_877_102;

/// A name with its value.
#[derive(Debug, Drop)]
pub struct Pair {
    /// The name. It holds no zero byte.
    pub name: Bytes,
    /// The value. It holds no zero byte.
    pub value: Bytes,
}

/// What a Describe or a Close is about.
#[derive(Clone, Copy, Debug, PartialEq, Eq)]
pub enum Target {
    /// A prepared statement, the byte `S`.
    Prepared,
    /// A portal, the byte `P`.
    Portal,
}

/// A message of the client. Names and texts hold no zero byte, and a list that is written with a count
/// has at most 65,535 items.
#[derive(Debug, Drop)]
pub enum Front {
    /// The startup packet of protocol 3.0 with its parameters. Their names are not empty.
    Startup {
        params: Sequence<Pair>,
    },
    /// SSLRequest, a startup packet that asks for encryption by TLS.
    SslRequest,
    /// GSSENCRequest, a startup packet that asks for encryption by GSSAPI.
    GssRequest,
    /// CancelRequest, a startup packet with the process and the key of the connection whose request it
    /// cancels.
    Cancel {
        process: u32,
        key: u32,
    },
    /// Query: a text of SQL.
    Query(Bytes),
    /// Parse: a statement's name, its text, and the OIDs of its first parameters' types, 0 for one that
    /// is left open.
    Parse {
        name: Bytes,
        text: Bytes,
        types: Sequence<u32>,
    },
    /// Bind: a portal and the statement that it is made of; the formats of the values, 0 for text and 1
    /// for binary; the values, `None` for NULL; the formats of the result's columns.
    Bind {
        portal: Bytes,
        name: Bytes,
        formats: Sequence<u16>,
        values: Sequence<Option<Bytes>>,
        results: Sequence<u16>,
    },
    /// Describe.
    Describe {
        target: Target,
        name: Bytes,
    },
    /// Execute: a portal, and the most rows that it returns, 0 for all.
    Execute {
        portal: Bytes,
        limit: u32,
    },
    /// Close.
    Close {
        target: Target,
        name: Bytes,
    },
    /// Sync, the end of a batch.
    Sync,
    /// Flush.
    Flush,
    /// An answer to a request for a password, any bytes.
    Password(Bytes),
    /// Terminate, the end of the session.
    Terminate,
}
