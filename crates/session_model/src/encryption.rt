/// How a client asks that its connection be encrypted, before it sends the startup message.
#[derive(Clone, Copy, Debug, PartialEq, Eq)]
pub enum Encryption {
    /// By TLS: SSLRequest.
    Tls,
    /// By GSSAPI: GSSENCRequest.
    Gss,
}
