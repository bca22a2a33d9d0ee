use crate::detail::Detail;
use crate::kind::NoteKind;
use acra_base::ClientId;

/// What a line tells.
#[derive(Clone, Copy)]
pub struct Note {
    pub kind: NoteKind,
    /// The client that it concerns, where there is one.
    pub client: Option<ClientId>,
    pub detail: Detail,
}
