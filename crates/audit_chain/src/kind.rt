ghost use Rattle.std.specs.Prelude.{◌≡◌, MatchOption};
ghost use Rattle.audit_chain.specs.Kinds.{kind_word};

/// What a line of the log tells of.
#[derive(Clone, Copy, Debug, PartialEq, Eq)]
pub enum NoteKind {
    /// A session began to serve its client.
    Start,
    /// The censor denied a statement.
    Deny,
    /// A statement was refused for another reason.
    Refuse,
    /// A client was given a new key.
    Rotate,
    /// Old cells of a client were sealed anew.
    Sweep,
    /// An old key of a client was removed.
    Retire,
    /// An abandoned ticket was settled.
    Settle,
    /// The log was closed.
    Close,
}

impl NoteKind {
    /// Its word in a line.
    pub fn word(self) -> &'static [u8]
        ensures { result.now ≡ kind_word self }
    {
        match self {
            NoteKind::Start => b"start",
            NoteKind::Deny => b"deny",
            NoteKind::Refuse => b"refuse",
            NoteKind::Rotate => b"rotate",
            NoteKind::Sweep => b"sweep",
            NoteKind::Retire => b"retire",
            NoteKind::Settle => b"settle",
            NoteKind::Close => b"close",
        }
    }

    /// The kind with this word.
    pub fn read(word: &[u8]) -> Option<NoteKind>
        ensures { MatchOption result ((kind : NoteKind) → kind_word kind ≡ word.now → ⊥) (λ kind. kind_word kind ≡ word.now) }
    {
        match word {
            b"start" => Some(NoteKind::Start),
            b"deny" => Some(NoteKind::Deny),
            b"refuse" => Some(NoteKind::Refuse),
            b"rotate" => Some(NoteKind::Rotate),
            b"sweep" => Some(NoteKind::Sweep),
            b"retire" => Some(NoteKind::Retire),
            b"settle" => Some(NoteKind::Settle),
            b"close" => Some(NoteKind::Close),
            _ => None,
        }
    }
}
