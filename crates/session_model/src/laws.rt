ghost use Rattle.std.specs.Prelude.{◌≡◌, ◌++◌, ℕ, List};
ghost use Rattle.pg_wire.specs.declared.frame.MessageFault.{MessageFault};
ghost use Rattle.session_model.specs.Requests.{Phase, Request, NoRequest, Splits};
ghost use Rattle.session_model.specs.BadMessages.{IsBad, IsCut};
ghost use Rattle.session_model.specs.Laws.{TablesStand, RepliesStand, ServedIsStatement};
ghost use Rattle.session_model.specs.Meanings.{OneMeaning};

/// The stored table `notes` still stands for the plaintext one after a served statement, where the text form of what is
/// stored for it reads back.
pub fn tables_still_stand()
    ensures { TablesStand }
{}

/// What the owner of all protected cells is shown of the stored reply to a served statement is what the plaintext
/// tables reply.
pub fn replies_stand()
    ensures { RepliesStand }
{}

/// A bad message has one fault at most, which stays whatever comes. It is no request, and not a prefix of one.
pub fn bad_messages()
    ensures one { (phase : Phase) (bytes : List ℕ) (f g : MessageFault) → IsBad phase bytes f → IsBad phase bytes g → f ≡ g }
    ensures stays { (phase : Phase) (bytes more : List ℕ) (f : MessageFault) → IsBad phase bytes f → IsBad phase (bytes ++ more) f }
    ensures no_request { (phase : Phase) (bytes : List ℕ) (f : MessageFault) → IsBad phase bytes f → NoRequest phase bytes }
    ensures uncut { (phase : Phase) (bytes : List ℕ) (f : MessageFault) → IsBad phase bytes f → IsCut phase bytes → ⊥ }
{}

/// A text asks at most one thing: its statement, nothing, or what is refused for one cause.
pub fn one_meaning()
    ensures { OneMeaning }
{}

/// A statement that a text asks is one that can be sent on, and its strings are short.
pub fn served_is_statement()
    ensures { ServedIsStatement }
{}

/// A stream is split into requests and a rest in at most one way.
pub fn one_split()
    ensures one { (client x y : List ℕ) (rs qs : List Request) → Splits client rs x → Splits client qs y → (rs ≡ qs) × (x ≡ y) }
{}
