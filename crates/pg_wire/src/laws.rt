ghost use Rattle.std.specs.Prelude.{◌≡◌, ◌<◌, ◌-◌, ◌++◌, ◌⊎◌, ℕ, Bool, List, Ok, Err, length, slice_index};
ghost use Rattle.pg_wire.specs.declared.frame.Side.{Side};
ghost use Rattle.pg_wire.specs.declared.frame.FrameFault.{FrameFault};
ghost use Rattle.pg_wire.specs.declared.front.Front.{Front};
ghost use Rattle.pg_wire.specs.declared.back.Back.{Back};
ghost use Rattle.pg_wire.specs.Frames.{frame_bytes, IsFrame, HasFault, IsUnfinished};
ghost use Rattle.pg_wire.specs.declared.frame.Frame.{Frame};
ghost use Rattle.pg_wire.specs.declared.frame.FrameView.{FrameView};
ghost use Rattle.pg_wire.specs.Streams.{Stream, new_stream, frame_of, GivesFrame, SeesFrame};
ghost use Rattle.pg_wire.specs.Runs.{Event, Run, fed_bytes, given, IsSpelled, IsDrained};
ghost use Rattle.pg_wire.specs.Begins.{Begins};
ghost use Rattle.pg_wire.specs.Fronts.{IsFront, front_kind, front_body};
ghost use Rattle.pg_wire.specs.Backs.{IsBack, back_kind, back_body};
ghost use Rattle.pg_wire.specs.Prefixes.{BeginsFrame};
ghost use Rattle.pg_wire.specs.Bodies.{front_read, back_read};
ghost use Rattle.pg_wire.specs.Reading.{SpellsFront, SpellsBack};
ghost use Rattle.pg_wire.specs.Places.{joined, front_fields, back_fields, IsFrontFault, IsBackFault};

/// No frame begins another: a stream begins with one frame at most.
pub fn one_frame()
    ensures one { (who : Side) (limit : ℕ) (opening : Bool) (k j : ℕ) (b c x y : List ℕ) → IsFrame who limit opening k b → IsFrame who limit opening j c
        → frame_bytes k b ++ x ≡ frame_bytes j c ++ y → (k ≡ j) × (b ≡ c) × (x ≡ y) }
{}

/// The frame that is seen is the one that is given out, or let go; and what is left then is one stream.
pub fn seen_is_given()
    ensures frame { (s t : Stream) (view : FrameView) (frame : Frame) → SeesFrame s view → GivesFrame s frame t → frame ≡ frame_of view }
    ensures left { (s t u : Stream) (frame other : Frame) → GivesFrame s frame t → GivesFrame s other u → t ≡ u }
{}

/// Where there is a fault no frame stands.
pub fn fault_is_no_frame()
    ensures none { (who : Side) (limit : ℕ) (opening : Bool) (bytes : List ℕ) (fault : FrameFault) (k : ℕ) (b rest : List ℕ) → HasFault who limit opening bytes fault
        → IsFrame who limit opening k b → bytes ≡ frame_bytes k b ++ rest → ⊥ }
{}

/// A fault stays, whatever comes.
pub fn fault_stays()
    ensures stays { (who : Side) (limit : ℕ) (opening : Bool) (bytes more : List ℕ) (fault : FrameFault) → HasFault who limit opening bytes fault
        → HasFault who limit opening (bytes ++ more) fault }
{}

/// A stream has one fault at most.
pub fn one_fault()
    ensures one { (who : Side) (limit : ℕ) (opening : Bool) (bytes : List ℕ) (f g : FrameFault) → HasFault who limit opening bytes f → HasFault who limit opening bytes g → f ≡ g }
{}

/// No two messages of a client have one spelling.
pub fn one_front()
    ensures one { (a b : Front) → IsFront a → IsFront b → front_kind a ≡ front_kind b → front_body a ≡ front_body b → a ≡ b }
{}

/// No two messages of a server have one spelling.
pub fn one_back()
    ensures one { (a b : Back) → IsBack a → IsBack b → back_kind a ≡ back_kind b → back_body a ≡ back_body b → a ≡ b }
{}

/// The round trip of a client's messages: what spells one is read as it, and what is read as one spells it.
pub fn front_round_trip()
    ensures again { (m : Front) → IsFront m → front_read (front_kind m) (front_body m) ≡ Ok m }
    ensures spelled { (kind : ℕ) (body : List ℕ) (m : Front) → ((i : ℕ) → slice_index body i < 256) → front_read kind body ≡ Ok m → SpellsFront kind body m }
{}

/// The round trip of a server's messages: what spells one is read as it, and what is read as one spells it.
pub fn back_round_trip()
    ensures again { (m : Back) → IsBack m → back_read (back_kind m) (back_body m) ≡ Ok m }
    ensures spelled { (kind : ℕ) (body : List ℕ) (m : Back) → ((i : ℕ) → slice_index body i < 256) → back_read kind body ≡ Ok m → SpellsBack kind body m }
{}

/// What is unfinished is the front of a longer frame.
pub fn unfinished_begins()
    ensures begins { (who : Side) (limit : ℕ) (opening : Bool) (bytes : List ℕ) → ((i : ℕ) → slice_index bytes i < 256) → IsUnfinished who limit opening bytes
        → BeginsFrame who opening bytes }
{}

/// Whatever the pieces and whenever `next` is called, the frames given out and the bytes left spell what was fed.
pub fn stream_spelled()
    ensures spelled { (who : Side) (limit : ℕ) (events : List Event) (t : Stream) → Run (new_stream who limit) events t → IsSpelled who limit events t }
{}

/// Frames don't depend on how a stream was cut. Of two runs over what one stream begins with, the frames of one
/// begin those of the other; where the same was fed and neither has a frame left, they are the same.
pub fn one_stream()
    ensures begins { (who : Side) (limit : ℕ) (a b : List Event) (s t : Stream) (more : List ℕ) → Run (new_stream who limit) a s → Run (new_stream who limit) b t
        → fed_bytes b ≡ fed_bytes a ++ more → Begins (given a) (given b) ⊎ Begins (given b) (given a) }
    ensures same { (who : Side) (limit : ℕ) (a b : List Event) (s t : Stream) → Run (new_stream who limit) a s → Run (new_stream who limit) b t
        → fed_bytes a ≡ fed_bytes b → IsDrained s → IsDrained t → given a ≡ given b }
{}

/// A client's message is made of its fields. The place where a body can't be read is the end of the longest beginning
/// that whole fields of some message of its type make, and a body has one such place.
pub fn front_places()
    ensures fields { (m : Front) → front_body m ≡ joined (front_fields m) }
    ensures place { (kind : ℕ) (body : List ℕ) (left : ℕ) → ((i : ℕ) → slice_index body i < 256) → front_read kind body ≡ Err left → IsFrontFault kind body (length body - left) }
    ensures one { (kind : ℕ) (body : List ℕ) (a b : ℕ) → IsFrontFault kind body a → IsFrontFault kind body b → a ≡ b }
{}

/// A server's message is made of its fields, and the place where a body can't be read is as for a client's.
pub fn back_places()
    ensures fields { (m : Back) → back_body m ≡ joined (back_fields m) }
    ensures place { (kind : ℕ) (body : List ℕ) (left : ℕ) → ((i : ℕ) → slice_index body i < 256) → back_read kind body ≡ Err left → IsBackFault kind body (length body - left) }
    ensures one { (kind : ℕ) (body : List ℕ) (a b : ℕ) → IsBackFault kind body a → IsBackFault kind body b → a ≡ b }
{}
