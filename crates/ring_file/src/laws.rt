ghost use Rattle.std.specs.Prelude.{◌≡◌, ◌<◌, ◌-◌, ℕ, List, Err, length, slice_index};
ghost use Rattle.keystore.specs.Rings.{RingState};
ghost use Rattle.ring_file.specs.Form.{ring_body, IsFileRing};
ghost use Rattle.ring_file.specs.Fields.{IsWhole, IsFaultPlace};
ghost use Rattle.ring_file.specs.Reading.{ring_read};

/// A body that can't be read has one place at which its fields end: all before it are whole fields that may
/// stand so, and no field that may follow begins what is left.
pub fn fault_places()
    ensures place { (body : List ℕ) (left : ℕ) → ring_read body ≡ Err left → IsFaultPlace body (length body - left) }
    ensures one { (body : List ℕ) (a b : ℕ) → IsFaultPlace body a → IsFaultPlace body b → a ≡ b }
{}

/// The bodies of rings are the bytes that are made of fields from the start to the end, and none of them has a fault.
pub fn whole_bodies()
    ensures whole { (r : RingState) → IsFileRing r → IsWhole (ring_body r) }
    ensures only { (body : List ℕ) → ((i : ℕ) → slice_index body i < 256) → IsWhole body → (r : RingState) × IsFileRing r × (body ≡ ring_body r) }
    ensures sound { (body : List ℕ) (place : ℕ) → IsWhole body → IsFaultPlace body place → ⊥ }
{}
