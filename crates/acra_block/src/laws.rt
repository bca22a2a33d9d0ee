ghost use Rattle.std.specs.Prelude.{◌≡◌, ◌≤◌, ◌<◌, ◌^◌, ◌↔◌, ℕ, List, length, Some, slice_index};
ghost use Rattle.acra_base.specs.Client.{IsClientId};
ghost use Rattle.acra_crypto.specs.Bytes.{AreBytes};
ghost use Rattle.acra_block.specs.declared.container.Container.{Container};
ghost use Rattle.acra_block.specs.declared.kind.CellKind.{CellKind};
ghost use Rattle.acra_block.specs.declared.keys.KeyView.{KeyView};
ghost use Rattle.acra_block.specs.declared.opening.Opened.TheVariants as answers;
ghost use Rattle.acra_block.specs.declared.place.CellPlace.{CellPlace};
ghost use Rattle.acra_block.specs.Keys.{Key, key_of};
ghost use Rattle.acra_block.specs.Places.{extra_of, IsPlace, SealsTwo};
ghost use Rattle.acra_block.specs.Containers.{container_of, IsContainer, opened_container, IsSpelling};
ghost use Rattle.acra_block.specs.Cells.{IsCuttable, cell, version_of, opened_cell};

use acra_crypto::Aead;

/// Bytes tell a container exactly where they are a header, of a version, an id and a length, and as many bytes.
pub fn one_form()
    ensures form { (bytes : List ℕ) (c : Container) → ((i : ℕ) → slice_index bytes i < 256) → (container_of bytes ≡ Some c) ↔ IsContainer bytes c }
{}

/// Bytes that are a container open to a value, with an extra, exactly where they are the container of that value
/// in its version, with this extra and some 56 drawn bytes.
pub fn plain_is_spelled<A: Aead>(_aead: &A)
    ensures opens { (extra key bytes plain : List ℕ) (c : Container) → AreBytes key → AreBytes bytes → IsContainer bytes c
        → (opened_container (A.opened _aead.now) extra key bytes ≡ Some plain) ↔ ((length plain ≡ c.length) × IsSpelling (A.sealed _aead.now) extra c.version c.id key bytes plain) }
{}

/// What was sealed for a client and a place opens there to its value, with any view that has the key.
pub fn sealed_opens<A: Aead>(_aead: &A)
    ensures plain { (kind : CellKind) (place : CellPlace) (version : ℕ) (k : Key) (view : KeyView) (drawn plain : List ℕ) → 1 ≤ version → version ≤ 2 → length plain ≤ 2 ^ 18 → IsCuttable kind plain → length drawn ≡ 56
        → 1 ≤ k.id → k.id < 2 ^ 64 → k.id < view.next_id → view.who ≡ k.owner → key_of k.id view.keys ≡ Some k.key
        → opened_cell (A.opened _aead.now) kind place view (cell (A.sealed _aead.now) kind place version k drawn plain) ≡ (answers.Plain, plain) }
{}

/// One extra of version 2 is of one owner, one table and one column, and is none of version 1.
pub fn one_extra()
    ensures same { (owner other : List ℕ) (place elsewhere : CellPlace) → IsClientId owner → IsClientId other → IsPlace place → IsPlace elsewhere
        → extra_of 2 place owner ≡ extra_of 2 elsewhere other → (owner ≡ other) × (place ≡ elsewhere) }
    ensures apart { (owner other : List ℕ) (place elsewhere : CellPlace) → IsClientId other → extra_of 2 place owner ≡ extra_of 1 elsewhere other → ⊥ }
{}

/// A cell of version 2 that opens in two places has a seal that is the seal for two extras.
pub fn one_place<A: Aead>(_aead: &A)
    ensures { (kind : CellKind) (place elsewhere : CellPlace) (view : KeyView) (bytes plain other : List ℕ) → IsClientId view.who → IsPlace place → IsPlace elsewhere → (place ≡ elsewhere → ⊥)
        → version_of kind bytes ≡ Some 2
        → opened_cell (A.opened _aead.now) kind place view bytes ≡ (answers.Plain, plain) → opened_cell (A.opened _aead.now) kind elsewhere view bytes ≡ (answers.Plain, other)
        → SealsTwo (A.sealed _aead.now) (extra_of 2 place view.who) (extra_of 2 elsewhere view.who) }
{}
