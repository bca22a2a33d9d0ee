ghost use Rattle.std.specs.Prelude.{◌≡◌, ◌≤◌, [], ◌∷◌, ◌++◌, take, drop, codes, true, false, Some, None, is_some, IfOk, IfErr};
ghost use Rattle.acra_devices.specs.Causes.{Rose};
ghost use Rattle.keys_core.specs.Work.{refused, changed_by, shown, new_keys, generated, destroyed_by, work_of};
ghost use Rattle.keystore.specs.Answers.{retire_refusal};
ghost use Rattle.keystore.specs.Kept.{IsKept};
ghost use Rattle.ring_file.specs.Form.{IsFileRing};
ghost use Rattle.keys_core.specs.Again.{changes, is_done, changed_ring, HasFile, MakesFile};
ghost use Rattle.keys_core.specs.Told.{Drew};
ghost use Rattle.keys_core.specs.Draws.{nonce_unless, work_draws, WorkDrew};
ghost use Rattle.keys_core.specs.Untouched.{WorkCount};
ghost use Rattle.keystore.specs.Answers.{add_refusal};
ghost use Rattle.keys_core.specs.declared.work.Stop.TheVariants as stop;
ghost use Rattle.keys_core.specs.declared.work.Outcome.TheVariants as outcomes;

use crate::lines::{count_line, key_line, key_lines, refused_line};
use crate::status::Refusal;
use crate::words::Ask;
use acra_base::{Bytes, ClientId, NoMemory};
use acra_crypto::Aes256Gcm;
use acra_devices::Random;
use keystore::{AddRefusal, NewKeys, RetireRefusal, Ring};
use ring_file::write_ring;
use std::alloc::Global;

/// How the work ends.
#[derive(Clone, Copy, Debug, PartialEq, Eq)]
pub enum Outcome {
    Done,
    Refused(Refusal),
}

/// What was done: what is to be printed, and the ring's new file where the ring changed.
#[derive(Drop)]
pub struct Work {
    pub outcome: Outcome,
    pub line: Bytes,
    pub file: Option<Bytes>,
}

/// Why the work was not done.
#[derive(Clone, Copy, Debug, PartialEq, Eq)]
pub enum Stop {
    NoMemory,
    RandomFault,
}

impl From<NoMemory> for Stop {
    ghost from_gives = { λ _ e. e ≡ stop.NoMemory };

    fn from(_: NoMemory) -> Stop {
        Stop::NoMemory
    }
}

fn refused(alloc: Global, why: Refusal) -> Result<Work, Stop>
    ensures done { IfOk result (λ w. w ≡ refused why) }
    ensures stopped { IfErr result (λ e. e ≡ stop.NoMemory) }
{
    match refused_line(alloc, why) {
        Ok(line) => Ok(Work {
            outcome: Outcome::Refused(why),
            line: Bytes::from_vec(line),
            file: None,
        }),
        Err(_) => Err(Stop::NoMemory),
    }
}

fn shown(line: Result<Vec<u8>, NoMemory>) -> Result<Work, Stop>
    ensures done { IfOk line (λ text. IfOk result (λ w. w ≡ shown text.items)) }
    ensures short { IfErr line (λ _. IfOk result (λ w. ⊥)) }
    ensures file { IfOk result (λ w. w.file ≡ None) }
    ensures stopped { IfErr result (λ e. e ≡ stop.NoMemory) }
{
    match line {
        Ok(line) => Ok(Work {
            outcome: Outcome::Done,
            line: Bytes::from_vec(line),
            file: None,
        }),
        Err(_) => Err(Stop::NoMemory),
    }
}

/// The file of a changed ring, under a nonce that is drawn.
fn changed<R: Random>(
    alloc: Global,
    line: Vec<u8>,
    master: &[u8; 32],
    ring: &Ring,
    random: &mut R,
) -> Result<Work, Stop>
    ensures done { IfOk result (λ w. Drew (R.coming random.old) (R.coming random.new)
        (λ s t. (w, t) ≡ changed_by line.items master.now ring.now s)) }
    ensures drawn { WorkDrew result (12 ∷ []) (R.coming random.old) (R.coming random.new) }
    ensures file { IfOk result (λ w. (w.outcome ≡ outcomes.Done) × (is_some w.file ≡ true)) }
    ensures kept { (IsKept ring.now → IsFileRing ring.now) → IfOk result (λ w. HasFile master.now w) }
    ensures later { R.draw_faults random.old ≤ R.draw_faults random.new }
    ensures stayed { WorkCount result (R.draw_faults random.old) (R.draw_faults random.new) }
    ensures cause { IfErr result (λ why. why ≡ stop.RandomFault → Rose (R.draw_faults random.old) (R.draw_faults random.new)) }
{
    let mut nonce = [0; 12];
    if random.draw(&mut nonce).is_err() {
        return Err(Stop::RandomFault);
    }
    let mut file = Vec::new(alloc);
    match write_ring(alloc, &Aes256Gcm, ring, master, &nonce, &mut file) {
        Ok(()) => Ok(Work {
            outcome: Outcome::Done,
            line: Bytes::from_vec(line),
            file: Some(Bytes::from_vec(file)),
        }),
        Err(_) => Err(Stop::NoMemory),
    }
}

/// A key, and the key of blind indexes behind it.
fn new_keys(drawn: &[u8; 64]) -> NewKeys
    ensures { result ≡ new_keys drawn.now }
{
    let mut key = [0; 32];
    key.copy_from_slice(&drawn[..32]);
    let mut search = [0; 32];
    search.copy_from_slice(&drawn[32..64]);
    NewKeys { key, search }
}

fn generate<R: Random>(
    alloc: Global,
    who: &ClientId,
    master: &[u8; 32],
    ring: &mut Ring,
    random: &mut R,
) -> Result<Work, Stop>
    ensures done { IfOk result (λ w. Drew (R.coming random.old) (R.coming random.new) (λ s t. (w, t) ≡ generated who.now master.now ring.old s)) }
    ensures drawn { WorkDrew result (64 ∷ nonce_unless (add_refusal ring.old who.now)) (R.coming random.old) (R.coming random.new) }
    ensures file { IfOk result (λ w. is_some w.file ≡ is_done w.outcome) }
    ensures kept { IsFileRing ring.old → IfOk result (λ w. MakesFile master.now w) }
    ensures later { R.draw_faults random.old ≤ R.draw_faults random.new }
    ensures stayed { WorkCount result (R.draw_faults random.old) (R.draw_faults random.new) }
    ensures cause { IfErr result (λ why. why ≡ stop.RandomFault → Rose (R.draw_faults random.old) (R.draw_faults random.new)) }
{
    let mut drawn = [0; 64];
    if random.draw(&mut drawn).is_err() {
        return Err(Stop::RandomFault);
    }
    who.is_spelled();
    match ring.add_client(who, new_keys(&drawn)) {
        Ok(id) => match key_line(alloc, &[], who, id) {
            Ok(line) => changed(alloc, line, master, ring, random),
            Err(_) => Err(Stop::NoMemory),
        },
        Err(AddRefusal::Exists) => refused(alloc, Refusal::Exists),
        Err(AddRefusal::TooMany) => refused(alloc, Refusal::TooMany),
        Err(AddRefusal::NoMemory) => Err(Stop::NoMemory),
    }
}

fn destroy<R: Random>(
    alloc: Global,
    who: &ClientId,
    id: u64,
    master: &[u8; 32],
    ring: &mut Ring,
    random: &mut R,
) -> Result<Work, Stop>
    ensures done { IfOk result (λ w. Drew (R.coming random.old) (R.coming random.new) (λ s t. (w, t) ≡ destroyed_by (retire_refusal ring.old who.now id) who.now id master.now ring.old s)) }
    ensures drawn { WorkDrew result (nonce_unless (retire_refusal ring.old who.now id)) (R.coming random.old) (R.coming random.new) }
    ensures file { IfOk result (λ w. is_some w.file ≡ is_done w.outcome) }
    ensures kept { IsFileRing ring.old → IfOk result (λ w. MakesFile master.now w) }
    ensures later { R.draw_faults random.old ≤ R.draw_faults random.new }
    ensures stayed { WorkCount result (R.draw_faults random.old) (R.draw_faults random.new) }
    ensures cause { IfErr result (λ why. why ≡ stop.RandomFault → Rose (R.draw_faults random.old) (R.draw_faults random.new)) }
{
    match ring.retire(who, id) {
        Ok(()) => match key_line(alloc, b"destroyed ", who, id) {
            Ok(line) => changed(alloc, line, master, ring, random),
            Err(_) => Err(Stop::NoMemory),
        },
        Err(RetireRefusal::NoSuchKey) => refused(alloc, Refusal::NoSuchKey),
        // A ring that was read has no ticket out, so none is leased.
        Err(RetireRefusal::NotSwept) => refused(alloc, Refusal::NotSwept),
        Err(RetireRefusal::Leased { .. }) => refused(alloc, Refusal::NotSwept),
    }
}

/// Does what is asked of a ring.
pub fn done_work<R: Random>(
    alloc: Global,
    ask: &Ask,
    master: &[u8; 32],
    ring: &mut Ring,
    random: &mut R,
) -> Result<Work, Stop>
    ensures done { IfOk result (λ w. Drew (R.coming random.old) (R.coming random.new) (λ s t. (w, t) ≡ work_of ask.now master.now ring.old s)) }
    ensures drawn { WorkDrew result (work_draws ask.now ring.old) (R.coming random.old) (R.coming random.new) }
    ensures file { IfOk result (λ w. is_some w.file ≡ changed_ring ask.now w.outcome) }
    ensures still { changes ask.now ≡ false → random.new ≡ random.old }
    ensures kept { IsFileRing ring.old → changes ask.now ≡ true → IfOk result (λ w. MakesFile master.now w) }
    ensures later { R.draw_faults random.old ≤ R.draw_faults random.new }
    ensures stayed { WorkCount result (R.draw_faults random.old) (R.draw_faults random.new) }
    ensures cause { IfErr result (λ why. why ≡ stop.RandomFault → Rose (R.draw_faults random.old) (R.draw_faults random.new)) }
{
    match ask {
        Ask::Generate(who) => generate(alloc, who, master, ring, random),
        Ask::ListKeys => shown(key_lines(alloc, ring.clients())),
        Ask::Destroy(who, id) => destroy(alloc, who, *id, master, ring, random),
        Ask::Check => shown(count_line(alloc, ring.clients())),
    }
}
