ghost use Rattle.std.specs.Prelude.{◌≡◌, ◌≤◌, ◌↔◌, ℕ, List, map, string_bytes, true, false, Option, Some, None, is_some, IfOk, IfErr, MatchResult};
ghost use Rattle.rand_core.specs.Stream.{Stream};
ghost use Rattle.keys_core.specs.Words.{asked};
ghost use Rattle.ring_file.specs.Master.{master_of};
ghost use Rattle.keys_core.specs.Work.{makes_ring, made_or_read, run_with, run_of};
ghost use Rattle.keys_core.specs.Again.{changes, is_done, changed_ring, HasFile, MakesFile, KeepsRing};
ghost use Rattle.keys_core.specs.Runs.{CausedBy, NoneFell, StopCaused, FinishCaused, MasterAs, PreparedAs, IsKept, FinishedAs, WhereTold, IsRun};
ghost use Rattle.keys_core.specs.Untouched.{Untouched, StopUntouched, WorkUntouched, FinishUntouched, CountsStay, FileStayed, ReadStayed};
ghost use Rattle.keys_core.specs.Order.{MasterFirst};
ghost use Rattle.keys_core.specs.Draws.{ring_draws, draws_of, DrawnAs, PreparedDrew};
ghost use Rattle.acra_devices.specs.Causes.{HasCause};
ghost use Rattle.keys_core.specs.declared.words.Ask.{Ask};
ghost use Rattle.keys_core.specs.declared.status.KeyFile.TheVariants as files;
ghost use Rattle.keys_core.specs.declared.status.KeysStatus.TheVariants as ends;
ghost use Rattle.keys_core.specs.declared.work.Outcome.TheVariants as outcomes;

use crate::opening::{Shut, open_ring};
use crate::status::{KeyFile, KeysStatus, RingTrouble};
use crate::words::{Ask, ask_of};
use crate::work::{Outcome, Stop, Work, done_work};
use acra_base::Bytes;
use acra_devices::{Failed, Keeper, Random, Sink, Source, write_whole};
use ring_file::{FileRefusal, MasterFault, read_file, read_master};
use std::alloc::Global;

/// The most bytes of a ring's file.
const RING_LIMIT: usize = 1 << 24;

fn makes_ring(ask: &Ask) -> bool
    ensures { result ≡ makes_ring ask.now }
{
    match ask {
        Ask::Generate(_) => true,
        Ask::ListKeys => false,
        Ask::Destroy(_, _) => false,
        Ask::Check => false,
    }
}

/// The master key.
fn master_key<S: Source>(alloc: Global, master: &mut S) -> Result<[u8; 32], KeysStatus>
    ensures key { (m : List ℕ) → S.left master.old ≡ Some m → is_some (S.left master.new) ≡ true → MasterAs result (master_of m) }
    ensures cause { IfErr result (λ status. StopCaused status (S.read_faults master.old) (S.read_faults master.new) 0 0 0 0) }
    ensures later { S.read_faults master.old ≤ S.read_faults master.new }
    ensures stayed { ReadStayed result files.Master (S.read_faults master.old) (S.read_faults master.new) }
{
    match read_master(alloc, master) {
        Ok(key) => Ok(key),
        Err(MasterFault::NoKey) => Err(KeysStatus::BadMaster),
        Err(MasterFault::ReadFault) => Err(KeysStatus::ReadFault {
            file: KeyFile::Master,
        }),
        Err(MasterFault::NoMemory) => Err(KeysStatus::NoMemory),
    }
}

/// The work under a master key on the bytes of a ring's file.
fn worked<R: Random>(
    alloc: Global,
    ask: &Ask,
    key: &[u8; 32],
    bytes: &[u8],
    random: &mut R,
) -> Result<Work, KeysStatus>
    ensures run { (s t : Stream) → R.coming random.old ≡ Some s → R.coming random.new ≡ Some t → PreparedAs result (run_with ask.now key.now (made_or_read (makes_ring ask.now) key.now bytes.now s)) s t }
    ensures drawn { PreparedDrew result (ring_draws ask.now key.now bytes.now) (R.coming random.old) (R.coming random.new) }
    ensures untouched { IfErr result (λ status. WorkUntouched status random.old random.new) }
    ensures still { changes ask.now ≡ false → random.new ≡ random.old }
    ensures file { IfOk result (λ w. is_some w.file ≡ changed_ring ask.now w.outcome) }
    ensures kept { changes ask.now ≡ true → IfOk result (λ w. MakesFile key.now w) }
    ensures cause { IfErr result (λ status. StopCaused status 0 0 0 0 (R.draw_faults random.old) (R.draw_faults random.new)) }
    ensures later { R.draw_faults random.old ≤ R.draw_faults random.new }
    ensures stayed { MatchResult result (λ _. R.draw_faults random.new ≡ R.draw_faults random.old) (λ status. CountsStay status 0 0 (R.draw_faults random.old) (R.draw_faults random.new) 0 0) }
{
    match open_ring(alloc, makes_ring(ask), key, bytes, random) {
        Ok(opened) => {
            let mut ring = opened;
            match done_work(alloc, ask, key, &mut ring, random) {
                Ok(done) => Ok(done),
                Err(Stop::NoMemory) => Err(KeysStatus::NoMemory),
                Err(Stop::RandomFault) => Err(KeysStatus::RandomFault),
            }
        }
        Err(Shut::Trouble(why)) => Err(KeysStatus::RingRefused { why }),
        Err(Shut::NoMemory) => Err(KeysStatus::NoMemory),
        Err(Shut::RandomFault) => Err(KeysStatus::RandomFault),
    }
}

/// The work on the content of the files.
#[tactic(none)]
fn prepare<S: Source, T: Source, R: Random>(
    alloc: Global,
    ask: &Ask,
    master: &mut S,
    ring: &mut T,
    random: &mut R,
) -> Result<Work, KeysStatus>
    ensures run { (m r : List ℕ) (s t : Stream) → S.left master.old ≡ Some m → is_some (S.left master.new) ≡ true → T.left ring.old ≡ Some r → is_some (T.left ring.new) ≡ true
        → R.coming random.old ≡ Some s → R.coming random.new ≡ Some t → PreparedAs result (run_of ask.now m r s) s t }
    ensures drawn { (m r : List ℕ) → S.left master.old ≡ Some m → is_some (S.left master.new) ≡ true → T.left ring.old ≡ Some r → is_some (T.left ring.new) ≡ true
        → PreparedDrew result (draws_of ask.now m r) (R.coming random.old) (R.coming random.new) }
    ensures order { (m : List ℕ) → S.left master.old ≡ Some m → is_some (S.left master.new) ≡ true → MatchResult result (λ _. is_some (master_of m) ≡ true) (λ status. MasterFirst status (master_of m)) }
    ensures untouched { IfErr result (λ status. StopUntouched status ring.old ring.new random.old random.new) }
    ensures still { changes ask.now ≡ false → random.new ≡ random.old }
    ensures file { IfOk result (λ w. is_some w.file ≡ changed_ring ask.now w.outcome) }
    ensures kept { (m : List ℕ) → S.left master.old ≡ Some m → is_some (S.left master.new) ≡ true → changes ask.now ≡ true → IfOk result (λ w. (key : List ℕ) × ((master_of m ≡ Some key) × MakesFile key w)) }
    ensures cause { IfErr result (λ status. StopCaused status (S.read_faults master.old) (S.read_faults master.new) (T.read_faults ring.old) (T.read_faults ring.new) (R.draw_faults random.old) (R.draw_faults random.new)) }
    ensures later { (S.read_faults master.old ≤ S.read_faults master.new) × ((T.read_faults ring.old ≤ T.read_faults ring.new) × (R.draw_faults random.old ≤ R.draw_faults random.new)) }
    ensures master_stayed { ReadStayed result files.Master (S.read_faults master.old) (S.read_faults master.new) }
    ensures ring_stayed { ReadStayed result files.Ring (T.read_faults ring.old) (T.read_faults ring.new) }
    ensures stayed { MatchResult result (λ _. R.draw_faults random.new ≡ R.draw_faults random.old) (λ status. CountsStay status 0 0 (R.draw_faults random.old) (R.draw_faults random.new) 0 0) }
{
    match master_key(alloc, master) {
        Ok(key) => match read_file(alloc, ring, RING_LIMIT) {
            Ok(bytes) => worked(alloc, ask, &key, bytes.as_slice(), random),
            Err(FileRefusal::TooLong) => Err(KeysStatus::RingRefused {
                why: RingTrouble::TooLong,
            }),
            Err(FileRefusal::ReadFault) => Err(KeysStatus::ReadFault {
                file: KeyFile::Ring,
            }),
            Err(FileRefusal::NoMemory) => Err(KeysStatus::NoMemory),
        },
        Err(status) => Err(status),
    }
}

/// Keeps the changed ring, if there is one.
fn keep<K: Keeper>(file: &Option<Bytes>, keeper: &mut K) -> Result<(), Failed>
    ensures kept { (k k' : List (List ℕ)) → K.kept keeper.old ≡ Some k → K.kept keeper.new ≡ Some k' → MatchResult result (λ _. IsKept file.now k k') (λ _. k' ≡ k) }
    ensures still { is_some file.now ≡ false → keeper.new ≡ keeper.old }
    ensures piece { IfErr result (λ _. is_some file.now ≡ true) }
    ensures cause { HasCause (K.keeper_faults keeper.old) (K.keeper_faults keeper.new) result }
{
    match file {
        Some(file) => keeper.replace(file.as_slice()),
        None => Ok(()),
    }
}

/// Keeps the ring, and then prints.
fn finish<K: Keeper, W: Sink>(work: &Work, keeper: &mut K, output: &mut W) -> KeysStatus
    ensures done { (k k' : List (List ℕ)) (h h' : List ℕ) → K.kept keeper.old ≡ Some k → K.kept keeper.new ≡ Some k' → W.held output.old ≡ Some h → W.held output.new ≡ Some h'
        → FinishedAs result work.now k k' h h' }
    ensures kept { result ≡ ends.Done → (k k' : List (List ℕ)) → K.kept keeper.old ≡ Some k → K.kept keeper.new ≡ Some k' → (work.now.outcome ≡ outcomes.Done) × IsKept work.now.file k k' }
    ensures untouched { FinishUntouched result (is_done work.now.outcome) output.old output.new }
    ensures still { is_some work.now.file ≡ false → keeper.new ≡ keeper.old }
    ensures cause { FinishCaused result (K.keeper_faults keeper.old) (K.keeper_faults keeper.new) (W.write_faults output.old) (W.write_faults output.new) }
    ensures later { (K.keeper_faults keeper.old ≤ K.keeper_faults keeper.new) × (W.write_faults output.old ≤ W.write_faults output.new) }
    ensures stayed { CountsStay result (K.keeper_faults keeper.old) (K.keeper_faults keeper.new) 0 0 (W.write_faults output.old) (W.write_faults output.new) }
{
    match keep(&work.file, keeper) {
        Err(_) => KeysStatus::KeeperFault,
        Ok(()) => match write_whole(output, work.line.as_slice()) {
            Err(_) => KeysStatus::WriteFault,
            Ok(()) => match work.outcome {
                Outcome::Done => KeysStatus::Done,
                Outcome::Refused(why) => KeysStatus::Refused { why },
            },
        },
    }
}

/// All that the key tool does under its words, the folder and what is asked: `generate ID`, `list`,
/// `destroy ID KEY` or `check`.
#[tactic(none)]
pub fn keys_top<S: Source, T: Source, K: Keeper, R: Random, W: Sink>(
    alloc: Global,
    words: &[String],
    master: &mut S,
    ring: &mut T,
    keeper: &mut K,
    random: &mut R,
    output: &mut W,
) -> KeysStatus
    ensures usage { (result ≡ ends.Usage) ↔ (asked (map string_bytes words.now) ≡ None) }
    ensures exact { (ask : Ask) → asked (map string_bytes words.now) ≡ Some ask → WhereTold (S.left master.old) (S.left master.new) (T.left ring.old) (T.left ring.new)
        (K.kept keeper.old) (K.kept keeper.new) (R.coming random.old) (R.coming random.new) (W.held output.old) (W.held output.new)
        (λ m r. λ s. IsRun result (run_of ask m r s) s) }
    ensures untouched { Untouched result master.old master.new ring.old ring.new keeper.old keeper.new random.old random.new output.old output.new }
    ensures unchanged { (ask : Ask) → asked (map string_bytes words.now) ≡ Some ask → changes ask ≡ false → (keeper.new ≡ keeper.old) × (random.new ≡ random.old) }
    ensures order { (m : List ℕ) → S.left master.old ≡ Some m → is_some (S.left master.new) ≡ true → MasterFirst result (master_of m) }
    ensures drawn { (ask : Ask) (m r : List ℕ) → asked (map string_bytes words.now) ≡ Some ask → S.left master.old ≡ Some m → is_some (S.left master.new) ≡ true
        → T.left ring.old ≡ Some r → is_some (T.left ring.new) ≡ true → DrawnAs result (draws_of ask m r) (R.coming random.old) (R.coming random.new) }
    ensures reads_back { (ask : Ask) (m : List ℕ) (k k' : List (List ℕ)) → asked (map string_bytes words.now) ≡ Some ask → changes ask ≡ true → result ≡ ends.Done → S.left master.old ≡ Some m → is_some (S.left master.new) ≡ true
        → K.kept keeper.old ≡ Some k → K.kept keeper.new ≡ Some k' → KeepsRing m k' }
    ensures cause { CausedBy result (S.read_faults master.old) (S.read_faults master.new) (T.read_faults ring.old) (T.read_faults ring.new) (K.keeper_faults keeper.old) (K.keeper_faults keeper.new)
        (R.draw_faults random.old) (R.draw_faults random.new) (W.write_faults output.old) (W.write_faults output.new) }
    ensures later { NoneFell (S.read_faults master.old) (S.read_faults master.new) (T.read_faults ring.old) (T.read_faults ring.new) (K.keeper_faults keeper.old) (K.keeper_faults keeper.new)
        (R.draw_faults random.old) (R.draw_faults random.new) (W.write_faults output.old) (W.write_faults output.new) }
    ensures stayed { CountsStay result (K.keeper_faults keeper.old) (K.keeper_faults keeper.new) (R.draw_faults random.old) (R.draw_faults random.new) (W.write_faults output.old) (W.write_faults output.new) }
    ensures master_stayed { FileStayed result files.Master (S.read_faults master.old) (S.read_faults master.new) }
    ensures ring_stayed { FileStayed result files.Ring (T.read_faults ring.old) (T.read_faults ring.new) }
{
    match ask_of(words) {
        None => KeysStatus::Usage,
        Some(ask) => match prepare(alloc, &ask, master, ring, random) {
            Ok(work) => finish(&work, keeper, output),
            Err(status) => status,
        },
    }
}
