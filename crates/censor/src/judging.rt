//! Judging statements.
ghost use Rattle.std.specs.Prelude.{◌≡◌, ◌≤◌, ◌<◌, ◌^◌, ℕ, List, [], true, false, length, MatchOption};
ghost use Rattle.std.specs.List.{HoldsAt};
ghost use Rattle.json_rules.specs.Past.{at_index};
ghost use Rattle.sql_patterns.specs.Fingerprints.{fingerprint};
ghost use Rattle.censor.specs.Sizes.{AreFew};
ghost use Rattle.censor.specs.Verdicts as verdicts;
ghost use Rattle.censor.specs.Verdicts.{IsFirstMatch, Decides, DecidesNot, IsVerdict, NamesPart, Stands, PartStands};

use crate::censor::Censor;
use crate::handler::{Entry, Handler, Word};
use crate::rules::decides_always;
use crate::verdict::{Part, Verdict};
use acra_base::Sequence;
use sql_patterns::fingerprint;
use sql_tree::Statement;
use std::alloc::Global;

fn is_empty(statement: &Statement) -> bool
    ensures { result ≡ verdicts.is_empty statement.now }
{
    matches!(statement, Statement::Empty)
}

/// Whether a statement is on a table.
fn is_on(name: &[u8], statement: &Statement) -> bool
    ensures { result ≡ verdicts.is_on name.now statement.now }
{
    match statement {
        Statement::Empty => false,
        Statement::Set { .. } => false,
        Statement::Select { table, .. } => name == table.as_slice(),
        Statement::Insert { table, .. } => name == table.as_slice(),
        Statement::Update { table, .. } => name == table.as_slice(),
        Statement::Delete { table, .. } => name == table.as_slice(),
    }
}

fn entry_matches(statement: &Statement, print: u64, entry: &Entry) -> bool
    requires { print ≡ fingerprint statement.now }
    ensures { result ≡ verdicts.entry_matches statement.now entry.now }
{
    match entry {
        Entry::NoText => false,
        Entry::Unread => false,
        Entry::Query(query) => query.equals(statement, print),
        Entry::Table(name) => is_on(name.as_slice(), statement),
        Entry::Pattern(pattern) => pattern.matches(statement),
    }
}

/// The first entry that matches.
fn first_match(statement: &Statement, print: u64, entries: &[Entry]) -> Option<usize>
    requires { print ≡ fingerprint statement.now }
    ensures { MatchOption result ((i : ℕ) → at_index (verdicts.entry_matches statement.now) entries.now i ≡ false) (IsFirstMatch statement.now entries.now) }
{
    'each: for index in 0..entries.len() {
        if entry_matches(statement, print, &entries[index]) {
            return Some(index);
        }
    }
    None
}

fn decides_by_entries(word: Option<Word>) -> bool
    ensures { result ≡ verdicts.decides_by_entries word }
{
    match word {
        Some(Word::Allow) | Some(Word::Deny) => true,
        Some(Word::AllowAll) | Some(Word::DenyAll) => false,
        None => false,
    }
}

fn denies(word: Option<Word>) -> bool
    ensures { result ≡ verdicts.denies word }
{
    match word {
        Some(Word::Deny) | Some(Word::DenyAll) => true,
        Some(Word::Allow) | Some(Word::AllowAll) => false,
        None => false,
    }
}

/// The entry at an index, by its list.
fn part_at(handler: &Handler, index: usize) -> Part
    requires few { AreFew handler.now }
    requires inside { index < length handler.now.entries }
    ensures { result ≡ verdicts.part_at handler.now index }
{
    if index < handler.queries {
        Part::Query(index as u16)
    } else if index < handler.queries + handler.tables {
        Part::Table((index - handler.queries) as u16)
    } else {
        Part::Pattern((index - handler.queries - handler.tables) as u16)
    }
}

/// What of a handler decides.
fn deciding(statement: &Statement, print: u64, handler: &Handler) -> Option<Part>
    requires print { print ≡ fingerprint statement.now }
    requires few { AreFew handler.now }
    ensures { MatchOption result (DecidesNot statement.now handler.now) (Decides statement.now handler.now) }
{
    if decides_always(handler.word) {
        return Some(Part::All);
    }
    if !decides_by_entries(handler.word) {
        return None;
    }
    match first_match(statement, print, handler.entries.as_slice()) {
        Some(index) => Some(part_at(handler, index)),
        None => None,
    }
}

fn verdict_of(denies: bool, handler: usize, part: Part) -> Verdict
    requires { handler < 2 ^ 16 }
    ensures { result ≡ verdicts.verdict_of denies handler part }
{
    if denies {
        Verdict::Denied {
            handler: handler as u16,
            part,
        }
    } else {
        Verdict::Allowed
    }
}

impl Censor {
    /// A censor without handlers, which allows every statement.
    pub fn none(alloc: Global) -> Censor
        ensures { result.handlers ≡ [] }
    {
        Censor {
            handlers: Sequence::new(alloc),
        }
    }

    /// What becomes of a statement: the first handler that decides allows or denies it, and where none does it is allowed, as
    /// the empty statement always is. It takes no memory.
    pub fn judge(&self, statement: &Statement) -> Verdict
        ensures verdict { IsVerdict statement.now self.now.handlers result }
        ensures stands { NamesPart self.now.handlers result }
    {
        if is_empty(statement) {
            return Verdict::Allowed;
        }
        let handlers = self.handlers.as_slice();
        let print = fingerprint(statement);
        'each: for index in 0..handlers.len() {
            let handler = &handlers[index];
            if let Some(part) = deciding(statement, print, handler) {
                return verdict_of(denies(handler.word), index, part);
            }
        }
        Verdict::Allowed
    }

    /// The number that the refusal by a handler's part prints: entries count from 1 through queries, tables and patterns.
    pub fn rule_number(&self, handler: u16, part: Part) -> u16
        requires { Stands self.now.handlers handler part }
        ensures { HoldsAt (λ h. result ≡ verdicts.part_number h part) self.now.handlers handler }
    {
        let handler = &self.handlers.as_slice()[handler as usize];
        match part {
            Part::Query(index) => index + 1,
            Part::Table(index) => handler.queries as u16 + index + 1,
            Part::Pattern(index) => handler.queries as u16 + handler.tables as u16 + index + 1,
            Part::All => 0,
        }
    }
}
