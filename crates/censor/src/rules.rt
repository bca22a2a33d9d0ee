//! The rules of a censor's settings.
ghost use Rattle.std.specs.Prelude.{◌≡◌};
ghost use Rattle.censor.specs.Rules.{decides_always, is_too_large, has_needless_lists, is_no_text, is_unread, is_bad_table, handler_breaks, entry_breaks};

use crate::handler::{Entry, Handler, Word};
use json_rules::{Tested, is_name};

/// Whether a handler decides whatever the statement is.
pub(crate) fn decides_always(word: Option<Word>) -> bool
    ensures { result ≡ decides_always word }
{
    match word {
        Some(Word::AllowAll) | Some(Word::DenyAll) => true,
        Some(Word::Allow) | Some(Word::Deny) => false,
        None => false,
    }
}

fn is_too_large(handler: &Handler) -> bool
    ensures { result ≡ is_too_large handler.now }
{
    let entries = handler.entries.as_slice().len();
    handler.queries > 1024
        || handler.tables > 1024
        || entries
            .saturating_sub(handler.queries)
            .saturating_sub(handler.tables)
            > 1024
}

fn has_needless_lists(handler: &Handler) -> bool
    ensures { result ≡ has_needless_lists handler.now }
{
    decides_always(handler.word) && handler.has_lists
}

fn is_bad_table(entry: &Entry) -> bool
    ensures { result ≡ is_bad_table entry.now }
{
    match entry {
        Entry::Table(name) => !is_name(name.as_slice()),
        _ => false,
    }
}

fn handler_breaks(rule: u8, handler: &Handler) -> bool
    ensures { result ≡ handler_breaks rule handler.now }
{
    match rule {
        2 => is_too_large(handler),
        3 => !handler.is_well_typed,
        4 => has_needless_lists(handler),
        _ => false,
    }
}

fn entry_breaks(rule: u8, entry: &Entry) -> bool
    ensures { result ≡ entry_breaks rule entry.now }
{
    match rule {
        3 => matches!(entry, Entry::NoText),
        5 => matches!(entry, Entry::Unread),
        6 => is_bad_table(entry),
        _ => false,
    }
}

/// The handlers of a text, under all rules but the first.
#[derive(Drop)]
pub(crate) struct Settings<'a> {
    pub(crate) handlers: &'a [Handler],
}

impl Tested for Settings<'_> {
    ghost use Rattle.censor.specs.Searched as searched;
    ghost use Rattle.censor.specs.Rules.{breaks};
    ghost use Rattle.std.specs.Prelude.{length};

    ghost broken = { λ s rule place. breaks s.handlers.now rule place };

    ghost parts = { λ s. length s.handlers.now };

    ghost entries = { λ s i. searched.entry_count s.handlers.now i };

    ghost no_part = { λ s rule i past. searched.no_part s.handlers.now rule i past };

    ghost no_entries = { λ s rule i j past. searched.no_entries s.handlers.now rule i j past };

    ghost no_entry = { λ s rule i j within past. searched.no_entry s.handlers.now rule i j within past };

    fn part_count(&self) -> usize {
        self.handlers.len()
    }

    fn entry_count(&self, part: usize) -> usize {
        self.handlers[part].entries.as_slice().len()
    }

    fn text_breaks(&self, rule: u8) -> bool {
        rule == 2 && self.handlers.len() > 256
    }

    fn part_breaks(&self, rule: u8, part: usize) -> bool {
        handler_breaks(rule, &self.handlers[part])
    }

    fn entry_breaks(&self, rule: u8, part: usize, entry: usize) -> bool {
        entry_breaks(rule, &self.handlers[part].entries.as_slice()[entry])
    }
}
