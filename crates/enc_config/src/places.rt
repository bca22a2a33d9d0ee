//! Where a rule is broken, and the search for the refusal that comes first.
ghost use Rattle.std.specs.Prelude.{◌≡◌, ℕ, false, MatchOption, IfOk};
ghost use Rattle.json_rules.specs.declared.place.Place.{Place};
ghost use Rattle.json_rules.specs.Places.{IsFirst, IsLeast, IsUnbroken};
ghost use Rattle.enc_config.specs.Rules.{breaks};

use crate::clients::first_client;
use crate::rules::{entry_breaks, schema_breaks};
use crate::texts::SchemaText;
use acra_base::NoMemory;
use json_rules::{Broken, Place, Tested, first_place};
use std::alloc::Global;

/// The schemas of a text, under all rules but the seventh.
#[derive(Drop)]
struct Schemas<'a> {
    schemas: &'a [SchemaText],
}

impl Tested for Schemas<'_> {
    ghost use Rattle.enc_config.specs.Searched as searched;
    ghost use Rattle.enc_config.specs.Rules.{tests};
    ghost use Rattle.std.specs.Prelude.{length};

    ghost broken = { λ s rule place. tests s.schemas.now rule place };

    ghost parts = { λ s. length s.schemas.now };

    ghost entries = { λ s i. searched.entry_count s.schemas.now i };

    ghost no_part = { λ s rule i past. searched.no_part s.schemas.now rule i past };

    ghost no_entries = { λ s rule i j past. searched.no_entries s.schemas.now rule i j past };

    ghost no_entry = { λ s rule i j within past. searched.no_entry s.schemas.now rule i j within past };

    fn part_count(&self) -> usize {
        self.schemas.len()
    }

    fn entry_count(&self, part: usize) -> usize {
        self.schemas[part].entries.as_slice().len()
    }

    fn text_breaks(&self, rule: u8) -> bool {
        rule == 2 && self.schemas.len() > 256
    }

    fn part_breaks(&self, rule: u8, part: usize) -> bool {
        schema_breaks(rule, &self.schemas[..part], &self.schemas[part])
    }

    fn entry_breaks(&self, rule: u8, part: usize, entry: usize) -> bool {
        let schema = &self.schemas[part];
        let entries = schema.entries.as_slice();
        entry_breaks(rule, schema, &entries[..entry], &entries[entry])
    }
}

/// The first place that breaks a rule, the seventh too.
fn first_of_rule(alloc: Global, rule: u8, schemas: &[SchemaText]) -> Result<Option<Place>, NoMemory>
    ensures { IfOk result (λ found. MatchOption found ((q : Place) → breaks schemas.now rule q ≡ false) (IsFirst (breaks schemas.now rule))) }
{
    if rule == 7 {
        first_client(alloc, schemas)
    } else {
        Ok(first_place(&Schemas { schemas }, rule))
    }
}

/// The least rule that the schemas break, at its first place.
pub(crate) fn first_broken(
    alloc: Global,
    schemas: &[SchemaText],
) -> Result<Option<Broken>, NoMemory>
    ensures { IfOk result (λ found. MatchOption found (IsUnbroken (breaks schemas.now)) (λ b. IsLeast (breaks schemas.now) b.rule b.place)) }
{
    'each: for rule in 2..15 {
        let found = first_of_rule(alloc, rule, schemas)?;
        if let Some(place) = found {
            return Ok(Some(Broken { rule, place }));
        }
    }
    Ok(None)
}
