//! Reading the text of settings.
ghost use Rattle.std.specs.Prelude.{◌≡◌, IfOk, IfErr};
ghost use Rattle.json_rules.specs.Order.{Fits16};
ghost use Rattle.censor.specs.Reads.{IsCensor, IsFault, refusal_at};

use crate::censor::Censor;
use crate::rules::Settings;
use crate::settings::read_handlers;
use acra_base::NoMemory;
use json_rules::{NO_PLACE, Place, first_broken};
use std::alloc::Global;
use std::error::Error;
use std::fmt;

// The numbers of the rules that are tested once the handlers stand.
const FIRST_RULE: u8 = 2;

const PAST_RULES: u8 = 7;

/// The least rule that a text breaks, 1 to 6, at its first place: the handler and the entry are indices from 0, `NO_PLACE`
/// where the rule doesn't concern one. The entry's index runs through queries, then tables, then patterns.
#[derive(Clone, Copy, Debug, PartialEq, Eq)]
pub struct CensorRefusal {
    /// The handler.
    pub handler: u16,
    /// The entry.
    pub entry: u16,
    /// The rule.
    pub rule: u8,
}

impl fmt::Display for CensorRefusal {
    fn fmt<W: fmt::Write>(&self, f: &mut fmt::Formatter<W>) -> fmt::Result {
        write!(f, "rule {}", self.rule)?;
        if self.handler != NO_PLACE {
            write!(f, " at handler {}", self.handler)?;
        }
        if self.entry != NO_PLACE {
            write!(f, ", entry {}", self.entry)?;
        }
        Ok(())
    }
}

impl Error for CensorRefusal {}

/// Why a text gives no censor.
#[derive(Clone, Copy, Debug, PartialEq, Eq, thiserror::Error)]
pub enum CensorFault {
    /// The text breaks a rule.
    #[error("censor settings refused: {0}")]
    Refused(CensorRefusal),
    /// There was no memory for the censor, or for what the text says.
    #[error("out of memory")]
    NoMemory,
}

impl From<NoMemory> for CensorFault {
    ghost use Rattle.censor.specs.declared.read.CensorFault.TheVariants as faults;
    ghost use Rattle.std.specs.Prelude.{◌≡◌};

    ghost from_gives = { λ _ e. e ≡ faults.NoMemory };

    fn from(_fault: NoMemory) -> CensorFault {
        CensorFault::NoMemory
    }
}

fn refusal(rule: u8, place: Place) -> CensorFault
    requires { Fits16 place }
    ensures { result ≡ CensorFault.Refused (refusal_at rule place) }
{
    CensorFault::Refused(CensorRefusal {
        handler: place.part_number(),
        entry: place.entry_number(),
        rule,
    })
}

/// Reads the text of a censor's settings, JSON (RFC 8259) in UTF-8: its censor, or the least rule that is broken, at its first
/// place. `docs/CENSOR.md` has the members and the rules.
pub fn read_censor(alloc: Global, text: &[u8]) -> Result<Censor, CensorFault>
    ensures censor { IfOk result (λ c. IsCensor text.now c.handlers) }
    ensures refused { IfErr result (λ fault. IsFault text.now fault) }
{
    let Some(handlers) = read_handlers(alloc, text)? else {
        return Err(refusal(1, Place::Text));
    };
    let settings = Settings {
        handlers: handlers.as_slice(),
    };
    match first_broken(&settings, FIRST_RULE, PAST_RULES) {
        Some(broken) => Err(refusal(broken.rule, broken.place)),
        None => Ok(Censor { handlers }),
    }
}
