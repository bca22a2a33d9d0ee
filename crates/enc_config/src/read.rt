//! Reading the text of a policy.
ghost use Rattle.std.specs.Prelude.{◌≡◌, IfOk, IfErr};
ghost use Rattle.json_rules.specs.Order.{Fits16};
ghost use Rattle.enc_config.specs.Reads.{IsPolicy, IsFault, refusal_at};

use crate::make::policy_of;
use crate::places::first_broken;
use crate::policy::Policy;
use crate::texts::read_texts;
use acra_base::NoMemory;
use json_rules::{NO_PLACE, Place};
use std::alloc::Global;
use std::error::Error;
use std::fmt;

/// The least rule that a text breaks, 1 to 14, at its first place: the schema and the entry are
/// indices from 0, `NO_PLACE` where the rule doesn't concern one.
#[derive(Clone, Copy, Debug, PartialEq, Eq)]
pub struct ConfigRefusal {
    pub schema: u16,
    pub entry: u16,
    pub rule: u8,
}

impl fmt::Display for ConfigRefusal {
    fn fmt<W: fmt::Write>(&self, f: &mut fmt::Formatter<W>) -> fmt::Result {
        write!(f, "rule {}", self.rule)?;
        if self.schema != NO_PLACE {
            write!(f, " at schema {}", self.schema)?;
        }
        if self.entry != NO_PLACE {
            write!(f, ", entry {}", self.entry)?;
        }
        Ok(())
    }
}

impl Error for ConfigRefusal {}

/// Why a text gives no policy.
#[derive(Clone, Copy, Debug, PartialEq, Eq, thiserror::Error)]
pub enum PolicyFault {
    /// The text breaks a rule.
    #[error("policy refused: {0}")]
    Refused(ConfigRefusal),
    /// There was no memory for the policy, or for what the text says.
    #[error("out of memory")]
    NoMemory,
}

impl From<NoMemory> for PolicyFault {
    ghost use Rattle.enc_config.specs.declared.read.PolicyFault.TheVariants as faults;
    ghost use Rattle.std.specs.Prelude.{◌≡◌};

    ghost from_gives = { λ _ e. e ≡ faults.NoMemory };

    fn from(_fault: NoMemory) -> PolicyFault {
        PolicyFault::NoMemory
    }
}

fn refusal(rule: u8, place: Place) -> ConfigRefusal
    requires { Fits16 place }
    ensures { result ≡ refusal_at rule place }
{
    ConfigRefusal {
        schema: place.part_number(),
        entry: place.entry_number(),
        rule,
    }
}

/// Reads the text of a policy, JSON (RFC 8259) in UTF-8: its policy, or the least rule that is
/// broken, at its first place. `docs/POLICY.md` has the members and the rules.
pub fn read_policy(alloc: Global, text: &[u8]) -> Result<Policy, PolicyFault>
    ensures policy { IfOk result (λ p. IsPolicy text.now p) }
    ensures refused { IfErr result (λ fault. IsFault text.now fault) }
{
    let Some(schemas) = read_texts(alloc, text)? else {
        return Err(PolicyFault::Refused(refusal(1, Place::Text)));
    };
    let schemas = schemas.as_slice();
    let found = first_broken(alloc, schemas)?;
    match found {
        Some(broken) => Err(PolicyFault::Refused(refusal(broken.rule, broken.place))),
        None => Ok(policy_of(alloc, schemas)?),
    }
}
