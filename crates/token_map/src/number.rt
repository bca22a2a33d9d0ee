ghost use Rattle.std.specs.Prelude.{◌≡◌, ◌<◌, ◌+◌, ◌%◌};
ghost use Rattle.token_rule.specs.Rule.{number_count};

use acra_base::ValueKind;

/// The number behind this one among those of a kind's tokens, going round.
pub fn next_number(kind: ValueKind, number: u64) -> u64
    requires { number < number_count kind }
    ensures next { result ≡ (number + 1) % number_count kind }
    ensures within { result < number_count kind }
{
    let last = match kind {
        ValueKind::Int32 => 0xffff_ffff,
        ValueKind::Int64 | ValueKind::Str | ValueKind::Bytes => u64::MAX,
    };
    if number == last { 0 } else { number + 1 }
}
