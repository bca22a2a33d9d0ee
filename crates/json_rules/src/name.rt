//! Names of tables and columns in settings.
ghost use Rattle.std.specs.Prelude.{◌≡◌, ◌==◌, not};
ghost use Rattle.std.specs.List.{list_all};
ghost use Rattle.acra_base.specs.Names.{is_name};

fn has_no_zero(text: &[u8]) -> bool
    ensures { result ≡ list_all (λ b. not (b == 0)) text.now }
{
    text.iter().all(|byte| *byte != 0)
}

/// Whether a text is a name: 1 to 63 bytes without a zero byte.
pub fn is_name(text: &[u8]) -> bool
    ensures { result ≡ is_name text.now }
{
    1 <= text.len() && text.len() <= 63 && has_no_zero(text)
}
