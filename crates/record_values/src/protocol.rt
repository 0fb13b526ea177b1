ghost use Rattle.std.specs.Prelude.{◌≡◌};
ghost use Rattle.std.specs.Char.{is_ascii_alphanumeric};
ghost use Rattle.std.specs.List.{list_all};
ghost use Rattle.record_values.specs.Backends.{is_protocol};

fn is_alphanumeric(name: &[u8]) -> bool
    ensures { result ≡ list_all is_ascii_alphanumeric name.now }
{
    name.iter().all(|b| b.is_ascii_alphanumeric())
}

/// 1 to 16 ASCII letters or digits.
pub fn is_protocol(name: &[u8]) -> bool
    ensures { result ≡ is_protocol name.now }
{
    1 <= name.len() && name.len() <= 16 && is_alphanumeric(name)
}
