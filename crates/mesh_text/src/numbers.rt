ghost use Rattle.std.specs.Prelude.{◌≡◌, IsTrue};
ghost use Rattle.mesh_text.specs.Numbers as number;

use std::str;

fn are_digits(text: &[u8]) -> bool
    ensures { result ≡ number.all_digits text.now }
{
    text.iter().all(|c| c.is_ascii_digit())
}

fn is_decimal(text: &[u8]) -> bool
    ensures { result ≡ number.is_decimal text.now }
{
    match text {
        [] => false,
        [digit] => digit.is_ascii_digit(),
        [first, ..] => *first != b'0' && are_digits(text),
    }
}

/// The number that digits write, where it has 64 bits.
#[tactic(auto, using(crate::proofs::Decimals::parsed, crate::proofs::Decimals::utf8_decimal))]
fn value(digits: &[u8]) -> Option<u64>
    requires { IsTrue (number.is_decimal digits.now) }
    ensures { result ≡ number.number_of digits.now }
{
    match str::from_utf8(digits) {
        Ok(digits) => digits.parse().ok(),
        Err(_) => None,
    }
}

/// The number of 64 bits that the text writes in canonical decimal: `0`, or digits without a
/// leading zero.
///
/// `None` exactly where the text is none; it takes no memory.
#[tactic(auto, unfolding(crate::specs::Numbers::number_of))]
pub fn read_number(text: &[u8]) -> Option<u64>
    ensures { result ≡ number.number_of text.now }
{
    if !is_decimal(text) {
        return None;
    }
    value(text)
}
