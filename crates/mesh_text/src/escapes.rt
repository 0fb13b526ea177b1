ghost use Rattle.std.specs.Prelude.{◌≡◌, ◌++◌, ◌+◌, ◌*◌, ◌<◌, ◌&&◌, IfOk, OnOk, IfSome, IfNone, MatchOption, Some, None, length, true, if◌then◌else◌};
ghost use Rattle.std.specs.Fmt.{digit_glyph};
ghost use Rattle.std.specs.Char.{is_digit, digit_value};
ghost use Rattle.mesh_text.specs.Escapes.{escaped, escaped_byte, unescaped, unescaped_bytes, after};

use mesh_base::Memory;
use std::alloc::Global;

fn digit_glyph(digit: u8) -> u8
    requires { digit < 16 }
    ensures { result ≡ digit_glyph true digit }
{
    if digit < 10 {
        b'0' + digit
    } else {
        b'A' + (digit - 10)
    }
}

fn push_escaped(word: &mut Vec<u8>, byte: u8) -> Result<(), Memory>
    ensures { OnOk result (word.new.items ≡ word.old.items ++ escaped_byte byte) }
{
    if byte >= 0x21 && byte <= 0x7E && byte != b'%' {
        word.push(byte)?;
    } else {
        word.push(b'%')?;
        word.push(digit_glyph(byte / 16))?;
        word.push(digit_glyph(byte % 16))?;
    }
    Ok(())
}

/// The bytes as one word of visible ASCII characters.
///
/// Each visible ASCII character but `%` is written as itself, every other byte as `%` and two
/// upper-case hexadecimal digits. No bytes at all are `-`, and the bytes `-` are `%2D`.
#[tactic(auto, unfolding(crate::specs::Escapes::escaped))]
pub fn escape(alloc: Global, bytes: &[u8]) -> Result<Vec<u8>, Memory>
    ensures { IfOk result (λ v. v.items ≡ escaped bytes.now) }
{
    if bytes.is_empty() {
        return Ok(Vec::from_slice(alloc, b"-")?);
    }
    if bytes == b"-".as_slice() {
        return Ok(Vec::from_slice(alloc, b"%2D")?);
    }
    let mut word = Vec::with_capacity(alloc, bytes.len())?;
    for byte in bytes {
        push_escaped(&mut word, *byte)?;
    }
    Ok(word)
}

/// The byte of two hexadecimal digits in either case.
fn hex_byte(high: u8, low: u8) -> Option<u8>
    ensures { result ≡ (if is_digit high 16 && is_digit low 16 then Some (16 * digit_value high + digit_value low) else None) }
{
    let high = char::from(high).to_digit(16)?;
    let low = char::from(low).to_digit(16)?;
    Some((16 * high + low) as u8)
}

/// The first byte that a word stands for, and the word behind it.
fn next_byte(word: &[u8]) -> Option<(u8, &[u8])>
    requires { 0 < length word.now }
    ensures byte { MatchOption result (unescaped_bytes word.now ≡ None) (λ p. unescaped_bytes word.now ≡ after p.0 (unescaped_bytes p.1.now)) }
    ensures shorter { IfSome result (λ p. length p.1.now < length word.now) }
{
    if word[0] != b'%' {
        return Some((word[0], &word[1..]));
    }
    if word.len() < 3 {
        return None;
    }
    let byte = hex_byte(word[1], word[2])?;
    Some((byte, &word[3..]))
}

/// The bytes of a word that isn't `-`.
#[tactic(auto, using(crate::proofs::EscapedWords::behind_more))]
fn unescape_bytes(alloc: Global, word: &[u8]) -> Result<Option<Vec<u8>>, Memory>
    ensures { IfOk result (λ r. MatchOption r (unescaped_bytes word.now ≡ None) (λ v. unescaped_bytes word.now ≡ Some v.items)) }
{
    let mut bytes = Vec::with_capacity(alloc, word.len())?;
    let mut rest = word;
    while !rest.is_empty() {
        let Some((byte, more)) = next_byte(rest) else {
            return Ok(None);
        };
        bytes.push(byte)?;
        rest = more;
    }
    Ok(Some(bytes))
}

/// The bytes that a word stands for, `-` being the word for none.
///
/// `None` exactly where the word is empty or a `%` isn't followed by two hexadecimal digits, which
/// may be of either case.
#[tactic(auto, unfolding(crate::specs::Escapes::unescaped))]
pub fn unescape(alloc: Global, word: &[u8]) -> Result<Option<Vec<u8>>, Memory>
    ensures { IfOk result (λ r. MatchOption r (unescaped word.now ≡ None) (λ v. unescaped word.now ≡ Some v.items)) }
{
    if word.is_empty() {
        return Ok(None);
    }
    if word == b"-".as_slice() {
        return Ok(Some(Vec::new(alloc)));
    }
    unescape_bytes(alloc, word)
}
