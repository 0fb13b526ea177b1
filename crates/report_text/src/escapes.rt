// Bytes behind a line, as a word has them.
ghost use Rattle.std.specs.Prelude.{◌≡◌, ◌++◌, ◌↔◌, IsTrue, OnOk, codes, flat_map};
ghost use Rattle.mesh_text.specs.Escapes.{escaped, escaped_byte};

use mesh_base::{Bytes, Memory};
use mesh_text::escape;
use std::alloc::Global;

/// Whether each of the bytes stands for itself in a word.
fn are_plain(bytes: &[u8]) -> bool
    ensures { IsTrue result ↔ flat_map escaped_byte bytes.now ≡ bytes.now }
{
    bytes
        .iter()
        .all(|byte| *byte >= 0x21 && *byte <= 0x7E && *byte != b'%')
}

/// Puts each of the bytes behind the line as a word has it.
#[tactic(auto, using(crate::proofs::PlainBytes::escaped_more))]
pub(crate) fn push_escaped_bytes(
    alloc: Global,
    line: &mut Bytes,
    bytes: &[u8],
) -> Result<(), Memory>
    ensures { OnOk result (line.new ≡ line.old ++ flat_map escaped_byte bytes.now) }
{
    if are_plain(bytes) {
        line.extend_from_slice(bytes)?;
    } else {
        line.extend_from_slice(escape(alloc, bytes)?.as_slice())?;
    }
    Ok(())
}

/// Puts the word for the bytes behind the line.
#[tactic(auto, unfolding(mesh_text::specs::Escapes::escaped))]
pub(crate) fn push_escaped(alloc: Global, line: &mut Bytes, bytes: &[u8]) -> Result<(), Memory>
    ensures { OnOk result (line.new ≡ line.old ++ escaped bytes.now) }
{
    if bytes.is_empty() {
        line.extend_from_slice("-".as_bytes())?;
    } else if bytes == b"-".as_slice() {
        line.extend_from_slice("%2D".as_bytes())?;
    } else {
        push_escaped_bytes(alloc, line, bytes)?;
    }
    Ok(())
}

/// Puts a space and the word for the bytes behind the line.
pub(crate) fn push_escaped_word(alloc: Global, line: &mut Bytes, bytes: &[u8]) -> Result<(), Memory>
    ensures { OnOk result (line.new ≡ line.old ++ (codes " " ++ escaped bytes.now)) }
{
    line.push(b' ')?;
    push_escaped(alloc, line, bytes)
}
