// Words in lines, and lines in byte order.
ghost use Rattle.std.specs.Prelude.{◌≡◌, ◌++◌, [], List, ℕ, IfOk, OnOk, codes, flat_map};
ghost use Rattle.std.specs.Fmt.{decimal};
ghost use Rattle.report_text.specs.Lines.{text_of_lines};

use itoa::Buffer;
use mesh_base::{Bytes, Memory};
use std::alloc::Global;

/// A line of so many bytes takes memory once; a longer one takes more.
const LINE: usize = 64;

/// An empty line, with memory for a usual one.
fn empty_line(alloc: Global) -> Result<Bytes, Memory>
    ensures { IfOk result (λ line. line ≡ []) }
{
    Ok(Bytes::from_vec(Vec::with_capacity(alloc, LINE)?))
}

/// A line that begins with this word.
pub(crate) fn line_of(alloc: Global, word: &str) -> Result<Bytes, Memory>
    ensures { IfOk result (λ line. line ≡ word.now) }
{
    let mut line = empty_line(alloc)?;
    line.extend_from_slice(word.as_bytes())?;
    Ok(line)
}

/// Puts a space and the word behind the line.
pub(crate) fn push_word(line: &mut Bytes, word: &[u8]) -> Result<(), Memory>
    ensures { OnOk result (line.new ≡ line.old ++ (codes " " ++ word.now)) }
{
    line.extend_from_slice(" ".as_bytes())?;
    line.extend_from_slice(word)?;
    Ok(())
}

/// Puts a space and the decimal number behind the line.
pub(crate) fn push_number(line: &mut Bytes, number: u64) -> Result<(), Memory>
    ensures { OnOk result (line.new ≡ line.old ++ (codes " " ++ decimal number)) }
{
    let mut buffer = Buffer::new();
    push_word(line, buffer.format(number).as_bytes())
}

fn push_all(out: &mut Bytes, lines: &[Bytes]) -> Result<(), Memory>
    ensures { OnOk result (out.new ≡ out.old ++ flat_map (λ (line : List ℕ). line) lines.now) }
{
    for line in lines {
        out.extend_from_slice(line.as_slice())?;
    }
    Ok(())
}

/// Puts the lines behind the text, in byte order.
#[tactic(auto, using(crate::proofs::LineOrder::text_is))]
pub(crate) fn push_sorted(out: &mut Bytes, mut lines: Vec<Bytes>) -> Result<(), Memory>
    ensures { OnOk result (out.new ≡ out.old ++ text_of_lines lines.items) }
{
    lines.sort()?;
    push_all(out, lines.as_slice())?;
    Ok(())
}
