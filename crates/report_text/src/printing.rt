// The whole text of a report.
ghost use Rattle.std.specs.Prelude.{◌≡◌, ◌++◌, ◌∷◌, [], IfOk, OnOk};
ghost use Rattle.std.specs.Fmt.{decimal};
ghost use Rattle.report_text.specs.Lines.{line_of};
ghost use Rattle.report_text.specs.Text as text;
ghost use Rattle.report_text.specs.Words.{head_word};

use crate::head::Head;
use crate::kinds::{
    address_lines, backend_lines, chosen_lines, identity_lines, node_lines, reject_lines,
    source_lines,
};
use crate::lines::{push_sorted, push_word};
use crate::words::head_word;
use mesh_base::{Bytes, Memory};
use shared_tables::Report;
use std::alloc::Global;

fn first_line(alloc: Global, head: Head, number: u64) -> Result<Bytes, Memory>
    ensures { IfOk result (λ line. line ≡ line_of (head_word head ∷ decimal number ∷ [])) }
{
    let mut line = Bytes::from_slice(alloc, head_word(head).as_bytes())?;
    push_word(&mut line, number.to_string(alloc)?.as_bytes())?;
    line.extend_from_slice("\n".as_bytes())?;
    Ok(line)
}

/// Puts the lines of all rows behind the text.
fn push_rows(alloc: Global, out: &mut Bytes, report: &Report) -> Result<(), Memory>
    ensures { OnOk result (out.new ≡ out.old ++ text.rows_text report.now) }
{
    push_sorted(out, source_lines(alloc, report.sources.as_slice())?)?;
    push_sorted(out, node_lines(alloc, report.nodes.as_slice())?)?;
    push_sorted(out, identity_lines(alloc, report.identities.as_slice())?)?;
    push_sorted(out, address_lines(alloc, report.addresses.as_slice())?)?;
    push_sorted(out, backend_lines(alloc, report.backends.as_slice())?)?;
    push_sorted(out, chosen_lines(alloc, report.chosen.as_slice())?)?;
    push_sorted(out, reject_lines(alloc, report.rejects.as_slice())?)?;
    Ok(())
}

/// The text of a report: its first line with the number, a line for each row, and `end`.
///
/// The rows of a kind stand in byte order of their lines, whatever their order in the report. Every
/// line ends with a newline, and its words have one space between them. `Memory` where memory was
/// wanted.
pub fn report_bytes(
    alloc: Global,
    head: Head,
    number: u64,
    report: &Report,
) -> Result<Vec<u8>, Memory>
    ensures { IfOk result (λ bytes. bytes.items ≡ text.report_text head number report.now) }
{
    let mut bytes = first_line(alloc, head, number)?;
    push_rows(alloc, &mut bytes, report)?;
    bytes.extend_from_slice("end\n".as_bytes())?;
    Ok(bytes.into_vec())
}
