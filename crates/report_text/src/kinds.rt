// The lines of all rows of a kind.
ghost use Rattle.std.specs.Prelude.{◌≡◌, IfOk, map};
ghost use Rattle.report_text.specs.Text as text;

use crate::rows::{
    address_line, backend_line, chosen_line, identity_line, node_line, reject_line, source_line,
};
use mesh_base::{Bytes, Memory};
use shared_tables::{AddressRow, BackendRow, IdentityRow, NodeRow, RejectRow, SourceRow};
use std::alloc::Global;

pub(crate) fn source_lines(alloc: Global, rows: &[SourceRow]) -> Result<Vec<Bytes>, Memory>
    ensures { IfOk result (λ lines. lines.items ≡ map text.source_line rows.now) }
{
    let mut lines = Vec::with_capacity(alloc, rows.len())?;
    for row in rows {
        lines.push(source_line(alloc, row)?)?;
    }
    Ok(lines)
}

pub(crate) fn node_lines(alloc: Global, rows: &[NodeRow]) -> Result<Vec<Bytes>, Memory>
    ensures { IfOk result (λ lines. lines.items ≡ map text.node_line rows.now) }
{
    let mut lines = Vec::with_capacity(alloc, rows.len())?;
    for row in rows {
        lines.push(node_line(alloc, row)?)?;
    }
    Ok(lines)
}

pub(crate) fn identity_lines(alloc: Global, rows: &[IdentityRow]) -> Result<Vec<Bytes>, Memory>
    ensures { IfOk result (λ lines. lines.items ≡ map text.identity_line rows.now) }
{
    let mut lines = Vec::with_capacity(alloc, rows.len())?;
    for row in rows {
        lines.push(identity_line(alloc, row)?)?;
    }
    Ok(lines)
}

pub(crate) fn address_lines(alloc: Global, rows: &[AddressRow]) -> Result<Vec<Bytes>, Memory>
    ensures { IfOk result (λ lines. lines.items ≡ map text.address_line rows.now) }
{
    let mut lines = Vec::with_capacity(alloc, rows.len())?;
    for row in rows {
        lines.push(address_line(alloc, row)?)?;
    }
    Ok(lines)
}

pub(crate) fn backend_lines(alloc: Global, rows: &[BackendRow]) -> Result<Vec<Bytes>, Memory>
    ensures { IfOk result (λ lines. lines.items ≡ map text.backend_line rows.now) }
{
    let mut lines = Vec::with_capacity(alloc, rows.len())?;
    for row in rows {
        lines.push(backend_line(alloc, row)?)?;
    }
    Ok(lines)
}

pub(crate) fn chosen_lines(alloc: Global, rows: &[BackendRow]) -> Result<Vec<Bytes>, Memory>
    ensures { IfOk result (λ lines. lines.items ≡ map text.chosen_line rows.now) }
{
    let mut lines = Vec::with_capacity(alloc, rows.len())?;
    for row in rows {
        lines.push(chosen_line(alloc, row)?)?;
    }
    Ok(lines)
}

pub(crate) fn reject_lines(alloc: Global, rows: &[RejectRow]) -> Result<Vec<Bytes>, Memory>
    ensures { IfOk result (λ lines. lines.items ≡ map text.reject_line rows.now) }
{
    let mut lines = Vec::with_capacity(alloc, rows.len())?;
    for row in rows {
        lines.push(reject_line(alloc, row)?)?;
    }
    Ok(lines)
}
