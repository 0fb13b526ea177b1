// The parts of a key behind its beginning.
ghost use Rattle.std.specs.Prelude.{◌≡◌, ◌≤◌, ◌<◌, ◌+◌, ◌==◌, position, ◌∷◌, [], IfOk, IfSome, MatchOption, length, map, drop};
ghost use Rattle.mesh_text.specs.Addresses.{split_at};
ghost use Rattle.key_paths.specs.Reading.{Gives, placed, cluster_at, name_at, number_at, ip_at};
ghost use Rattle.key_paths.specs.Parts.{seen, name_fault};

use crate::fault::KeyFault;
use mesh_base::Memory;
use mesh_text::{ClusterName, Ip, NameFault, PartName, read_ip, read_number, write_ip};
use std::alloc::Global;

/// A part of a key, and the place of its first byte in the key.
#[derive(Drop)]
pub(crate) struct Part<'a> {
    pub(crate) at: usize,
    pub(crate) text: &'a [u8],
}

fn first_slash(bytes: &[u8]) -> Option<usize>
    ensures slash { result ≡ position (λ c. c == 47) bytes.now }
    ensures within { IfSome result (λ n. n < length bytes.now) }
{
    bytes.iter().position(|byte| *byte == b'/')
}

/// The bytes before the first `/`, and what follows it.
fn first_part(bytes: &[u8]) -> (&[u8], Option<&[u8]>)
    ensures parts { MatchOption result.1 (split_at 47 bytes.now ≡ result.0.now ∷ []) (λ rest. split_at 47 bytes.now ≡ result.0.now ∷ split_at 47 rest.now) }
    ensures shorter { IfSome result.1 (λ rest. length result.0.now + length rest.now + 1 ≡ length bytes.now) }
{
    match first_slash(bytes) {
        Some(n) => (&bytes[..n], Some(&bytes[n + 1..])),
        None => (bytes, None),
    }
}

/// What stands behind the first bytes of a key, split at each `/`.
pub(crate) fn parts_behind(
    alloc: Global,
    bytes: &[u8],
    from: usize,
) -> Result<Vec<Part<'_>>, Memory>
    requires { from ≤ length bytes.now }
    ensures { IfOk result (λ v. map seen v.items ≡ placed from (split_at 47 (drop from bytes.now))) }
{
    let mut parts = Vec::new(alloc);
    let mut at = from;
    let mut rest = &bytes[from..];
    loop {
        let (text, more) = first_part(rest);
        parts.push(Part { at, text })?;
        let Some(more) = more else {
            return Ok(parts);
        };
        at += text.len() + 1;
        rest = more;
    }
}

/// What a part that is no name is refused for.
fn name_fault(at: usize, fault: NameFault) -> KeyFault
    ensures { result ≡ name_fault at fault }
{
    match fault {
        NameFault::Memory => KeyFault::Memory,
        NameFault::Empty
        | NameFault::TooLong { .. }
        | NameFault::BadByte { .. }
        | NameFault::BadEnd { .. } => KeyFault::Name { at: at as u64 },
    }
}

#[tactic(auto, using(crate::proofs::Forms::cluster_at_read))]
pub(crate) fn cluster_at(alloc: Global, part: &Part<'_>) -> Result<ClusterName, KeyFault>
    ensures { Gives result (cluster_at (seen part.now)) }
{
    match ClusterName::read(alloc, part.text) {
        Ok(name) => Ok(name),
        Err(fault) => Err(name_fault(part.at, fault)),
    }
}

#[tactic(auto, using(crate::proofs::Forms::name_at_read))]
pub(crate) fn name_at(alloc: Global, part: &Part<'_>) -> Result<PartName, KeyFault>
    ensures { Gives result (name_at (seen part.now)) }
{
    match PartName::read(alloc, part.text) {
        Ok(name) => Ok(name),
        Err(fault) => Err(name_fault(part.at, fault)),
    }
}

pub(crate) fn number_at(part: &Part<'_>) -> Result<u32, KeyFault>
    ensures { Gives result (number_at (seen part.now)) }
{
    match read_number(part.text) {
        Some(number) if number < 1 << 32 => Ok(number as u32),
        _ => Err(KeyFault::Number { at: part.at as u64 }),
    }
}

pub(crate) fn ip_at(alloc: Global, part: &Part<'_>) -> Result<Ip, KeyFault>
    ensures { Gives result (ip_at (seen part.now)) }
{
    let Some(ip) = read_ip(part.text) else {
        return Err(KeyFault::Address { at: part.at as u64 });
    };
    if write_ip(alloc, ip)?.as_slice() != part.text {
        return Err(KeyFault::Address { at: part.at as u64 });
    }
    Ok(ip)
}
