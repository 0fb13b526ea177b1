ghost use Rattle.std.specs.Prelude.{◌≡◌, ◌||◌, ◌==◌, List, ℕ, IfOk, OnOk, IfErr, ◌⊎◌, Some, None, IsTrue, nat_eq, position, not, slice_index, ◌<◌, length};
ghost use Rattle.mesh_text.specs.Names.{is_cluster_byte, is_part_byte, is_cluster_name, is_part_name, cluster_name_fault, part_name_fault, bad_end};
ghost use Rattle.mesh_text.specs.declared.names.NameFault.TheVariants as fault;

use mesh_base::Bytes;
use std::alloc::{AllocError, Global};
use std::marker::Model;

/// The most bytes of a cluster name (Cilium).
const LONGEST_CLUSTER_NAME: usize = 32;

/// The most bytes of a part name, as of a DNS subdomain name (Kubernetes).
const LONGEST_PART_NAME: usize = 253;

/// Why a text is no name, in the order in which the faults are looked for.
#[derive(Clone, Copy, Debug, PartialEq, Eq)]
pub enum NameFault {
    /// The text has no byte.
    Empty,
    /// The text has more bytes than a name may have.
    TooLong { len: u64 },
    /// The first byte that no name has.
    BadByte { at: u64 },
    /// A `-` at the first or the last place of a cluster name.
    BadEnd { at: u64 },
    /// Memory was wanted, and there was none.
    Memory,
}

impl From<AllocError> for NameFault {
    ghost use Rattle.mesh_text.specs.declared.names.NameFault.TheVariants.{Memory};
    ghost use Rattle.std.specs.Prelude.{◌≡◌};

    ghost from_gives = { λ _ e. e ≡ Memory };

    fn from(_: AllocError) -> NameFault {
        NameFault::Memory
    }
}

fn is_cluster_byte(byte: u8) -> bool
    ensures { result ≡ is_cluster_byte byte }
{
    byte.is_ascii_lowercase() || byte.is_ascii_digit() || byte == b'-'
}

fn is_part_byte(byte: u8) -> bool
    ensures { result ≡ is_part_byte byte }
{
    is_cluster_byte(byte) || byte == b'.'
}

fn bad_end(text: &[u8]) -> Option<NameFault>
    requires { 0 < length text.now }
    ensures { result ≡ bad_end text.now }
{
    let last = text.len() - 1;
    if text[0] == b'-' {
        return Some(NameFault::BadEnd { at: 0 });
    }
    if text[last] == b'-' {
        return Some(NameFault::BadEnd { at: last as u64 });
    }
    None
}

fn first_bad_cluster_byte(text: &[u8]) -> Option<usize>
    ensures { result ≡ position (λ c. not (is_cluster_byte c)) text.now }
{
    text.iter().position(|byte| !is_cluster_byte(*byte))
}

#[tactic(auto, unfolding(crate::specs::Names::cluster_name_fault))]
fn cluster_name_fault(text: &[u8]) -> Option<NameFault>
    ensures { result ≡ cluster_name_fault text.now }
{
    if text.is_empty() {
        return Some(NameFault::Empty);
    }
    if text.len() > LONGEST_CLUSTER_NAME {
        return Some(NameFault::TooLong {
            len: text.len() as u64,
        });
    }
    match first_bad_cluster_byte(text) {
        Some(at) => Some(NameFault::BadByte { at: at as u64 }),
        None => bad_end(text),
    }
}

fn first_bad_part_byte(text: &[u8]) -> Option<usize>
    ensures { result ≡ position (λ c. not (is_part_byte c)) text.now }
{
    text.iter().position(|byte| !is_part_byte(*byte))
}

#[tactic(auto, unfolding(crate::specs::Names::part_name_fault))]
fn part_name_fault(text: &[u8]) -> Option<NameFault>
    ensures { result ≡ part_name_fault text.now }
{
    if text.is_empty() {
        return Some(NameFault::Empty);
    }
    if text.len() > LONGEST_PART_NAME {
        return Some(NameFault::TooLong {
            len: text.len() as u64,
        });
    }
    match first_bad_part_byte(text) {
        Some(at) => Some(NameFault::BadByte { at: at as u64 }),
        None => None,
    }
}

/// The name of a cluster: 1 to 32 lower-case letters, digits and `-`, neither the first nor the last a
/// `-`.
///
/// Contracts see the list of its bytes, which is a cluster name. The order is byte order.
#[derive(Clone, Debug, Drop, PartialEq, Eq, PartialOrd, Ord, Hash)]
pub struct ClusterName {
    bytes: Bytes,
}

impl Model for ClusterName {
    ghost use Rattle.std.specs.Prelude.{List, ℕ, IsTrue};
    ghost use Rattle.mesh_text.specs.Names.{is_cluster_name};

    ghost Value = { List ℕ };

    ghost view = { λ n. n.bytes };

    ghost inverse = { λ b. record { bytes = b } };

    ghost invariant = { λ n. IsTrue (is_cluster_name n.bytes) };
}

impl ClusterName {
    /// Reads a cluster name.
    ///
    /// The faults come in the order of `NameFault`, and the first is answered; `Memory` comes where
    /// memory was wanted.
    #[tactic(auto, using(crate::proofs::NameGrammar::cluster_name_from_no_fault))]
    pub fn read(alloc: Global, text: &[u8]) -> Result<ClusterName, NameFault>
        ensures name { IfOk result (λ n. n ≡ text.now) }
        ensures valid { OnOk result (cluster_name_fault text.now ≡ None) }
        ensures fault { IfErr result (λ e. (e ≡ fault.Memory) ⊎ (cluster_name_fault text.now ≡ Some e)) }
    {
        match cluster_name_fault(text) {
            Some(fault) => Err(fault),
            None => {
                let bytes = Bytes::from_slice(alloc, text)?;
                Ok(ClusterName { bytes })
            }
        }
    }

    pub fn as_bytes(&self) -> &[u8]
        ensures bytes { result.now ≡ self.now }
        ensures valid { IsTrue (is_cluster_name self.now) }
    {
        self.bytes.as_slice()
    }
}

/// The name of a node, a namespace or a service: 1 to 253 lower-case letters, digits, `-` and `.`.
///
/// Contracts see the list of its bytes, which is a part name. The order is byte order.
#[derive(Clone, Debug, Drop, PartialEq, Eq, PartialOrd, Ord, Hash)]
pub struct PartName {
    bytes: Bytes,
}

impl Model for PartName {
    ghost use Rattle.std.specs.Prelude.{List, ℕ, IsTrue};
    ghost use Rattle.mesh_text.specs.Names.{is_part_name};

    ghost Value = { List ℕ };

    ghost view = { λ n. n.bytes };

    ghost inverse = { λ b. record { bytes = b } };

    ghost invariant = { λ n. IsTrue (is_part_name n.bytes) };
}

impl PartName {
    /// Reads a part name.
    ///
    /// The faults come in the order of `NameFault`, and the first is answered; `Memory` comes where
    /// memory was wanted.
    #[tactic(auto, using(crate::proofs::NameGrammar::part_name_from_no_fault))]
    pub fn read(alloc: Global, text: &[u8]) -> Result<PartName, NameFault>
        ensures name { IfOk result (λ n. n ≡ text.now) }
        ensures valid { OnOk result (part_name_fault text.now ≡ None) }
        ensures fault { IfErr result (λ e. (e ≡ fault.Memory) ⊎ (part_name_fault text.now ≡ Some e)) }
    {
        match part_name_fault(text) {
            Some(fault) => Err(fault),
            None => {
                let bytes = Bytes::from_slice(alloc, text)?;
                Ok(PartName { bytes })
            }
        }
    }

    pub fn as_bytes(&self) -> &[u8]
        ensures bytes { result.now ≡ self.now }
        ensures valid { IsTrue (is_part_name self.now) }
    {
        self.bytes.as_slice()
    }
}
