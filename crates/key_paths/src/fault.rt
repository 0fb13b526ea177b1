ghost use Rattle.std.specs.Prelude.{◌≡◌};
ghost use Rattle.key_paths.specs.declared.fault.KeyFault.TheVariants.{Memory};

use std::alloc::{AllocError, AllocFailed};

/// Why bytes are no key, in the order in which the faults are looked for.
///
/// The parts of a key are what stands behind its fixed beginning, split at each `/`. Of `Name`,
/// `Number` and `Address` the first part from the left that isn't of its form decides.
#[derive(Clone, Copy, Debug, PartialEq, Eq)]
pub enum KeyFault {
    /// The bytes begin with none of the fixed beginnings.
    UnknownPrefix,
    /// There are more or fewer parts than behind this beginning, or a part is not the fixed word
    /// that stands at its place. `have` is the number of parts.
    Parts { have: u64 },
    /// The part that begins at this byte of the key is no name.
    Name { at: u64 },
    /// The part that begins at this byte of the key is no canonical decimal below 2^32.
    Number { at: u64 },
    /// The part that begins at this byte of the key is no address in canonical form.
    Address { at: u64 },
    /// Memory was wanted, and there was none.
    Memory,
}

impl From<AllocError> for KeyFault {
    ghost from_gives = { λ _ e. e ≡ Memory };

    fn from(_: AllocError) -> Self {
        KeyFault::Memory
    }
}

impl<T: Drop> From<AllocFailed<T>> for KeyFault {
    ghost from_gives = { λ _ e. e ≡ Memory };

    fn from(_: AllocFailed<T>) -> Self {
        KeyFault::Memory
    }
}

impl From<mesh_base::Memory> for KeyFault {
    ghost from_gives = { λ _ e. e ≡ Memory };

    fn from(_: mesh_base::Memory) -> Self {
        KeyFault::Memory
    }
}
