ghost use Rattle.std.specs.Prelude.{◌≡◌};
ghost use Rattle.exporter.specs.declared.fault.ExportFault.TheVariants.{Memory};

use std::alloc::{AllocError, AllocFailed};

/// Why an exporter's call on a store was refused, in the order in which the faults are met.
#[derive(Clone, Copy, Debug, PartialEq, Eq)]
pub enum ExportFault {
    /// The connection failed: the call had its whole effect on the store, or none.
    Lost,
    /// This lease, which the exporter's last start was granted, is not live: the exporter is stopped.
    NoLease { lease: u64 },
    /// Memory was wanted, and there was none.
    Memory,
}

impl From<AllocError> for ExportFault {
    ghost from_gives = { λ _ e. e ≡ Memory };

    fn from(_: AllocError) -> Self {
        ExportFault::Memory
    }
}

impl<T: Drop> From<AllocFailed<T>> for ExportFault {
    ghost from_gives = { λ _ e. e ≡ Memory };

    fn from(_: AllocFailed<T>) -> Self {
        ExportFault::Memory
    }
}

impl From<mesh_base::Memory> for ExportFault {
    ghost from_gives = { λ _ e. e ≡ Memory };

    fn from(_: mesh_base::Memory) -> Self {
        ExportFault::Memory
    }
}
