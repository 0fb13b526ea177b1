ghost use Rattle.std.specs.Prelude.{◌≡◌};
ghost use Rattle.record_values.specs.declared.fault.ReadFault.TheVariants.{Memory};

use mesh_text::Text;
use std::alloc::{AllocError, AllocFailed};

/// Why a value is refused.
///
/// A `field` is the member's name, with the name of the list or object that it stands in before
/// it, as `IPAddresses.Type`.
#[derive(Clone, Debug, Drop)]
pub enum ReadFault {
    /// The bytes are no JSON text.
    Json,
    /// The JSON value is no object.
    Shape,
    /// A required member is absent.
    Missing { field: Text },
    /// A member is of another JSON type than its field's.
    WrongType { field: Text },
    /// A member's number or text lies outside its field's range.
    Range { field: Text },
    /// A member's text is no address.
    AddressText { field: Text },
    /// An address stands for more than itself.
    Mask,
    /// The label that begins at this byte is none.
    Label { at: u64 },
    /// Memory was wanted, and there was none.
    Memory,
}

impl From<AllocError> for ReadFault {
    ghost from_gives = { λ _ e. e ≡ Memory };

    fn from(_: AllocError) -> Self {
        ReadFault::Memory
    }
}

impl<T: Drop> From<AllocFailed<T>> for ReadFault {
    ghost from_gives = { λ _ e. e ≡ Memory };

    fn from(_: AllocFailed<T>) -> Self {
        ReadFault::Memory
    }
}

impl From<mesh_base::Memory> for ReadFault {
    ghost from_gives = { λ _ e. e ≡ Memory };

    fn from(_: mesh_base::Memory) -> Self {
        ReadFault::Memory
    }
}
