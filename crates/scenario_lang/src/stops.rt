ghost use Rattle.std.specs.Prelude.{◌≡◌};

use std::alloc::{AllocError, AllocFailed};

/// Why a reader of a part of a text stops.
#[derive(Debug, Drop)]
pub(crate) enum Stop<F> {
    /// Memory was wanted, and there was none.
    Memory,
    /// The first fault of the part.
    Fault(F),
}

impl<F> From<AllocError> for Stop<F> {
    ghost use Rattle.scenario_lang.specs.declared.stops.Stop.TheVariants as stop;

    ghost from_gives = { λ _ e. e ≡ stop.Memory };

    fn from(_: AllocError) -> Stop<F> {
        Stop::Memory
    }
}

impl<F, T: Drop> From<AllocFailed<T>> for Stop<F> {
    ghost use Rattle.scenario_lang.specs.declared.stops.Stop.TheVariants as stop;

    ghost from_gives = { λ _ e. e ≡ stop.Memory };

    fn from(_: AllocFailed<T>) -> Stop<F> {
        Stop::Memory
    }
}

impl<F> From<mesh_base::Memory> for Stop<F> {
    ghost use Rattle.scenario_lang.specs.declared.stops.Stop.TheVariants as stop;

    ghost from_gives = { λ _ e. e ≡ stop.Memory };

    fn from(_: mesh_base::Memory) -> Stop<F> {
        Stop::Memory
    }
}
