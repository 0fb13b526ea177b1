// The faults that name a field.
ghost use Rattle.record_reading.specs.Judgement.{IsFault};

use mesh_text::Text;
use record_values::ReadFault;
use std::alloc::Global;

pub(crate) fn missing(alloc: Global, field: &str) -> ReadFault
    ensures { IsFault result (ReadFault.Missing field.now) }
{
    match Text::from_str(alloc, field) {
        Ok(field) => ReadFault::Missing { field },
        Err(_) => ReadFault::Memory,
    }
}

pub(crate) fn wrong_type(alloc: Global, field: &str) -> ReadFault
    ensures { IsFault result (ReadFault.WrongType field.now) }
{
    match Text::from_str(alloc, field) {
        Ok(field) => ReadFault::WrongType { field },
        Err(_) => ReadFault::Memory,
    }
}

pub(crate) fn out_of_range(alloc: Global, field: &str) -> ReadFault
    ensures { IsFault result (ReadFault.Range field.now) }
{
    match Text::from_str(alloc, field) {
        Ok(field) => ReadFault::Range { field },
        Err(_) => ReadFault::Memory,
    }
}

pub(crate) fn no_address(alloc: Global, field: &str) -> ReadFault
    ensures { IsFault result (ReadFault.AddressText field.now) }
{
    match Text::from_str(alloc, field) {
        Ok(field) => ReadFault::AddressText { field },
        Err(_) => ReadFault::Memory,
    }
}
