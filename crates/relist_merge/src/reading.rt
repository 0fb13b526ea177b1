// What a pair says.
ghost use Rattle.std.specs.Prelude.{◌≡◌, IfOk};
ghost use Rattle.std.specs.Option.{option_copied};
ghost use Rattle.relist_merge.specs.Readings.{below_marks, config_said, cut_said, reading_in};

use key_paths::{Hop, Key, KeyFault, Kind, read_key};
use mesh_base::Memory;
use mesh_text::read_number;
use record_check::{Fault, Limit, check_config, read_pair};
use record_values::{ClusterConfig, Record};
use std::alloc::Global;

/// What a pair in a cluster's ranges says, by its key and its value alone.
#[derive(Debug, Drop)]
pub enum Reading {
    /// A record under its key.
    Pair { key: Key, value: Record },
    /// A record's pair with a fault.
    Bad(Fault),
    /// A cluster's config, or its fault.
    Config(Result<ClusterConfig, Fault>),
    /// The mark that all records of a kind are written.
    Mark { hop: Hop, kind: Kind },
    /// The revision of which a cache is the image; `None` where the value is no number.
    Cut(Option<u64>),
    /// Below the marks, and no mark.
    Other,
}

const MARKS: &str = "cilium/synced/";

/// A pair that is no config, mark or cut: below the marks it says nothing, and else it is read as
/// that of a record.
fn record_reading(alloc: Global, key: &[u8], value: &[u8]) -> Result<Reading, Memory>
    ensures { IfOk result (λ reading. reading ≡ below_marks key.now value.now) }
{
    if key.starts_with(MARKS.as_bytes()) {
        return Ok(Reading::Other);
    }
    match read_pair(alloc, key, value)? {
        Ok((key, value)) => Ok(Reading::Pair { key, value }),
        Err(fault) => Ok(Reading::Bad(fault)),
    }
}

/// What the pair says.
#[tactic(auto, unfolding(crate::specs::Readings::reading_in))]
pub(crate) fn read(alloc: Global, limit: Limit, key: &[u8], value: &[u8]) -> Result<Reading, Memory>
    ensures { IfOk result (λ reading. reading ≡ reading_in limit key.now value.now) }
{
    match read_key(alloc, key) {
        Ok(Key::Config { .. }) => Ok(Reading::Config(check_config(alloc, limit, value)?)),
        Ok(Key::Synced { hop, kind, .. }) => Ok(Reading::Mark { hop, kind }),
        Ok(Key::Cut { .. }) => Ok(Reading::Cut(read_number(value))),
        Err(KeyFault::Memory) => Err(Memory),
        Ok(_) | Err(_) => record_reading(alloc, key, value),
    }
}

/// The config, where that is what the pair says and it is valid.
pub(crate) fn config_said(reading: &Reading) -> Option<&ClusterConfig>
    ensures { option_copied result ≡ config_said reading.now }
{
    match reading {
        Reading::Config(Ok(config)) => Some(config),
        _ => None,
    }
}

/// The revision of a cut, where that is what the pair says.
pub(crate) fn cut_said(reading: &Reading) -> Option<u64>
    ensures { result ≡ cut_said reading.now }
{
    match reading {
        Reading::Cut(revision) => *revision,
        _ => None,
    }
}
