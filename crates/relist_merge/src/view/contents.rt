ghost use Rattle.std.specs.Prelude.{◌≡◌, ℕ, List, IfOk, flat_map, map, option_map};
ghost use Rattle.store_api.specs.History.{entry_of};
ghost use Rattle.key_paths.specs.Paths.{config_key};
ghost use Rattle.record_check.specs.Configs.{checked_config};
ghost use Rattle.relist_merge.specs.Sight.{viewed};
ghost use Rattle.relist_merge.specs.Told.{cut_in, told_of};
ghost use Rattle.relist_merge.specs.View.{IsListOf, values};

use crate::reading::cut_said;
use crate::telling::ReadRecord;
use crate::view::View;
use mesh_base::{Items, Memory};
use record_check::{Fault, check_config};
use record_values::ClusterConfig;
use std::alloc::Global;
use store_api::Pair;

impl View {
    /// The key and the value of each entry, in any order.
    ///
    /// `Memory` comes where memory was wanted. Linear in the entries.
    pub fn pairs(&self, alloc: Global) -> Result<Items<Pair>, Memory>
        ensures { IfOk result (λ pairs. IsListOf (map entry_of pairs) (values (viewed self.now).shown.entries)) }
    {
        self.rows.pairs(alloc)
    }

    /// The key in the exporter's store and the reading of each entry that is a record's, in any
    /// order.
    ///
    /// `Memory` comes where memory was wanted. Linear in the entries, of which none is read anew.
    pub fn read_records(&self, alloc: Global) -> Result<Items<ReadRecord>, Memory>
        ensures { IfOk result (λ records. (pairs : List (List ℕ × List ℕ)) × IsListOf pairs (values (viewed self.now).shown.entries) × (records ≡ flat_map (told_of (viewed self.now).source.hop (viewed self.now).source.cluster) pairs)) }
    {
        self.rows.records(alloc, self.hop, &self.cluster)
    }

    /// What the entry of the source's config says, or its first fault; `None` exactly where there is
    /// no such entry.
    ///
    /// `Memory` comes where memory was wanted.
    pub fn read_config(&self, alloc: Global) -> Result<Option<Result<ClusterConfig, Fault>>, Memory>
        ensures { IfOk result (λ said. said ≡ option_map (checked_config (viewed self.now).source.limit) (values (viewed self.now).shown.entries (config_key (viewed self.now).source.cluster))) }
    {
        let Some(keys) = &self.keys else {
            return Ok(None);
        };
        match self.rows.get(&keys.config) {
            Some(row) => Ok(Some(check_config(alloc, self.limit, row.value.as_slice())?)),
            None => Ok(None),
        }
    }

    /// The revision of which the source's cache is the image, by the entry of its cut; `None` exactly
    /// where there is no such entry that can be read.
    pub fn cut(&self) -> Option<u64>
        ensures { result ≡ cut_in (viewed self.now).source.cluster (values (viewed self.now).shown.entries) }
    {
        let _ = self.cluster.as_bytes();
        match &self.keys {
            Some(keys) => cut_said(self.get(&keys.cut)?),
            None => None,
        }
    }
}
