// The report of the tables.
ghost use Rattle.std.specs.Prelude.{◌≡◌, IfOk};
ghost use Rattle.shared_tables.specs.Merge.{IsMerge};
ghost use Rattle.shared_tables.specs.Told.{sets, told};

use crate::least::least_rows;
use crate::merged::Merged;
use crate::rows::Report;
use crate::steps::Steps;
use crate::tables::Tables;
use crate::walks::merge_all;
use mesh_base::{Items, Memory};
use std::alloc::Global;
use std::sync::ledger::Ledger;

impl Tables {
    /// The rows of all sources, by what the tables were told of them.
    ///
    /// It has one row for each valid node and identity of each admitted source, one for each
    /// backend of a valid service that is shared, for each address the row of the admitted source
    /// whose number is least, and one for each faulty pair of an admitted source and for each
    /// config that is faulty or not admitted. It is made anew at each call, and each pair that is
    /// read is one step. It costs little more than one look at each row.
    pub fn report<L: Ledger>(&self, alloc: Global, steps: &mut Steps<L>) -> Result<Report, Memory>
        ensures { IfOk result (IsMerge (told self.now).limit (told self.now).number (sets (told self.now))) }
    {
        let merged = merge_all(
            alloc,
            self.limit,
            self.number,
            self.sources.as_slice(),
            steps,
        )?;
        let Merged {
            nodes,
            identities,
            claims,
            backends,
            rejects,
        } = merged;
        Ok(Report {
            sources: Items::new(alloc),
            nodes,
            identities,
            addresses: least_rows(alloc, claims)?,
            backends,
            chosen: Items::new(alloc),
            rejects,
        })
    }
}
