//! What a store tells of its set.
ghost use Rattle.std.specs.Prelude.{◌≡◌};
ghost use Rattle.volume_table.specs.Shows.{used_records};
ghost use Rattle.volume_table.specs.StoreFunctions.{TellsStatus, status_of};
ghost use Rattle.volume_table.specs.OpenStore.{store_view};

use super::Store;
use crate::Status;
use extents::{MOST_VOLUMES, Record};
use sector_model::{Bank, Refusal};

impl<B: Bank> Store<B> {
    /// What the set is, and how much of it is in use. It makes no device call. A store that was ended answers the
    /// refusal that ended it.
    pub fn status(&self) -> Result<Status, Refusal>
        ensures { TellsStatus (store_view self.now) (status_of result) }
    {
        if let Some(refusal) = self.ended {
            return Err(refusal);
        }
        let table = &self.array.table;
        Ok(Status {
            id: table.id,
            format: table.geometry.format,
            members: table.geometry.members,
            chunk: table.geometry.chunk,
            stripes: table.geometry.stripes,
            rows: table.geometry.rows(),
            generation: table.generation,
            position: table.position,
            extent_blocks: table.geometry.extent_blocks(),
            extents: table.geometry.extents(),
            free: self.map.free_count(),
            volumes: used(&self.table.records),
            version: self.table.version,
            states: table.states,
            incarnations: table.incarnations,
        })
    }
}

// How many records are used.
fn used(records: &[Option<Record>; MOST_VOLUMES]) -> u32
    ensures { result ≡ used_records records.now }
{
    records.iter().filter(|record| record.is_some()).count() as u32
}
