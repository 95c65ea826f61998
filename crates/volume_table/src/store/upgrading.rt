//! The table of volumes gets version 2.
ghost use Rattle.std.specs.Prelude.{◌↔◌, OnOk};
ghost use Rattle.array_io.specs.Believed.OpenArray.{IsHonest};
ghost use Rattle.volume_table.specs.KeptTables.{UpgradesKept};
ghost use Rattle.volume_table.specs.StoreFunctions.{UpgradesTable};
ghost use Rattle.volume_table.specs.OpenStore.{store_view};

use super::Store;
use super::saving::put_whole_table;
use extents::upgraded_version;
use sector_model::{Bank, Refusal};

impl<B: Bank> Store<B> {
    /// Makes the table of volumes one of version 2, for up to 64 volumes and names of up to 63 bytes, by one commit of
    /// all its 25 sectors: at each moment a crash leaves the volumes in a table of version 1, or the same ones in a
    /// table of version 2. Records and extents keep their numbers. Where the table has version 2, or 3, nothing is
    /// done. It takes no memory.
    ///
    /// It is refused with `TwoLost` and `Worn` alone, which end the store.
    pub fn upgrade(&mut self) -> Result<(), Refusal>
        ensures honest { IsHonest self.old.array ↔ IsHonest self.new.array }
        ensures upgrades { UpgradesTable (IsHonest self.old.array) (store_view self.old) (store_view self.new) result }
        ensures kept { OnOk result (UpgradesKept (store_view self.old) (store_view self.new)) }
    {
        if let Some(refusal) = self.ended {
            return Err(refusal);
        }
        if upgraded_version(self.table.version) == self.table.version {
            return Ok(());
        }
        self.table.upgrade();
        let answer = put_whole_table(&mut self.array, &self.table);
        self.end(answer)
    }
}
