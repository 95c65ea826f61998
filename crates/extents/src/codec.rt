//! The table of volumes as sectors, and sectors as the table.
ghost use Rattle.std.specs.Prelude.{◌≡◌, ℕ, ◌<◌, length, List, [], Option, Some, IfSome, drop, slice_index_or};
ghost use Rattle.extents.specs.declared.owned.Owned.{Owned};
ghost use Rattle.extents.specs.declared.record.Record.{Record};
ghost use Rattle.extents.specs.declared.volume_table.VolumeTable.{VolumeTable};
ghost use Rattle.extents.specs.Cells.{IsRecordAt, AreRecordsAt, OwnersHaveRoom, SayDirty, SayOwners};
ghost use Rattle.extents.specs.SetExtents.{IsOfSet};
ghost use Rattle.extents.specs.TableSpelling.{entries_in, first_sector, sector_of, Spell};
ghost use Rattle.extents.specs.Versions.{IsVersionIn, table_length};

use crate::checks::{are_clean_beyond, are_free_from, is_table};
use crate::extent_map::MAX_EXTENTS;
use crate::owner_codec::{is_marked, read_owner, write_entries};
use crate::record_codec::{read_record, write_records};
use crate::version::{
    most_volumes, record_sectors, record_width, records_a_sector, table_length, tells_dirty,
    version_byte, version_of,
};
use crate::volume_table::{MOST_VOLUMES, TABLE_SECTORS};
use crate::{ExtentLayout, Owned, Record, VolumeTable};
use arrayvec::ArrayVec;
use layout_map::{Format, MOST_EXTENTS};
use sector_model::Sector;

// The version that sector 0 spells, of those of the format. None where it spells none.
fn read_version(format: Format, from: &[Sector]) -> Option<u8>
    requires { length from.now ≡ TABLE_SECTORS }
    ensures sectors { (number : ℕ) → number < TABLE_SECTORS → length (slice_index_or from.now number []) ≡ 512 }
    ensures some { IfSome result (λ version. IsVersionIn format version
        × (slice_index_or from.now 0 [] ≡ first_sector version)) }
    ensures exact { (version : ℕ) → IsVersionIn format version → slice_index_or from.now 0 [] ≡ first_sector version
        → result ≡ Some version }
{
    version_of(format, &from[0])
}

// The record of this number that the sectors spell; none after those of the version.
fn record_at(version: u8, from: &[Sector; TABLE_SECTORS], number: usize) -> Option<Option<Record>>
    requires { number < MOST_VOLUMES }
    ensures some { IfSome result (λ r. IsRecordAt version from.now number r) }
    ensures exact { (r : Option Record) → IsRecordAt version from.now number r → result ≡ Some r }
{
    if number >= most_volumes(version) {
        return Some(None);
    }
    let width = record_width(version);
    let each = records_a_sector(version);
    let sector = &from[1 + number / each];
    let at = width * (number % each);
    read_record(version, &sector[at..at + width])
}

// The records that the sectors spell. None where a record is not spelled.
fn read_records(
    version: u8,
    from: &[Sector; TABLE_SECTORS],
) -> Option<[Option<Record>; MOST_VOLUMES]>
    ensures long { IfSome result (λ records. length records ≡ MOST_VOLUMES) }
    ensures some { IfSome result (λ records. AreRecordsAt version from.now records) }
    ensures exact { (records : List (Option Record)) → length records ≡ MOST_VOLUMES
        → AreRecordsAt version from.now records → result ≡ Some records }
{
    let mut records = ArrayVec::<Option<Record>, MOST_VOLUMES>::new();
    for number in 0..MOST_VOLUMES {
        records.push(record_at(version, from, number)?);
    }
    records.into_inner().ok()
}

// The owners of the extents that the sectors spell. None where an owner is not spelled.
fn read_extents(version: u8, from: &[Sector; TABLE_SECTORS]) -> Option<[Option<Owned>; MAX_EXTENTS]>
    ensures long { IfSome result (λ extents. length extents ≡ MOST_EXTENTS) }
    ensures some { IfSome result (λ extents. SayOwners version from.now extents) }
    ensures exact { (extents : List (Option Owned)) → length extents ≡ MOST_EXTENTS → OwnersHaveRoom extents
        → SayOwners version from.now extents → result ≡ Some extents }
{
    let marks = tells_dirty(version);
    let first = 1 + record_sectors(version);
    let mut extents = ArrayVec::<Option<Owned>, MAX_EXTENTS>::new();
    for number in 0..MAX_EXTENTS {
        let sector = &from[first + number / 128];
        let at = 4 * (number % 128);
        extents.push(read_owner(marks, &sector[at..at + 4])?);
    }
    extents.into_inner().ok()
}

// Which of the extents are dirty by the sectors: all, where the version doesn't tell them.
fn read_dirty(version: u8, from: &[Sector; TABLE_SECTORS]) -> [bool; MAX_EXTENTS]
    ensures { SayDirty version from.now result }
{
    let mut dirty = [true; MAX_EXTENTS];
    read_flags(version, from, &mut dirty);
    dirty
}

// Writes which of 1,024 extents are dirty by the sectors.
fn read_flags(version: u8, from: &[Sector; TABLE_SECTORS], to: &mut [bool])
    requires { length to.old ≡ MOST_EXTENTS }
    ensures { SayDirty version from.now to.new }
{
    let marks = tells_dirty(version);
    let first = 1 + record_sectors(version);
    for (number, flag) in to.iter_mut().enumerate() {
        let sector = &from[first + number / 128];
        let at = 4 * (number % 128);
        *flag = !marks || is_marked(&sector[at..at + 4]);
    }
}

impl VolumeTable {
    // Writes the sector of this number, one of the table's, over whatever it held.
    fn write_sector(&self, number: usize, to: &mut Sector)
        requires { number < table_length self.now.version }
        ensures { to.new ≡ sector_of self.now.version self.now.records (entries_in self.now) number }
    {
        let beyond = 1 + record_sectors(self.version);
        if number == 0 {
            to.fill(0);
            to[0] = version_byte(self.version);
        } else if number < beyond {
            let each = records_a_sector(self.version);
            let first = each * (number - 1);
            let records = &self.records[..];
            write_records(self.version, &records[first..first + each], to);
        } else {
            let first = 128 * (number - beyond);
            let extents = &self.extents[first..first + 128];
            write_entries(self.version, extents, &self.dirty[first..first + 128], to);
        }
    }

    /// Writes the one spelling of the table, over whatever the sectors of its version held. Those after them stay.
    pub fn encode(&self, to: &mut [Sector; TABLE_SECTORS])
        ensures spelled { Spell to.new self.now }
        ensures beyond { drop (table_length self.now.version) to.new ≡ drop (table_length self.now.version) to.old }
    {
        let length = table_length(self.version);
        for (number, sector) in to[..length].iter_mut().enumerate() {
            self.write_sector(number, sector);
        }
    }

    /// The table that the sectors begin with, of a set whose extents lie so. Sectors after those of its version are not
    /// looked at.
    ///
    /// None where they spell no table: where sector 0 is not a version of the set's format and zeros, a record has no
    /// good name, one that is too long for the version, 0 blocks, or a byte other than 0 outside its fields, two names
    /// are equal, an extent in use names no used record, the places of a record are not exactly those that its blocks
    /// take, each once, or an extent that the set does not have is in use, or is told to be dirty.
    pub fn decode(from: &[Sector; TABLE_SECTORS], extents: &ExtentLayout) -> Option<VolumeTable>
        ensures some { IfSome result (λ t. Spell from.now t) }
        ensures of_set { IfSome result (λ t. IsOfSet extents.now t) }
        ensures exact { (t : VolumeTable) → Spell from.now t → IsOfSet extents.now t → result ≡ Some t }
    {
        let version = read_version(extents.format, from)?;
        let records = read_records(version, from)?;
        let owners = read_extents(version, from)?;
        let dirty = read_dirty(version, from);
        if !are_free_from(&owners, extents.count)
            || !is_table(extents, version, &records, &owners)
        {
            return None;
        }
        if !are_clean_beyond(version, &dirty, extents.count) {
            return None;
        }
        Some(VolumeTable {
            version,
            records,
            extents: owners,
            dirty,
        })
    }
}
