//! A record of the table as bytes, and bytes as a record: 32 bytes in version 1, and 128 in version 2.
ghost use Rattle.std.specs.Prelude.{◌≡◌, ◌≤◌, ◌<◌, ℕ, length, IfSome, Some, None, List, Option, slice_index_or};
ghost use Rattle.std.specs.List.{flat_map};
ghost use Rattle.extents.specs.declared.record.Record.{Record};
ghost use Rattle.extents.specs.TableSpelling.{zeros, used_bytes, record_bytes};
ghost use Rattle.extents.specs.Versions.{most_name_bytes, record_width, records_a_sector};
ghost use Rattle.extents.specs.VolumeTables.{IsShort};

use crate::version::{blocks_at, most_name_bytes, record_width};
use crate::{Name, Record};
use byteorder::{ByteOrder, LittleEndian};
use sector_model::Sector;

// The bytes of a record of the greatest version.
const MOST_WIDTH: usize = 128;

// Writes a record in use over zeros.
fn write_used(version: u8, used: &Record, to: &mut [u8])
    requires short { length used.now.name.bytes.items ≤ most_name_bytes version }
    requires clear { to.old ≡ zeros (record_width version) }
    ensures { to.new ≡ used_bytes version used.now }
{
    let name = used.name.bytes();
    to[0] = name.len() as u8;
    to[1..1 + name.len()].copy_from_slice(name);
    let at = blocks_at(version);
    LittleEndian::write_u32(&mut to[at..at + 4], used.blocks);
}

// Writes a record, over whatever the bytes held.
fn write_record(version: u8, one: &Option<Record>, to: &mut [u8])
    requires short { IsShort version one.now }
    requires long { length to.old ≡ record_width version }
    ensures { to.new ≡ record_bytes version one.now }
{
    to.fill(0);
    if let Some(used) = one {
        write_used(version, used, to);
    }
}

// The record in use whose fields stand in these bytes, if they are a record's. It looks at no byte outside the fields.
fn read_used(version: u8, from: &[u8]) -> Option<Record>
    requires { length from.now ≡ record_width version }
    ensures short { IfSome result (λ r. length r.name.bytes.items ≤ most_name_bytes version) }
    ensures exact { (r : Record) → length r.name.bytes.items ≤ most_name_bytes version → from.now ≡ used_bytes version r
        → result ≡ Some r }
{
    let length = usize::from(from[0]);
    if length > most_name_bytes(version) {
        return None;
    }
    let name = Name::new(&from[1..1 + length])?;
    let at = blocks_at(version);
    let blocks = LittleEndian::read_u32(&from[at..at + 4]);
    if blocks < 1 {
        return None;
    }
    Some(Record { name, blocks })
}

// The record whose fields stand in these bytes, if they are a record's.
fn record_in(version: u8, from: &[u8]) -> Option<Option<Record>>
    requires { length from.now ≡ record_width version }
    ensures short { IfSome result (λ r. IsShort version r) }
    ensures exact { (r : Option Record) → IsShort version r → from.now ≡ record_bytes version r → result ≡ Some r }
{
    if from[0] == 0 {
        return Some(None);
    }
    Some(Some(read_used(version, from)?))
}

/// The record that these bytes spell, None in it for one that is not used. None where they spell no record of this
/// version.
pub fn read_record(version: u8, from: &[u8]) -> Option<Option<Record>>
    requires { length from.now ≡ record_width version }
    ensures short { IfSome result (λ r. IsShort version r) }
    ensures some { IfSome result (λ r. from.now ≡ record_bytes version r) }
    ensures exact { (r : Option Record) → IsShort version r → from.now ≡ record_bytes version r → result ≡ Some r }
{
    let one = record_in(version, from)?;
    let width = record_width(version);
    let mut again = [0; MOST_WIDTH];
    write_record(version, &one, &mut again[..width]);
    if &again[..width] == from {
        Some(one)
    } else {
        None
    }
}

/// Writes a sector of records, over whatever the sector held.
pub fn write_records(version: u8, records: &[Option<Record>], to: &mut Sector)
    requires long { length records.now ≡ records_a_sector version }
    requires short { (number : ℕ) → number < length records.now
        → IsShort version (slice_index_or records.now number None) }
    ensures { to.new ≡ flat_map (record_bytes version) records.now }
{
    let width = record_width(version);
    for (number, record) in records.iter().enumerate() {
        let at = width * number;
        write_record(version, record, &mut to[at..at + width]);
    }
}
