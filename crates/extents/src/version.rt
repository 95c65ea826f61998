//! What the version of a table of volumes decides: docs/FORMATS.md, "Volume table".
ghost use Rattle.std.specs.Prelude.{◌≡◌, ◌↔◌, ◌≤◌, ℕ, IfSome, IsTrue, Some, drop};
ghost use Rattle.extents.specs.Versions.{IsBegunBy, IsVersion, IsVersionIn, most_volumes, most_name_bytes};
ghost use Rattle.extents.specs.Versions.{upgraded_version};
ghost use Rattle.extents.specs.Versions.{tells_dirty, version_byte};
ghost use Rattle.extents.specs.Versions.{record_width, records_a_sector, record_sectors, blocks_at, table_length};
ghost use Rattle.extents.specs.TableSpelling.{zeros, first_sector};

use layout_map::Format;
use sector_model::Sector;

/// The version of the table of a set of format 1 that was just made.
pub const FIRST_VERSION: u8 = 1;

/// The greatest version of the table of a set of format 1.
pub const LAST_VERSION: u8 = 2;

/// The version of the table of each set of format 2.
pub const LARGE_VERSION: u8 = 3;

/// The version of a table after an upgrade: 2 for 1, and the same one for each other.
pub fn upgraded_version(version: u8) -> u8
    ensures { result ≡ upgraded_version version }
{
    if version == FIRST_VERSION {
        LAST_VERSION
    } else {
        version
    }
}

/// Whether a table of this version tells which extents are dirty, as version 3 does. In the others all are.
pub(crate) fn tells_dirty(version: u8) -> bool
    ensures { result ≡ tells_dirty version }
{
    version == LARGE_VERSION
}

/// The most volumes in a table of this version: 32 in version 1, and 64 in versions 2 and 3.
pub fn most_volumes(version: u8) -> usize
    ensures { result ≡ most_volumes version }
{
    if version == FIRST_VERSION { 32 } else { 64 }
}

/// The most bytes of a name in a table of this version: 24 in version 1, and 63 in versions 2 and 3.
pub fn most_name_bytes(version: u8) -> usize
    ensures { result ≡ most_name_bytes version }
{
    if version == FIRST_VERSION { 24 } else { 63 }
}

/// The sectors that a table of this version fills: 11 in version 1, and 25 in versions 2 and 3.
pub fn table_length(version: u8) -> usize
    ensures { result ≡ table_length version }
{
    1 + record_sectors(version) + 8
}

// Whether each byte after the first is zero.
fn is_zero_beyond(first: &Sector) -> bool
    ensures { IsTrue result ↔ (drop 1 first.now ≡ zeros 511) }
{
    &first[1..] == [0; 511].as_slice()
}

// The version of a set of this format whose tables begin with this byte. None where there is none.
fn version_from(format: Format, byte: u8) -> Option<u8>
    ensures some { IfSome result (IsBegunBy format byte) }
    ensures exact { (version : ℕ) → IsBegunBy format byte version → result ≡ Some version }
{
    match format {
        Format::One => {
            if byte < LAST_VERSION {
                Some(byte + 1)
            } else {
                None
            }
        }
        Format::Two => { if byte == 0 { Some(LARGE_VERSION) } else { None } }
    }
}

/// The version of the table that begins with this sector, in a set of this format. `None` where a table of no version
/// of the format does.
pub fn version_of(format: Format, first: &Sector) -> Option<u8>
    ensures some { IfSome result (λ version. IsVersionIn format version × (first.now ≡ first_sector version)) }
    ensures exact { (version : ℕ) → IsVersionIn format version → first.now ≡ first_sector version
        → result ≡ Some version }
{
    if !is_zero_beyond(first) {
        return None;
    }
    version_from(format, first[0])
}

/// The first byte of a table of this version.
pub(crate) fn version_byte(version: u8) -> u8
    requires { IsVersion version }
    ensures { result ≡ version_byte version }
{
    if tells_dirty(version) { 0 } else { version - 1 }
}

/// The bytes of a record.
pub(crate) fn record_width(version: u8) -> usize
    ensures number { result ≡ record_width version }
    ensures most { result ≤ 128 }
{
    if version == FIRST_VERSION { 32 } else { 128 }
}

/// The records in a sector.
pub(crate) fn records_a_sector(version: u8) -> usize
    ensures number { result ≡ records_a_sector version }
    ensures some { 1 ≤ result }
    ensures most { result ≤ 16 }
{
    if version == FIRST_VERSION { 16 } else { 4 }
}

/// The sectors of records.
pub(crate) fn record_sectors(version: u8) -> usize
    ensures number { result ≡ record_sectors version }
    ensures most { result ≤ 16 }
{
    if version == FIRST_VERSION { 2 } else { 16 }
}

/// Where a record has its number of blocks.
pub(crate) fn blocks_at(version: u8) -> usize
    ensures number { result ≡ blocks_at version }
    ensures most { result ≤ 64 }
{
    if version == FIRST_VERSION { 28 } else { 64 }
}
