//! A table of version 2 with 64 volumes, whose names are 63 bytes long, and 1,024 extents.
use super::*;

// The name of a volume: 61 bytes `n`, and two by its number, below 64.
fn name_of(number: u8) -> [u8; 63] {
    let mut name = [b'n'; 63];
    name[61] = b'a' + number / 8;
    name[62] = b'0' + number % 8;
    name
}

// Writes the record of a volume, of 1,024 blocks: 63, the name, and the blocks after that.
fn put_record(sector: &mut Sector, at: usize, number: u8) {
    put(sector, at, &[63]);
    put(sector, at.saturating_add(1), &name_of(number));
    put(sector, at.saturating_add(64), &[0, 4, 0, 0]);
}

// Writes the records of 64 volumes, 4 a sector.
fn put_records(sectors: &mut [Sector; 25]) {
    for number in 0..64u8 {
        let place = usize::from(number);
        put_record(&mut sectors[1 + place / 4], 128 * (place % 4), number);
    }
}

// Who has an extent: the volumes take turns, so that each has its 16 extents 64 apart.
fn owner_of(extent: u16) -> Owned {
    Owned {
        volume: (extent % 64) as u8,
        place: extent / 64,
    }
}

// Writes the entries of 1,024 extents, 128 a sector: the volume's number plus 1, and the place.
fn put_entries(sectors: &mut [Sector; 25]) {
    for extent in 0..1024u16 {
        let entry = [(extent % 64) as u8 + 1, 0, (extent / 64) as u8, 0];
        let place = usize::from(extent);
        put(&mut sectors[17 + place / 128], 4 * (place % 128), &entry);
    }
}

// The sectors of the table.
fn full_sectors() -> [Sector; 25] {
    let mut sectors = [[0; 512]; 25];
    sectors[0][0] = 1;
    put_records(&mut sectors);
    put_entries(&mut sectors);
    sectors
}

// Whether it is the record of a volume.
fn is_record_of(record: &Option<Record>, number: u8) -> bool {
    match record {
        Some(record) => {
            record.blocks == 1_024 && record.name.bytes() == name_of(number).as_slice()
        }
        None => false,
    }
}

// Checks that the table has the 64 records.
fn check_full_records(rt: &impl Abort, records: &[Option<Record>; 64]) {
    for number in 0..64u8 {
        let is_so = is_record_of(&records[usize::from(number)], number);
        same(rt, (number, is_so), (number, true));
    }
}

// Checks that the table has the 1,024 owners.
fn check_full_owners(rt: &impl Abort, extents: &[Option<Owned>; 1024]) {
    for extent in 0..1024u16 {
        let owner = extents[usize::from(extent)];
        same(rt, (extent, owner), (extent, Some(owner_of(extent))));
    }
}

#[test]
fn full_table(rt: HostRuntime) {
    let sectors = full_sectors();
    let table = VolumeTable::decode(&sectors, &extents_of_64(1024)).expect(
        &rt,
        "the sectors are a table's",
    );
    same(&rt, table.version, 2);
    check_full_records(&rt, &table.records);
    check_full_owners(&rt, &table.extents);
    check_sectors(&rt, &table, &sectors);
}

#[test]
fn full_table_of_a_smaller_set(rt: HostRuntime) {
    let table = VolumeTable::decode(&full_sectors(), &extents_of_64(1023));
    same(&rt, table.is_some(), false);
}
