//! The ids of which superblocks stand on five devices, one after another: by two reads of each device that is up.
use super::{Id, id_above};
use crate::testing::{
    ID, OTHER_ID, bank_of, devices, fails_at, put_sector, same, superblock, take,
};
use sector_model::{Bank, Image, Plan};
use std::process::Abort;

// An id that begins with this byte.
fn begun(first: u8) -> Id {
    let mut id = [0; 16];
    id[0] = first;
    id
}

// Five devices of two sectors, onto which superblocks of generation 1 or 2 are put: the slot, the role, the generation
// and the id of each.
fn image_of(rt: &(impl Abort + AllocGlobal), puts: &[(u8, u8, u8, Id)]) -> Image {
    let mut image = devices(rt, &[2; 5], 0);
    for (slot, role, generation, id) in puts {
        let mut sector = superblock(*generation, 32, *role);
        sector[8..24].copy_from_slice(id);
        put_sector(
            rt,
            &mut image,
            *slot as usize,
            *generation as usize % 2,
            &sector,
        );
    }
    image
}

// Checks which id follows an id on these devices, of which one fails at its second read, where there is such a slot.
fn check(
    rt: &(impl Abort + AllocGlobal),
    puts: &[(u8, u8, u8, Id)],
    above: Option<Id>,
    wanted: Option<Id>,
) {
    let mut bank = bank_of(rt, image_of(rt, puts), Plan::NONE, 0);
    let found = id_above(&mut bank, &above).expect(rt, "calls are counted");
    same(rt, (found, bank.now()), (wanted, 2 * 5));
}

#[test]
fn ids_rise(rt: HostRuntime) {
    let puts = [
        (0, 0, 2, OTHER_ID),
        (0, 0, 1, begun(7)),
        (1, 1, 1, ID),
        (2, 2, 2, begun(7)),
        (4, 4, 1, begun(1)),
        // In the wrong slot, and so of no set.
        (3, 2, 1, begun(2)),
    ];
    check(&rt, &puts, None, Some(ID));
    check(&rt, &puts, Some(ID), Some(begun(1)));
    check(&rt, &puts, Some(begun(1)), Some(begun(7)));
    check(&rt, &puts, Some(begun(7)), Some(OTHER_ID));
    check(&rt, &puts, Some(OTHER_ID), None);
    check(&rt, &[], None, None);
}

#[test]
fn devices_that_are_away_or_fail(rt: HostRuntime) {
    let puts = [(0, 0, 1, ID), (1, 1, 1, begun(7))];
    let mut image = image_of(&rt, &puts);
    take(&rt, &mut image, 0);
    let mut bank = bank_of(&rt, image, Plan::NONE, 0);
    let found = id_above(&mut bank, &None).expect(&rt, "calls are counted");
    same(&rt, (found, bank.now()), (Some(begun(7)), 2 * 4));
    let plan = fails_at(&rt, &[0], 1);
    let mut bank = bank_of(&rt, image_of(&rt, &puts), plan, 0);
    let found = id_above(&mut bank, &None).expect(&rt, "calls are counted");
    same(&rt, (found, bank.now()), (Some(begun(7)), 2 * 5));
}
