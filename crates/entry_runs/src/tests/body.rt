//! Which sectors runs hold, and where they stand in a body, by the journal sectors of the two halves: 8 and 4,104.
use super::*;

// Of a row and a member: whether it is held in a set with so many members, and the journal sector in which its body has
// it, where it begins with this one.
fn stands(
    rt: &impl Abort,
    runs: &Runs,
    members: u8,
    row: u64,
    member: u8,
    start: u32,
) -> (bool, Option<u32>) {
    assert!(rt; member < 8 && start <= 4104);
    let held = runs.holds(members, row, member);
    let place = match runs.place_in_body(row, member) {
        None => None,
        Some(place) => {
            assert!(rt; place < 4096);
            Some(start + place)
        }
    };
    (held, place)
}

// The runs of entry 7, of which a set of 5 members has a body from sector 4,104 on.
fn entry_7(rt: &impl Abort) -> Runs {
    runs_of(
        rt,
        &[
            [0x80, 0x00, 0x00, 0x00, 0x00, 0x3c, 0x00, 0x0e],
            [0xbc, 0x00, 0x00, 0x00, 0x00, 0x44, 0x00, 0x0f],
            [0x00, 0x01, 0x00, 0x00, 0x00, 0x80, 0x01, 0x1f],
            [0x80, 0x02, 0x00, 0x00, 0x00, 0x3c, 0x00, 0x13],
            [0xbc, 0x02, 0x00, 0x00, 0x00, 0x44, 0x00, 0x11],
        ],
    )
}

#[test]
fn entry_7_row_128_member_1(rt: HostRuntime) {
    let runs = entry_7(&rt);
    same(&rt, stands(&rt, &runs, 5, 128, 1, 4104), (true, Some(4104)));
}

#[test]
fn entry_7_row_187_member_3(rt: HostRuntime) {
    let runs = entry_7(&rt);
    same(&rt, stands(&rt, &runs, 5, 187, 3, 4104), (true, Some(4283)));
}

#[test]
fn entry_7_row_188_member_0(rt: HostRuntime) {
    let runs = entry_7(&rt);
    same(&rt, stands(&rt, &runs, 5, 188, 0, 4104), (true, Some(4284)));
}

#[test]
fn entry_7_row_255_member_3(rt: HostRuntime) {
    let runs = entry_7(&rt);
    same(&rt, stands(&rt, &runs, 5, 255, 3, 4104), (true, Some(4555)));
}

#[test]
fn entry_7_row_256_member_0(rt: HostRuntime) {
    let runs = entry_7(&rt);
    same(&rt, stands(&rt, &runs, 5, 256, 0, 4104), (true, Some(4556)));
}

#[test]
fn entry_7_row_639_member_4(rt: HostRuntime) {
    let runs = entry_7(&rt);
    same(&rt, stands(&rt, &runs, 5, 639, 4, 4104), (true, Some(6475)));
}

#[test]
fn entry_7_row_640_member_0(rt: HostRuntime) {
    let runs = entry_7(&rt);
    same(&rt, stands(&rt, &runs, 5, 640, 0, 4104), (true, Some(6476)));
}

#[test]
fn entry_7_row_699_member_4(rt: HostRuntime) {
    let runs = entry_7(&rt);
    same(&rt, stands(&rt, &runs, 5, 699, 4, 4104), (true, Some(6655)));
}

#[test]
fn entry_7_row_700_member_0(rt: HostRuntime) {
    let runs = entry_7(&rt);
    same(&rt, stands(&rt, &runs, 5, 700, 0, 4104), (true, Some(6656)));
}

#[test]
fn entry_7_row_767_member_4(rt: HostRuntime) {
    let runs = entry_7(&rt);
    same(&rt, stands(&rt, &runs, 5, 767, 4, 4104), (true, Some(6791)));
}

#[test]
fn entry_7_row_128_member_0(rt: HostRuntime) {
    let runs = entry_7(&rt);
    same(&rt, stands(&rt, &runs, 5, 128, 0, 4104), (false, None));
}

#[test]
fn entry_7_row_128_member_2(rt: HostRuntime) {
    let runs = entry_7(&rt);
    same(&rt, stands(&rt, &runs, 5, 128, 2, 4104), (true, Some(4105)));
}

#[test]
fn entry_7_row_640_member_2(rt: HostRuntime) {
    let runs = entry_7(&rt);
    same(&rt, stands(&rt, &runs, 5, 640, 2, 4104), (false, None));
}

#[test]
fn entry_7_row_768_member_0(rt: HostRuntime) {
    let runs = entry_7(&rt);
    same(&rt, stands(&rt, &runs, 5, 768, 0, 4104), (false, None));
}

// The runs of entry 2, of which a set of 3 members has a body from sector 8 on.
fn entry_2(rt: &impl Abort) -> Runs {
    runs_of(
        rt,
        &[
            [0x20, 0x00, 0x00, 0x00, 0x00, 0x08, 0x00, 0x00],
            [0x28, 0x00, 0x00, 0x00, 0x00, 0x08, 0x00, 0x07],
            [0x30, 0x00, 0x00, 0x00, 0x00, 0x10, 0x00, 0x00],
        ],
    )
}

#[test]
fn entry_2_row_32_member_0(rt: HostRuntime) {
    let runs = entry_2(&rt);
    same(&rt, stands(&rt, &runs, 3, 32, 0, 8), (true, None));
}

#[test]
fn entry_2_row_40_member_0(rt: HostRuntime) {
    let runs = entry_2(&rt);
    same(&rt, stands(&rt, &runs, 3, 40, 0, 8), (true, Some(8)));
}

#[test]
fn entry_2_row_40_member_1(rt: HostRuntime) {
    let runs = entry_2(&rt);
    same(&rt, stands(&rt, &runs, 3, 40, 1, 8), (true, Some(9)));
}

#[test]
fn entry_2_row_41_member_0(rt: HostRuntime) {
    let runs = entry_2(&rt);
    same(&rt, stands(&rt, &runs, 3, 41, 0, 8), (true, Some(11)));
}

#[test]
fn entry_2_row_47_member_2(rt: HostRuntime) {
    let runs = entry_2(&rt);
    same(&rt, stands(&rt, &runs, 3, 47, 2, 8), (true, Some(31)));
}

#[test]
fn entry_2_row_48_member_1(rt: HostRuntime) {
    let runs = entry_2(&rt);
    same(&rt, stands(&rt, &runs, 3, 48, 1, 8), (true, None));
}

#[test]
fn entry_2_row_64_member_0(rt: HostRuntime) {
    let runs = entry_2(&rt);
    same(&rt, stands(&rt, &runs, 3, 64, 0, 8), (false, None));
}

// The runs of entry 3, of which a set of 3 members has a body from sector 4,104 on.
fn entry_3(rt: &impl Abort) -> Runs {
    runs_of(
        rt,
        &[
            [0x20, 0x00, 0x00, 0x00, 0x00, 0x01, 0x00, 0x06],
            [0x22, 0x00, 0x00, 0x00, 0x00, 0x01, 0x00, 0x03],
        ],
    )
}

#[test]
fn entry_3_row_32_member_0(rt: HostRuntime) {
    let runs = entry_3(&rt);
    same(&rt, stands(&rt, &runs, 3, 32, 0, 4104), (false, None));
}

#[test]
fn entry_3_row_32_member_1(rt: HostRuntime) {
    let runs = entry_3(&rt);
    same(&rt, stands(&rt, &runs, 3, 32, 1, 4104), (true, Some(4104)));
}

#[test]
fn entry_3_row_32_member_2(rt: HostRuntime) {
    let runs = entry_3(&rt);
    same(&rt, stands(&rt, &runs, 3, 32, 2, 4104), (true, Some(4105)));
}

#[test]
fn entry_3_row_34_member_0(rt: HostRuntime) {
    let runs = entry_3(&rt);
    same(&rt, stands(&rt, &runs, 3, 34, 0, 4104), (true, Some(4106)));
}

#[test]
fn entry_3_row_34_member_1(rt: HostRuntime) {
    let runs = entry_3(&rt);
    same(&rt, stands(&rt, &runs, 3, 34, 1, 4104), (true, Some(4107)));
}
