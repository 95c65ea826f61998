//! Members of a set of three, read from their own devices or from the others'.
ghost use Rattle.std.specs.Prelude.{◌≡◌, ◌≤◌, ◌<◌, ◌+◌, ℕ, IfSome, false};
ghost use Rattle.degraded.specs.LiveView.{AtMostOneOut, slots_of};

use crate::testing::same;
use crate::{Live, read_member};
use sector_model::{Bank, Image, MemBank, Plan, Sector, Stop};
use std::process::Abort;

// What the devices have in row 3, and in row 4. 11 xor 33 is 22, and 44 xor 77 is 33: neither row is sound, so that a
// sector that was read and one that was worked out differ.
const ROW_3: [u8; 5] = [0x11, 0x25, 0x33, 0xee, 0xee];

const ROW_4: [u8; 5] = [0x44, 0x99, 0x77, 0xee, 0xee];

// A sector of one value.
fn all_of(byte: u8) -> Sector {
    [byte; 512]
}

// A bank of three members, which have five rows, and of two further devices.
fn bank_of_three(rt: &(impl Abort + AllocGlobal), plan: Plan) -> MemBank {
    let alloc = rt.alloc();
    let mut slots = Vec::new(alloc);
    for slot in 0..5usize {
        let mut device = vec![in alloc; all_of(0xee); 13].expect(rt, "memory");
        device[11] = all_of(ROW_3[slot]);
        device[12] = all_of(ROW_4[slot]);
        slots.push(Some(device)).expect(rt, "memory");
    }
    assert!(rt; slots.len() == 5);
    MemBank::new(alloc, Image { slots }, plan, 100).expect(rt, "memory")
}

// The member of a set of three that may be out: whether it is live, and below which row it is rebuilding.
type Out = (u8, bool, Option<u64>);

const WHOLE: Out = (0, true, None);

fn set_of_three(out: u8, is_live: bool, position: Option<u64>) -> Live
    requires out { out < 3 }
    ensures members { result.members ≡ 3 }
    ensures one_out { AtMostOneOut (slots_of result) }
{
    let mut live = [true; 10];
    live[usize::from(out)] = is_live;
    Live {
        members: 3,
        live,
        rebuilding: rebuilding_at(out, position),
    }
}

fn rebuilding_at(member: u8, position: Option<u64>) -> Option<(u8, u64)>
    ensures { IfSome result (λ rebuilding. rebuilding.0 ≡ «member») }
{
    match position {
        Some(position) => Some((member, position)),
        None => None,
    }
}

// The row is one of each of three members that is up.
fn check_row<B: Bank>(rt: &impl Abort, bank: &B, row: u64)
    requires { row < 5 }
    ensures { (member : ℕ) → member < 3 → (B.panel bank.now).down member ≡ false
        → 8 + row < (B.panel bank.now).sectors member }
{
    assert!(rt; bank.devices() >= 3);
    for member in 0..3 {
        assert!(rt; bank.is_down(member) || u64::from(bank.sectors(member)) > 8 + row);
    }
}

// Which device is down at once, and which member of the set is out. Then the member and the row that are read, and the
// byte of which the sector is full, with the number of calls that it takes.
type Read = (u8, Out, (u8, u64), Result<(u8, u64), Stop>);

// No device of the bank.
const NONE: u8 = 9;

// What a read of a member's row gives, and how many calls it makes of a new bank.
fn read(
    rt: &impl Abort,
    bank: &mut MemBank,
    live: &Live,
    member: u8,
    row: u64,
) -> Result<(Sector, u64), Stop>
    requires members { live.now.members ≡ 3 }
    requires one_out { AtMostOneOut (slots_of live.now) }
{
    assert!(rt; member < 3 && row < 5);
    check_row(rt, bank, row);
    let mut sector = all_of(0xa5);
    read_member(bank, live, member, row, &mut sector)?;
    Ok((sector, bank.now()))
}

fn check_read(rt: &(impl Abort + AllocGlobal), (down, out, place, want): Read) {
    let (member, is_live, position) = out;
    assert!(rt; down < 10 && member < 3);
    let mut plan = Plan::NONE;
    plan.down[down as usize] = Some(0);
    let mut bank = bank_of_three(rt, plan);
    let live = set_of_three(member, is_live, position);
    let got = read(rt, &mut bank, &live, place.0, place.1);
    let want = match want {
        Ok((byte, calls)) => Ok((all_of(byte), calls)),
        Err(stop) => Err(stop),
    };
    same(rt, (down, out, place, got), (down, out, place, want));
}

fn check_reads(rt: &(impl Abort + AllocGlobal), reads: &[Read]) {
    for number in 0..reads.len() {
        check_read(rt, reads[number]);
    }
}

#[test]
fn a_whole_set_reads_own_sectors(rt: HostRuntime) {
    const READS: &[Read] = &[
        (NONE, WHOLE, (0, 3), Ok((0x11, 1))),
        (NONE, WHOLE, (1, 3), Ok((0x25, 1))),
        (NONE, WHOLE, (2, 3), Ok((0x33, 1))),
    ];
    check_reads(&rt, READS)
}

const WITHOUT_0: Out = (0, false, None);

const WITHOUT_1: Out = (1, false, None);

const WITHOUT_2: Out = (2, false, None);

#[test]
fn a_missing_member_is_worked_out(rt: HostRuntime) {
    // 25 xor 33 is 16, and 11 xor 25 is 34. The others are read directly, also the last member.
    const READS: &[Read] = &[
        (NONE, WITHOUT_0, (0, 3), Ok((0x16, 2))),
        (NONE, WITHOUT_0, (1, 3), Ok((0x25, 1))),
        (NONE, WITHOUT_0, (2, 3), Ok((0x33, 1))),
        (NONE, WITHOUT_1, (0, 3), Ok((0x11, 1))),
        (NONE, WITHOUT_1, (1, 3), Ok((0x22, 2))),
        (NONE, WITHOUT_1, (2, 3), Ok((0x33, 1))),
        (NONE, WITHOUT_2, (0, 3), Ok((0x11, 1))),
        (NONE, WITHOUT_2, (1, 3), Ok((0x25, 1))),
        (NONE, WITHOUT_2, (2, 3), Ok((0x34, 2))),
    ];
    check_reads(&rt, READS)
}

#[test]
fn a_rebuilding_member_is_read_below_its_position(rt: HostRuntime) {
    // The others are read directly, below and above.
    const BELOW_4: Out = (1, true, Some(4));
    const READS: &[Read] = &[
        (NONE, BELOW_4, (1, 3), Ok((0x25, 1))),
        (NONE, BELOW_4, (1, 4), Ok((0x33, 2))),
        (NONE, BELOW_4, (0, 3), Ok((0x11, 1))),
        (NONE, BELOW_4, (2, 4), Ok((0x77, 1))),
    ];
    check_reads(&rt, READS)
}

#[test]
fn a_device_that_is_down_is_named(rt: HostRuntime) {
    // The missing member's own device isn't called.
    const READS: &[Read] = &[
        (0, WHOLE, (0, 3), Err(Stop::Down(0))),
        (1, WHOLE, (1, 3), Err(Stop::Down(1))),
        (2, WHOLE, (2, 3), Err(Stop::Down(2))),
        (0, WITHOUT_1, (1, 3), Err(Stop::Down(0))),
        (1, WITHOUT_1, (1, 3), Ok((0x22, 2))),
        (2, WITHOUT_1, (1, 3), Err(Stop::Down(2))),
    ];
    check_reads(&rt, READS)
}
