//! Commands over a bank that shows how far they are.
use super::{SET_A, bank_of, fresh_store, fresh_store_on, image_now};
use crate::testing::streams::{Full, Script, WHOLE};
use crate::testing::{ID, same};
use crate::{
    Left, Meter, ProgressBank, Speed, average_speed, in_words, open_on, percent, run_script,
    time_left,
};
use layout_map::{Format, Geometry};
use recovery::make;
use sector_model::{Bank, Choice, Image, MemBank};
use std::cell::Cell;
use std::process::Abort;
use stripe_journal::Entry;
use volume_table::Store;

/// How many times a screen keeps what it shows.
const MOST: usize = 16;

/// Keeps what is shown on it. Its clock goes on by so many milliseconds each time that it is looked at, or nobody
/// watches.
#[derive(Drop)]
struct Screen {
    tick: Option<u64>,
    millis: Cell<u64>,
    percents: Cell<[u8; MOST]>,
    speeds: Cell<[Option<Speed>; MOST]>,
    lefts: Cell<[Option<Left>; MOST]>,
    shows: Cell<usize>,
    clears: Cell<u64>,
}

impl Screen {
    fn new(tick: Option<u64>) -> Screen {
        Screen {
            tick,
            millis: Cell::new(7),
            percents: Cell::new([0; MOST]),
            speeds: Cell::new([None; MOST]),
            lefts: Cell::new([None; MOST]),
            shows: Cell::new(0),
            clears: Cell::new(0),
        }
    }

    // Asks that these percents were shown, and nothing else, and how often they were taken away.
    fn check(&self, rt: &impl Abort, percents: &[u8], clears: u64) {
        let all = self.percents.get();
        let shows = self.shows.get();
        assert!(rt; shows <= MOST);
        same(rt, (&all[..shows], self.clears.get()), (percents, clears));
    }
}

impl Meter for Screen {
    ghost use Rattle.std.specs.Prelude.{⊤};

    ghost reads = { λ _ _. ⊤ };

    fn millis(&self) -> Option<u64> {
        let tick = self.tick?;
        self.millis.set(self.millis.get().saturating_add(tick));
        Some(self.millis.get())
    }

    fn show(&self, percent: u8, speed: Option<Speed>, left: Option<Left>) {
        let place = self.shows.get();
        if place < MOST {
            let mut percents = self.percents.get();
            percents[place] = percent;
            self.percents.set(percents);
            let mut speeds = self.speeds.get();
            speeds[place] = speed;
            self.speeds.set(speeds);
            let mut lefts = self.lefts.get();
            lefts[place] = left;
            self.lefts.set(lefts);
        }
        self.shows.set(place.saturating_add(1));
    }

    fn clear(&self) {
        self.clears.set(self.clears.get().saturating_add(1));
    }
}

// The geometry of set A.
fn geometry(rt: &impl Abort) -> Geometry {
    Geometry::new(3, 8, SET_A).expect(rt, "a geometry")
}

// The devices of set A, each full of this byte.
fn devices(rt: &(impl Abort + AllocGlobal), byte: u8) -> Image {
    let mut slots = Vec::new(rt.alloc());
    for sectors in [264, 264, 264, 520, 520] {
        let disk = vec![in rt.alloc(); [byte; 512]; sectors].expect(rt, "memory");
        slots.push(Some(disk)).expect(rt, "memory");
    }
    Image { slots }
}

// Makes set A on a bank with such devices that is watched on a screen, by so many calls.
fn made_on(rt: &(impl Abort + AllocGlobal), screen: &Screen, byte: u8, calls: u64) {
    let geometry = geometry(rt);
    let (bank, entry) = bank_of(rt, devices(rt, byte));
    let bank = ProgressBank::over(bank, screen, &geometry);
    let array = make(bank, entry, ID, geometry).ok().expect(rt, "a set");
    same(rt, (array.bank.now(), screen.clears.get()), (calls, 0));
}

// On devices that are in use each row is read and written, and counts once: 128 sectors in 200 milliseconds, and so on.
#[test]
fn a_set_that_is_made(rt: HostRuntime) {
    for (byte, calls) in [(0, 797), (0xee, 797 + 782)] {
        let screen = Screen::new(Some(100));
        made_on(&rt, &screen, byte, calls);
        screen.check(&rt, &[16, 33, 50, 66, 83, 100], 1);
        let speeds = screen.speeds.get();
        same(&rt, &speeds[..6], &[Some(Speed::Tenths(3)); 6]);
        let lefts = screen.lefts.get();
        same(&rt, lefts[0], Some(Left::Seconds(1)));
        same(&rt, lefts[5], Some(Left::Seconds(0)));
    }
}

// What takes less than the least time between two shows is shown once it is done, with no speed where no time has
// passed.
#[test]
fn a_set_that_is_made_at_once(rt: HostRuntime) {
    for (tick, speed) in [(0, None), (1, Some(Speed::Whole(32)))] {
        let screen = Screen::new(Some(tick));
        made_on(&rt, &screen, 0, 797);
        screen.check(&rt, &[100], 1);
        same(&rt, screen.speeds.get()[0], speed);
    }
}

#[test]
fn nothing_is_shown_where_nobody_watches(rt: HostRuntime) {
    let screen = Screen::new(None);
    made_on(&rt, &screen, 0, 797);
    screen.check(&rt, &[], 0);
}

#[test]
fn a_scrub(rt: HostRuntime) {
    let screen = Screen::new(Some(100));
    let store = fresh_store(&rt, SET_A);
    let (bank, entry) = bank_of(&rt, image_now(&rt, &store));
    let bank = ProgressBank::of_scrub(bank, &screen, ID);
    {
        let mut store = open_on(bank, entry, ID).expect(&rt, "a store");
        let report = store.scrub().expect(&rt, "a complete set");
        same(&rt, (report.rows, report.bad), (256, 0));
    }
    screen.check(&rt, &[16, 33, 50, 66, 83, 100], 1);
}

// Two steps of a rebuild from row 64 on, of four that are left at most.
#[test]
fn steps_of_a_rebuild(rt: HostRuntime) {
    let screen = Screen::new(Some(100));
    let mut store = fresh_store(&rt, SET_A);
    store.fail(2).expect(&rt, "a slot given up");
    store.replace(2).expect(&rt, "a slot replaced");
    store.rebuild_step(64).expect(&rt, "a step");
    let (bank, entry) = bank_of(&rt, image_now(&rt, &store));
    let bank = ProgressBank::of_rebuild(bank, &screen, ID, Some(2));
    {
        let mut store = open_on(bank, entry, ID).expect(&rt, "a store");
        store.rebuild_step(64).expect(&rt, "a step");
        store.rebuild_step(64).expect(&rt, "a step");
    }
    screen.check(&rt, &[33, 66, 100], 1);
}

// A step of a rebuild of format 2 has up to 4,096 rows, so it does all 256.
#[test]
fn a_step_of_a_rebuild_of_format_2(rt: HostRuntime) {
    let screen = Screen::new(Some(100));
    let geometry = Geometry::of_format(Format::Two, 3, 8, SET_A).expect(&rt, "a geometry");
    let mut store = fresh_store_on(&rt, ID, geometry);
    store.fail(2).expect(&rt, "a slot given up");
    store.replace(2).expect(&rt, "a slot replaced");
    let (bank, entry) = bank_of(&rt, image_now(&rt, &store));
    let bank = ProgressBank::of_rebuild(bank, &screen, ID, Some(1));
    {
        let mut store = open_on(bank, entry, ID).expect(&rt, "a store");
        store.rebuild_step(4_096).expect(&rt, "a step");
    }
    screen.check(&rt, &[16, 33, 50, 66, 83, 100], 1);
}

// The set of another id is not this one, and nothing is known of how far a command over it is.
#[test]
fn a_set_of_another_id(rt: HostRuntime) {
    let screen = Screen::new(Some(100));
    let store = fresh_store(&rt, SET_A);
    let (bank, entry) = bank_of(&rt, image_now(&rt, &store));
    let bank = ProgressBank::of_scrub(bank, &screen, [0; 16]);
    {
        let mut store = open_on(bank, entry, ID).expect(&rt, "a store");
        same(&rt, store.scrub().is_ok(), true);
    }
    screen.check(&rt, &[], 0);
}

static SCRIPT: &[u8] =
    b"create a 64\nwrite a 0 5a*512 66*512\nread a 0 3\nwrite a 9 22*512\nread a 9 1\n";

// The replies to the script over a set on this bank, and the store that they leave.
fn replies<B: Bank + Drop>(
    rt: &(impl Abort + AllocGlobal),
    mut store: Store<B>,
) -> (Store<B>, Vec<u8>) {
    let mut reader = Script::new(SCRIPT, WHOLE);
    let mut out = Full {
        text: Vec::new(rt.alloc()),
        room: WHOLE,
    };
    same(
        rt,
        run_script(rt.alloc(), &mut reader, &mut out, &mut store),
        Ok(()),
    );
    (store, out.text)
}

// The devices that a bank leaves, where all that was written has landed.
fn left(rt: &(impl Abort + AllocGlobal), bank: &MemBank) -> Image {
    let call = bank.now();
    assert!(rt; call <= bank.now());
    let crash = bank.image_after(rt.alloc(), call, Choice::Newest);
    crash.expect(rt, "memory")
}

// A bank with the devices of fresh set A whose device in slot 2 goes down at the call of this number.
fn failing_bank(rt: &(impl Abort + AllocGlobal), fails_at: u64) -> (MemBank, Entry) {
    let (mut bank, entry) = bank_of(rt, image_now(rt, &fresh_store(rt, SET_A)));
    bank.plan.down[2] = Some(fails_at);
    (bank, entry)
}

// A progress bank answers as a plain one: the same replies come of it, the same bytes, as many calls and the same
// devices down.
fn is_alike(rt: &(impl Abort + AllocGlobal), fails_at: u64) {
    let (bank, entry) = failing_bank(rt, fails_at);
    let store = open_on(bank, entry, ID).expect(rt, "a store");
    let (plain, plain_text) = replies(rt, store);
    let screen = Screen::new(Some(100));
    let (bank, entry) = failing_bank(rt, fails_at);
    let bank = ProgressBank::of_scrub(bank, &screen, ID);
    let store = open_on(bank, entry, ID).expect(rt, "a store");
    let (progress_bank, text) = replies(rt, store);
    same(rt, text.as_slice(), plain_text.as_slice());
    let (plain, progress_bank) = (&plain.array.bank, &progress_bank.array.bank.bank);
    same(rt, (fails_at, plain.now()), (fails_at, progress_bank.now()));
    for slot in 0..5 {
        assert!(rt; slot < progress_bank.devices() && slot < plain.devices());
        same(rt, progress_bank.is_down(slot), plain.is_down(slot));
    }
    assert!(rt; left(rt, progress_bank).slots == left(rt, plain).slots);
}

#[test]
fn answers_of_a_progress_bank(rt: HostRuntime) {
    for fails_at in [0, 20, 35, 60, 80, u64::MAX] {
        is_alike(&rt, fails_at);
    }
}

#[test]
fn parts_of_a_whole(rt: HostRuntime) {
    for (done, total, part) in [
        (0, 0, 100),
        (0, 1, 0),
        (1, 3, 33),
        (199, 200, 99),
        (u64::MAX - 1, u64::MAX, 99),
        (5, 4, 100),
    ] {
        same(
            &rt,
            (done, total, percent(done, total)),
            (done, total, part),
        );
    }
}

#[test]
fn times_that_are_left(rt: HostRuntime) {
    same(&rt, time_left(10, 0, 5), None);
    same(&rt, time_left(1_000, 1, 4), Some(3_000));
    same(&rt, time_left(7, 3, 5), Some(4));
    same(&rt, time_left(7, 5, 5), Some(0));
    same(&rt, time_left(u64::MAX, 1, u64::MAX), Some(u64::MAX));
    same(&rt, in_words(119_999), Left::Seconds(119));
    same(&rt, in_words(120_000), Left::Minutes(2));
    same(&rt, in_words(7_199_999), Left::Minutes(119));
    same(&rt, in_words(7_200_000), Left::Hours(2));
}

// 15,625 sectors are 8,000,000 bytes.
#[test]
fn speeds(rt: HostRuntime) {
    for (elapsed, done, found) in [
        (0, 5, None),
        (5, 0, None),
        (800, 15_625, Some(Speed::Whole(10))),
        (801, 15_625, Some(Speed::Tenths(99))),
        (1_904, 15_625, Some(Speed::Tenths(42))),
        (1_905, 15_625, Some(Speed::Tenths(41))),
        (8, 15_625, Some(Speed::Whole(1_000))),
        (u64::MAX, 1, Some(Speed::Tenths(0))),
        (1, u64::MAX, Some(Speed::Whole(9_444_732_965_739_290_426))),
    ] {
        same(&rt, average_speed(elapsed, done), found);
    }
}
