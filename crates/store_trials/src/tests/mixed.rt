//! Mixed lists of calls with an upgrade in the middle, beside a plain map of the volumes: each call answers as the map
//! says, and the volumes are those of the map, in this run and in later ones.
use super::Answer::{Blocks, Done, Listed, Refused};
use super::calling::{check_call, check_event};
use super::{
    Answer, Call, NO_SLOT, SET_A, Shape, Step, TestStore, Volume, check_from, check_missing,
    next_run, opened_after,
};
use crate::testing::same;
use layout_map::Format;
use sector_model::Refusal;
use std::process::Abort;

mod map;

use Kind::{Create, Extend, List, Read, Remove, Rename, Write};
use map::Map;

// A kind of call.
#[derive(Clone, Copy)]
enum Kind {
    Create,
    Extend,
    Remove,
    Rename,
    Read,
    Write,
    List,
}

// How a list of calls is drawn: a call is one of these kinds, of which some stand there more than once. New volumes and
// their growth have one of these sizes, and reads and writes one of these numbers of blocks.
#[derive(Clone, Copy)]
struct Pool {
    shape: Shape,
    extents: usize,
    kinds: &'static [Kind],
    names: &'static [&'static [u8]],
    sizes: &'static [u32],
    counts: &'static [u32],
    seed: u32,
}

// The numbers by which the calls are drawn: each is 1,664,525 times the one before and 1,013,904,223 more, modulo 2^32.
#[derive(Clone, Copy)]
struct Numbers {
    last: u32,
}

impl Numbers {
    // The next number below this one, by its upper half.
    fn below(&mut self, rt: &impl Abort, most: usize) -> usize {
        assert!(rt; most > 0);
        let next = self.last.wrapping_mul(1_664_525);
        self.last = next.wrapping_add(1_013_904_223);
        (self.last / 65_536) as usize % most
    }

    // One of these numbers.
    fn one_of(&mut self, rt: &impl Abort, numbers: &[u32]) -> u32 {
        let at = self.below(rt, numbers.len());
        assert!(rt; at < numbers.len());
        numbers[at]
    }
}

// A name: of four times so many that of a volume, where there is one, and else any of these.
fn name_of(
    rt: &impl Abort,
    numbers: &mut Numbers,
    map: &Map,
    names: &[&'static [u8]],
    often: usize,
) -> &'static [u8] {
    let volumes = map.volumes.len();
    if volumes > 0 && numbers.below(rt, 4) < often {
        let at = numbers.below(rt, volumes);
        assert!(rt; at < map.volumes.len());
        return map.volumes[at].name;
    }
    let at = numbers.below(rt, names.len());
    assert!(rt; at < names.len());
    names[at]
}

// A block of a volume, or one of the two after its last: in one of sixteen cases the last of all numbers.
fn block_of(rt: &impl Abort, numbers: &mut Numbers, map: &Map, name: &[u8]) -> u32 {
    if numbers.below(rt, 16) == 0 {
        return 4_294_967_295;
    }
    let blocks = map.blocks_in(name);
    let at = numbers.below(rt, blocks.saturating_add(2));
    assert!(rt; at < 100_000);
    at as u32
}

// So many bytes, of which each is 7 more than the one before.
fn bytes_from(rt: &(impl Abort + AllocGlobal), first: u8, count: u32) -> Vec<u8> {
    let mut bytes = Vec::new(rt.alloc());
    let mut byte = first;
    for _ in 0..count {
        bytes.push(byte).expect(rt, "memory");
        byte = byte.wrapping_add(7);
    }
    bytes
}

// What a call answers that is done or refused.
fn told<'a>(answer: Result<(), Refusal>) -> Answer<'a> {
    match answer {
        Ok(()) => Done,
        Err(refusal) => Refused(refusal),
    }
}

// The number of the refusal of an answer, and 0 of each other one.
fn number_of(answer: Answer) -> usize {
    match answer {
        Refused(refusal) => usize::from(refusal.number()),
        _ => 0,
    }
}

// A store, the map of its volumes, the numbers by which its calls are drawn, and how often each refusal was answered,
// by its number: place 0 counts the calls that were done.
#[derive(Drop)]
struct Play {
    store: TestStore,
    map: Map,
    numbers: Numbers,
    answers: [u32; 9],
}

impl Play {
    // The store of a set that was just made.
    fn new(rt: &(impl Abort + AllocGlobal), pool: &Pool) -> Play {
        Play {
            store: opened_after(rt, pool.shape, &[]),
            map: Map::new(rt, pool.extents),
            numbers: Numbers { last: pool.seed },
            answers: [0; 9],
        }
    }

    // Makes a call, by itself or by its event in turn, which has to answer so.
    fn check(
        &mut self,
        rt: &(impl Abort + AllocGlobal),
        number: usize,
        call: Call,
        answer: Answer,
    ) {
        if number % 2 == 0 {
            check_call(rt, &mut self.store, number, call, answer);
        } else {
            check_event(rt, &mut self.store, number, call, answer);
        }
        let refusal = number_of(answer);
        assert!(rt; refusal < 9);
        self.answers[refusal] = self.answers[refusal].saturating_add(1);
    }

    // Draws a name for a call on a volume: mostly that of one.
    fn name(&mut self, rt: &impl Abort, pool: &Pool) -> &'static [u8] {
        name_of(rt, &mut self.numbers, &self.map, pool.names, 3)
    }

    // Draws a name for a new volume, or a new name: mostly that of none.
    fn new_name(&mut self, rt: &impl Abort, pool: &Pool) -> &'static [u8] {
        name_of(rt, &mut self.numbers, &self.map, pool.names, 1)
    }

    // Draws a call on the names of volumes or their lengths, and makes it.
    fn change(&mut self, rt: &(impl Abort + AllocGlobal), number: usize, pool: &Pool, kind: Kind) {
        let name = self.name(rt, pool);
        let new = self.new_name(rt, pool);
        let blocks = self.numbers.one_of(rt, pool.sizes);
        let (call, done) = match kind {
            Create => (Call::Create(new, blocks), self.map.create(rt, new, blocks)),
            Extend => (
                Call::Extend(name, blocks),
                self.map.extend(rt, name, blocks),
            ),
            Rename => (Call::Rename(name, new), self.map.rename(rt, name, new)),
            _ => (Call::Remove(name), self.map.remove(rt, name)),
        };
        self.check(rt, number, call, told(done));
    }

    // Reads some blocks.
    fn read(&mut self, rt: &(impl Abort + AllocGlobal), number: usize, pool: &Pool) {
        let name = self.name(rt, pool);
        let at = block_of(rt, &mut self.numbers, &self.map, name);
        let count = self.numbers.one_of(rt, pool.counts);
        let call = Call::Read(name, at, count);
        match self.map.read(rt, name, at, count) {
            Ok(bytes) => self.check(rt, number, call, Blocks(&bytes)),
            Err(refusal) => self.check(rt, number, call, Refused(refusal)),
        }
    }

    // Writes some blocks.
    fn write(&mut self, rt: &(impl Abort + AllocGlobal), number: usize, pool: &Pool) {
        let name = self.name(rt, pool);
        let at = block_of(rt, &mut self.numbers, &self.map, name);
        let count = self.numbers.one_of(rt, pool.counts);
        let bytes = bytes_from(rt, (number % 256) as u8, count);
        let answer = told(self.map.write(rt, name, at, &bytes));
        self.check(rt, number, Call::Write(name, at, &bytes), answer);
    }

    // Lists the volumes.
    fn list(&mut self, rt: &(impl Abort + AllocGlobal), number: usize) {
        let volumes = volumes_of(rt, &self.map);
        check_call(rt, &mut self.store, number, Call::List, Listed(&volumes));
    }

    // Lists them by an event.
    fn list_by_event(&mut self, rt: &(impl Abort + AllocGlobal), number: usize) {
        let volumes = volumes_of(rt, &self.map);
        check_event(rt, &mut self.store, number, Call::List, Listed(&volumes));
    }

    // Draws the call of this number, and makes it.
    fn make(&mut self, rt: &(impl Abort + AllocGlobal), number: usize, pool: &Pool) {
        let at = self.numbers.below(rt, pool.kinds.len());
        assert!(rt; at < pool.kinds.len());
        match pool.kinds[at] {
            Read => self.read(rt, number, pool),
            Write => self.write(rt, number, pool),
            List => {
                self.list(rt, number);
                self.list_by_event(rt, number);
            }
            kind => self.change(rt, number, pool, kind),
        }
    }

    // Asks that the volumes are those of the map.
    fn check_held(&mut self, rt: &(impl Abort + AllocGlobal), number: usize) {
        let volumes = volumes_of(rt, &self.map);
        check_from(rt, &mut self.store, number, &[Step::Holds(&volumes)]);
    }

    // Asks the same, in a table of the map's version, and that no slot is missing.
    fn check_all(&mut self, rt: &(impl Abort + AllocGlobal), number: usize) {
        let version = self.map.version;
        check_missing(rt, &self.store, number, NO_SLOT);
        check_from(rt, &mut self.store, number, &[Step::Version(version)]);
        self.check_held(rt, number);
    }

    // Asks the same of the volumes by the definitions.
    fn check_shown(&mut self, rt: &(impl Abort + AllocGlobal), number: usize) {
        let volumes = volumes_of(rt, &self.map);
        check_from(rt, &mut self.store, number, &[Step::Shows(&volumes)]);
    }

    // Makes some calls from this number on, and ends the run: a bank keeps 8,000 writes and no more. The volumes are
    // looked at before and in the next run.
    fn make_part(&mut self, rt: &(impl Abort + AllocGlobal), pool: &Pool, first: usize) {
        for at in 0..PART {
            self.make(rt, first.saturating_add(at), pool);
        }
        self.check_all(rt, first);
        self.store = next_run(rt, self.store.bank());
        self.check_all(rt, first);
    }

    // Makes the calls of these parts, in which these answers have to come.
    fn make_parts(
        &mut self,
        rt: &(impl Abort + AllocGlobal),
        pool: &Pool,
        first: usize,
        end: usize,
        come: [bool; 9],
    ) {
        self.answers = [0; 9];
        for part in first..end {
            self.make_part(rt, pool, part.saturating_mul(PART));
        }
        self.check_shown(rt, end.saturating_mul(PART));
        same(rt, are_there(&self.answers), come);
    }

    // Upgrades the table.
    fn upgrade(&mut self, rt: &(impl Abort + AllocGlobal), number: usize) {
        self.check(rt, number, Call::Upgrade, Done);
        self.map.version = 2;
        self.check_all(rt, number);
        self.check_shown(rt, number);
    }
}

// Which of these numbers are not 0.
fn are_there(counts: &[u32; 9]) -> [bool; 9] {
    let mut there = [false; 9];
    for at in 0..9usize {
        there[at] = counts[at] > 0;
    }
    there
}

// The volumes of a map, in rising order of names.
fn volumes_of<'a>(rt: &(impl Abort + AllocGlobal), map: &'a Map) -> Vec<Volume<'a>> {
    let mut volumes = Vec::new(rt.alloc());
    for kept in &map.volumes {
        volumes
            .push((kept.name, kept.bytes.as_slice()))
            .expect(rt, "memory");
    }
    volumes
}

// The calls of a part.
const PART: usize = 30;

// The longest name of version 1, one that is a byte longer, the longest name of version 2, and one that is a byte
// longer: each begins with the one before.
const OF_24: &[u8] = b"a-name-of-twenty-four-by";

const OF_25: &[u8] = b"a-name-of-twenty-four-byt";

const OF_63: &[u8] = b"a-name-of-twenty-four-bytes-and-of-thirty-nine-more-behind-them";

const OF_64: &[u8] = b"a-name-of-twenty-four-bytes-and-of-thirty-nine-more-behind-them_";

// Few names and few extents. No set of them has 32 volumes.
static FEW: Pool = Pool {
    shape: SET_A,
    extents: 7,
    kinds: &[
        Create, Create, Create, Create, Create, Extend, Extend, Extend, Remove, Rename, Rename,
        Read, Read, Read, Write, Write, Write, List,
    ],
    names: &[
        b"a", b"ab", b"b-1", b"c_", b"z9", b"d", b"e", b"f", b"g", b"h", b"i", OF_24, OF_25, OF_63,
        OF_64, b"", b"A", b"aB", b"1a", b"-a", b"a.b", b"\xe4",
    ],
    sizes: &[
        1,
        3,
        10,
        40,
        63,
        64,
        65,
        130,
        0,
        65_535,
        65_536,
        65_537,
        4_294_967_295,
    ],
    counts: &[1, 2, 3, 8, 31, 32, 0, 33],
    seed: 10,
};

// 2,080 rows, 4,160 data sectors and 64 extents.
const LARGE: Shape = (Format::One, 3, 8, 260);

// Mostly short volumes, and more names than a set may have volumes.
static MANY: Pool = Pool {
    shape: LARGE,
    extents: 64,
    kinds: &[
        Create, Create, Create, Create, Create, Create, Create, Create, Create, Create, Create,
        Create, Extend, Remove, Rename, Rename, Read, Read, Write, Write, List,
    ],
    names: &[
        b"aa", b"ab", b"ac", b"ad", b"ae", b"af", b"ag", b"ah", b"ba", b"bb", b"bc", b"bd", b"be",
        b"bf", b"bg", b"bh", b"ca", b"cb", b"cc", b"cd", b"ce", b"cf", b"cg", b"ch", b"da", b"db",
        b"dc", b"dd", b"de", b"df", b"dg", b"dh", b"ea", b"eb", b"ec", b"ed", b"ee", b"ef", b"eg",
        b"eh", b"fa", b"fb", b"fc", b"fd", b"fe", b"ff", b"fg", b"fh", b"ga", b"gb", b"gc", b"gd",
        b"ge", b"gf", b"gg", b"gh", b"ha", b"hb", b"hc", b"hd", b"he", b"hf", b"hg", b"hh", b"ia",
        b"ib", b"ic", b"id", b"ie", b"if", b"ig", b"ih", b"ja", b"jb", b"jc", b"jd", b"je", b"jf",
        b"jg", b"jh", b"ka", b"kb", b"kc", b"kd", b"ke", b"kf", b"kg", b"kh", OF_24, OF_25, OF_63,
        OF_64, b"", b"B",
    ],
    sizes: &[1, 2, 3, 5, 9, 0, 65_536],
    counts: &[1, 2, 3, 0, 33],
    seed: 29,
};

// 150 calls, the upgrade, and 150 more. In both parts each refusal comes but that of too many volumes.
#[test]
fn mixed_calls_of_both_versions(rt: HostRuntime) {
    const COME: [bool; 9] = [true, true, true, true, false, true, true, true, true];
    let mut play = Play::new(&rt, &FEW);
    play.make_parts(&rt, &FEW, 0, 5, COME);
    play.upgrade(&rt, 5 * PART);
    play.make_parts(&rt, &FEW, 5, 10, COME);
}

// 210 calls, the upgrade, and 390 more. In both parts each refusal comes: that of too many volumes where there are 32,
// and then where there are 64.
#[test]
fn mixed_calls_on_many_volumes(rt: HostRuntime) {
    const COME: [bool; 9] = [true; 9];
    let mut play = Play::new(&rt, &MANY);
    play.make_parts(&rt, &MANY, 0, 7, COME);
    play.upgrade(&rt, 7 * PART);
    play.make_parts(&rt, &MANY, 7, 20, COME);
}
