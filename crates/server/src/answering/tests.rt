//! Requests over a set in memory, and their texts.
ghost use Rattle.requests.specs.Demands.{demand_of};
ghost use Rattle.server.specs.Answers.{IsAnswered};
ghost use Rattle.volume_table.specs.OpenStore.{store_view};

use super::{Outcome, answer, ended_by, is_missing_slot};
use crate::counts::MOST_WRITTEN_AT_ONCE;
use crate::telling::write_told;
use crate::testing::{STATUS, fail_at, fresh_store, same};
use requests::{Request, Stretch};
use sector_model::{Bank, MemBank, Refusal, Sector};
use std::process::Abort;
use volume_table::Store;

// Where the blocks of a request are.
fn buffer(rt: &(impl Abort + AllocGlobal)) -> Vec<Sector> {
    vec![in rt.alloc(); [0; 512]; MOST_WRITTEN_AT_ONCE].expect(rt, "memory")
}

// An outcome has this text.
fn tells(rt: &(impl Abort + AllocGlobal), outcome: &Outcome, blocks: &[Sector], text: &[u8]) {
    let mut out = Vec::new(rt.alloc());
    same(rt, write_told(&mut out, outcome, blocks), Ok(()));
    same(rt, out.as_slice(), text);
}

// What a request comes to.
fn asked(
    rt: &(impl Abort + AllocGlobal),
    store: &mut Store<MemBank>,
    request: &Request<'_>,
    blocks: &mut [Sector],
) -> Outcome
    requires { IsAnswered (store_view store.old) (demand_of request.now) }
{
    assert!(rt; blocks.len() >= MOST_WRITTEN_AT_ONCE);
    answer(store, rt.alloc(), request, blocks)
}

// A request has this text, and a store is to be ended by it, or not.
fn ends(
    rt: &(impl Abort + AllocGlobal),
    store: &mut Store<MemBank>,
    request: &Request<'_>,
    text: &[u8],
    end: Result<(), Refusal>,
)
    requires { IsAnswered (store_view store.old) (demand_of request.now) }
{
    let outcome = asked(rt, store, request, &mut buffer(rt));
    tells(rt, &outcome, &[], text);
    same(rt, ended_by(&outcome), end);
}

// A store with a volume of 100 blocks, of which each has its number as its first byte.
fn used_store(rt: &(impl Abort + AllocGlobal)) -> Store<MemBank> {
    let mut store = fresh_store(rt);
    same(rt, store.create(b"v", 100), Ok(()));
    for at in 0..100u8 {
        let mut block = [0; 512];
        block[0] = at;
        same(rt, store.write(b"v", u32::from(at), &[block]), Ok(()));
    }
    store
}

#[test]
fn blocks_are_read_in_parts(rt: HostRuntime) {
    let mut store = used_store(&rt);
    let mut blocks = buffer(&rt);
    let stretch = Stretch {
        name: b"v",
        at: 33,
        count: 67,
    };
    let outcome = asked(&rt, &mut store, &Request::Read(stretch), &mut blocks);
    match outcome {
        Outcome::Read(count) => same(&rt, count, 67),
        _ => same(&rt, 0, 67),
    }
    for (block, number) in blocks.iter().zip(33..100u8) {
        same(&rt, (block[0], block[511]), (number, 0));
    }
}

// The devices of two members go down in the second part of a read.
#[test]
fn a_read_that_is_refused_on_the_way_tells_no_block(rt: HostRuntime) {
    let mut store = used_store(&rt);
    let call = store.bank().now().saturating_add(40);
    fail_at(&rt, &mut store, &[0, 1], call);
    let stretch = Stretch {
        name: b"v",
        at: 0,
        count: 64,
    };
    let lost = Err(Refusal::TwoLost);
    let text = b"refused 15 TwoLost\n";
    ends(&rt, &mut store, &Request::Read(stretch), text, lost);
    ends(&rt, &mut store, &Request::Read(stretch), text, lost);
}

#[test]
fn volumes_are_changed_and_told(rt: HostRuntime) {
    let mut store = fresh_store(&rt);
    let create = Request::Create {
        name: b"ab",
        blocks: 70,
    };
    ends(&rt, &mut store, &create, b"ok\n", Ok(()));
    ends(&rt, &mut store, &create, b"refused 3 Exists\n", Ok(()));
    let extend = Request::Extend {
        name: b"ab",
        by: 30,
    };
    ends(&rt, &mut store, &extend, b"ok\n", Ok(()));
    let rename = Request::Rename {
        old: b"ab",
        new: b"c",
    };
    ends(&rt, &mut store, &rename, b"ok\n", Ok(()));
    let text = b"volumes 1\nc 100\n";
    ends(&rt, &mut store, &Request::List, text, Ok(()));
}

#[test]
fn blocks_are_made_zero_and_volumes_removed(rt: HostRuntime) {
    let mut store = used_store(&rt);
    let whole = Stretch {
        name: b"v",
        at: 0,
        count: 100,
    };
    let beyond = Stretch {
        name: b"v",
        at: 1,
        count: 100,
    };
    let outside = b"refused 8 OutOfRange\n";
    ends(&rt, &mut store, &Request::Zero(beyond), outside, Ok(()));
    ends(&rt, &mut store, &Request::Read(beyond), outside, Ok(()));
    ends(&rt, &mut store, &Request::Zero(whole), b"ok\n", Ok(()));
    let remove = Request::Remove { name: b"v" };
    ends(&rt, &mut store, &remove, b"ok\n", Ok(()));
    ends(&rt, &mut store, &remove, b"refused 6 NoVolume\n", Ok(()));
}

// Slot 256 is not slot 0.
#[test]
fn slots_are_given_up_and_not_replaced(rt: HostRuntime) {
    let mut store = fresh_store(&rt);
    let not_missing = b"refused 10 NotMissing\n";
    let nothing = b"refused 12 NothingToRebuild\n";
    ends(&rt, &mut store, &Request::Status, STATUS.as_bytes(), Ok(()));
    ends(&rt, &mut store, &Request::Rebuild(1), nothing, Ok(()));
    ends(&rt, &mut store, &Request::Fail(256), not_missing, Ok(()));
    assert!(&rt; !is_missing_slot(&store, 2));
    assert!(&rt; !is_missing_slot(&store, 256));
    ends(&rt, &mut store, &Request::Replace(256), not_missing, Ok(()));
    ends(&rt, &mut store, &Request::Fail(2), b"ok\n", Ok(()));
    same(&rt, is_missing_slot(&store, 2), true);
}

#[test]
fn rows_are_rebuilt_by_steps(rt: HostRuntime) {
    let mut store = fresh_store(&rt);
    same(&rt, store.fail(2), Ok(()));
    same(&rt, store.replace(2), Ok(()));
    let text = b"position 64 of 256, 3 left\n";
    ends(&rt, &mut store, &Request::Rebuild(0), text, Ok(()));
    let text = b"position 192 of 256, 1 left\n";
    ends(&rt, &mut store, &Request::Rebuild(2), text, Ok(()));
    ends(&rt, &mut store, &Request::Rebuild(9), b"complete\n", Ok(()));
}
