//! The calls of a store, and what they answer.
use super::{Answer, Call, TestStore, check_bytes, is_list};
use crate::testing::{all, same};
use rebuild::Progress;
use scrub::ScrubReport;
use sector_model::{Refusal, Sector};
use std::process::Abort;
use volume_table::{Event, Listed, Reply};

/// Makes a call, which has to answer so.
pub(crate) fn check_call(
    rt: &(impl Abort + AllocGlobal),
    store: &mut TestStore,
    number: usize,
    call: Call,
    answer: Answer,
) {
    let got = match call {
        Call::Create(name, blocks) => store.create(name, blocks),
        Call::Extend(name, by) => store.extend(name, by),
        Call::Remove(name) => store.remove(name),
        Call::Write(name, at, bytes) => store.write(name, at, &blocks_of(rt, bytes)),
        Call::Rename(old, new) => store.rename(old, new),
        Call::Fail(slot) => store.fail(slot),
        Call::Replace(slot) => store.replace(slot),
        Call::RebuildStep(rows) => {
            return check_step(rt, number, store.rebuild_step(rows), answer);
        }
        Call::Scrub => return check_report(rt, number, store.scrub(), answer),
        Call::ScrubRows(first, rows) => {
            return check_report(rt, number, store.scrub_rows(first, rows), answer);
        }
        Call::Read(name, at, count) => {
            return check_read(rt, store, number, (name, at, count), answer);
        }
        Call::List => return check_list(rt, store, number, answer),
        Call::Upgrade => store.upgrade(),
    };
    check_said(rt, number, got, answer);
}

/// Applies the event of a call, which has to answer so.
pub(crate) fn check_event(
    rt: &(impl Abort + AllocGlobal),
    store: &mut TestStore,
    number: usize,
    call: Call,
    answer: Answer,
) {
    let bytes: &[u8] = if let Call::Write(_, _, bytes) = call {
        bytes
    } else {
        &[]
    };
    let blocks = blocks_of(rt, bytes);
    match store.apply(rt.alloc(), &event_of(call, &blocks)) {
        Reply::Done => check_said(rt, number, Ok(()), answer),
        Reply::Refused(refusal) => check_said(rt, number, Err(refusal), answer),
        Reply::Blocks(blocks) => check_blocks(rt, number, &blocks, answer),
        Reply::Volumes(listed) => check_listed(rt, number, &listed, answer),
        Reply::Progress(progress) => check_step(rt, number, Ok(progress), answer),
        Reply::Scrubbed(report) => check_report(rt, number, Ok(report), answer),
    }
}

// The event of a call that writes these blocks, if it writes any.
fn event_of<'a>(call: Call<'a>, blocks: &'a [Sector]) -> Event<'a> {
    match call {
        Call::Create(name, blocks) => Event::Create { name, blocks },
        Call::Extend(name, by) => Event::Extend { name, by },
        Call::Remove(name) => Event::Remove { name },
        Call::Write(name, at, _) => Event::Write { name, at, blocks },
        Call::Rename(old, new) => Event::Rename { old, new },
        Call::Fail(slot) => Event::Fail { slot },
        Call::Replace(slot) => Event::Replace { slot },
        Call::RebuildStep(rows) => Event::RebuildStep { rows },
        Call::Scrub => Event::Scrub,
        Call::ScrubRows(first, rows) => Event::ScrubRows { first, rows },
        Call::Read(name, at, count) => Event::Read { name, at, count },
        Call::List => Event::List,
        Call::Upgrade => Event::Upgrade,
    }
}

// Sectors that are full of these bytes, each of one.
fn blocks_of(rt: &(impl Abort + AllocGlobal), bytes: &[u8]) -> Vec<Sector> {
    let mut blocks = Vec::new(rt.alloc());
    for byte in bytes {
        blocks.push(all(*byte)).expect(rt, "memory");
    }
    blocks
}

// What has to be answered where that is neither blocks nor volumes.
fn told(answer: Answer) -> Option<Result<(), Refusal>> {
    match answer {
        Answer::Done => Some(Ok(())),
        Answer::Refused(refusal) => Some(Err(refusal)),
        _ => None,
    }
}

fn check_said(rt: &impl Abort, number: usize, got: Result<(), Refusal>, answer: Answer) {
    same(rt, (number, Some(got)), (number, told(answer)));
}

fn check_step(rt: &impl Abort, number: usize, got: Result<Progress, Refusal>, answer: Answer) {
    let wanted = match answer {
        Answer::Stepped(progress) => Some(Ok(progress)),
        Answer::Refused(refusal) => Some(Err(refusal)),
        _ => None,
    };
    same(rt, (number, Some(got)), (number, wanted));
}

fn check_report(rt: &impl Abort, number: usize, got: Result<ScrubReport, Refusal>, answer: Answer) {
    let wanted = match answer {
        Answer::Scrubbed(report) => Some(Ok(report)),
        Answer::Refused(refusal) => Some(Err(refusal)),
        _ => None,
    };
    same(rt, (number, Some(got)), (number, wanted));
}

fn check_blocks(rt: &impl Abort, number: usize, blocks: &[Sector], answer: Answer) {
    let bytes = if let Answer::Blocks(bytes) = answer {
        bytes
    } else {
        &[]
    };
    same(rt, (number, blocks.len()), (number, bytes.len()));
    check_bytes(rt, number, blocks, 0, bytes);
}

fn check_listed(rt: &impl Abort, number: usize, listed: &[Listed], answer: Answer) {
    let is_so = if let Answer::Listed(volumes) = answer {
        is_list(listed, volumes)
    } else {
        false
    };
    same(rt, (number, is_so), (number, true));
}

fn check_list(
    rt: &(impl Abort + AllocGlobal),
    store: &mut TestStore,
    number: usize,
    answer: Answer,
) {
    match store.list(rt.alloc()) {
        Ok(listed) => check_listed(rt, number, &listed, answer),
        Err(refusal) => check_said(rt, number, Err(refusal), answer),
    }
}

// Reads so many blocks of a volume from one on.
fn check_read(
    rt: &(impl Abort + AllocGlobal),
    store: &mut TestStore,
    number: usize,
    read: (&[u8], u32, u32),
    answer: Answer,
) {
    let mut to = vec![in rt.alloc(); all(0x5c); read.2 as usize].expect(rt, "memory");
    match store.read(read.0, read.1, &mut to) {
        Ok(()) => check_blocks(rt, number, &to, answer),
        Err(refusal) => check_said(rt, number, Err(refusal), answer),
    }
}
