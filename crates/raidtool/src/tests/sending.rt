//! When replies leave the program: what was sent at each moment at which it asks for more of its script, and by how
//! many writes.
use crate::console::{Output, Replies, Script};
use crate::ended;
use crate::testing::streams::{Full, WHOLE};
use crate::testing::{ID, same};
use layout_map::Geometry;
use recovery::make;
use sector_model::{Image, MemBank, Plan, Refusal};
use set_commands::run_script;
use std::cell::RefCell;
use std::io::{self, ErrorKind, Read, Write};
use std::process::Abort;
use stripe_journal::Entry;
use volume_table::Store;

// A store over a set in memory that was just made: 3 members, chunk 8 and 32 stripes.
fn fresh_store(rt: &(impl Abort + AllocGlobal)) -> Store<MemBank> {
    let mut slots = Vec::new(rt.alloc());
    for sectors in [264, 264, 264, 520, 520] {
        let disk = vec![in rt.alloc(); [0; 512]; sectors].expect(rt, "memory");
        slots.push(Some(disk)).expect(rt, "memory");
    }
    assert!(rt; slots.len() >= 5 && slots.len() <= 10);
    let bank = MemBank::new(rt.alloc(), Image { slots }, Plan::NONE, 8_000).expect(rt, "memory");
    let entry = Entry::new(rt.alloc()).expect(rt, "memory");
    let geometry = Geometry::new(3, 8, 32).expect(rt, "a geometry");
    let array = make(bank, entry, ID, geometry).ok().expect(rt, "a set");
    Store::open(array).ok().expect(rt, "a store")
}

// Runs a script, which has to be answered with this text.
fn answers(
    rt: &(impl Abort + AllocGlobal),
    store: &mut Store<MemBank>,
    script: &[u8],
    text: &[u8],
) {
    let mut reader = script;
    let mut out = Vec::new(rt.alloc());
    let done = run_script(rt.alloc(), &mut reader, &mut out, store);
    same(rt, (done, out.as_slice()), (Ok(()), text));
}

// What was sent, by how many writes, and the write that fails.
#[derive(Drop)]
struct Sent {
    text: Vec<u8>,
    writes: usize,
    fault: Option<usize>,
}

// Standard output.
#[derive(Drop)]
struct Sender<'a> {
    sent: &'a RefCell<Sent>,
}

impl Write for Sender<'_> {
    fn write(&mut self, buf: &[u8]) -> io::Result<usize> {
        let Ok(mut sent) = self.sent.try_borrow_mut() else {
            return Err(io::Error::from(ErrorKind::Other));
        };
        let write = sent.writes;
        sent.writes = write.saturating_add(1);
        if sent.fault == Some(write) {
            return Err(io::Error::from(ErrorKind::BrokenPipe));
        }
        sent.text.extend_from_slice(buf)?;
        Ok(buf.len())
    }

    fn flush(&mut self) -> io::Result<()> {
        Ok(())
    }
}

// What has to be sent before a part of the script is asked for, and that part.
type Part = (&'static [u8], &'static [u8]);

// Standard input: it gives the parts one after another, and fails where not all was sent that has to be.
#[derive(Drop)]
struct Typed<'a> {
    parts: &'a [Part],
    given: usize,
    sent: &'a RefCell<Sent>,
}

impl Read for Typed<'_> {
    fn read(&mut self, buf: &mut [u8]) -> io::Result<usize> {
        let Some((before, part)) = self.parts.get(self.given) else {
            return Ok(0);
        };
        let is_sent = match self.sent.try_borrow() {
            Ok(sent) => sent.text.as_slice() == *before,
            Err(_) => false,
        };
        if !is_sent || buf.len() < part.len() {
            return Err(io::Error::from(ErrorKind::Other));
        }
        self.given += 1;
        buf[..part.len()].copy_from_slice(part);
        Ok(part.len())
    }
}

// Nothing was sent, and this write will fail.
fn unsent(rt: &impl AllocGlobal, fault: Option<usize>) -> RefCell<Sent> {
    RefCell::new(Sent {
        text: Vec::new(rt.alloc()),
        writes: 0,
        fault,
    })
}

// The text and number of the writes.
fn is_sent(rt: &(impl Abort + AllocGlobal), sent: &RefCell<Sent>, want: (&[u8], usize)) {
    let sent = sent.try_borrow().expect(rt, "sent");
    same(rt, (sent.text.as_slice(), sent.writes), want);
}

// Runs the parts of a script: how it ends, and whether its replies left. They are dropped then.
fn run_parts(
    rt: &(impl Abort + AllocGlobal),
    store: &mut Store<MemBank>,
    parts: &[Part],
    sent: &RefCell<Sent>,
) -> (Result<(), Refusal>, bool) {
    let replies = Replies::new(rt.alloc(), Sender { sent }).expect(rt, "memory");
    let typed = Typed {
        parts,
        given: 0,
        sent,
    };
    let mut script = Script::new(rt.alloc(), typed, &replies).expect(rt, "memory");
    let mut out = Output { replies: &replies };
    let end = run_script(rt.alloc(), &mut script, &mut out, store);
    (end, replies.send().is_ok())
}

// Runs the parts of a script: how it has to end, whether its replies left, and the text and number of the writes.
fn sends(
    rt: &(impl Abort + AllocGlobal),
    store: &mut Store<MemBank>,
    parts: &[Part],
    fault: Option<usize>,
    want: (Result<(), Refusal>, bool),
    want_sent: (&[u8], usize),
) {
    let sent = unsent(rt, fault);
    let end = run_parts(rt, store, parts, &sent);
    same(rt, end, want);
    is_sent(rt, &sent, want_sent);
}

// Each answer is there before more is asked for, and before a line that is no `read`.
const PARTS: &[Part] = &[
    (b"", b"create a 4\nread a 0 1\n"),
    (
        b"ok\n00*512\n",
        b"read a 0 1\nread a 1 1\nwrite a 0 ab*512\nread a 0 1\nread a",
    ),
    (
        b"ok\n00*512\n00*512\n00*512\nok\nab*512\n",
        b" 0 1\nreading a 0 1\nlist\n",
    ),
    (
        b"ok\n00*512\n00*512\n00*512\nok\nab*512\nab*512\nrefused 20 BadLine\na 4\n",
        b"",
    ),
];

#[test]
fn replies_to_reads_leave_together(rt: HostRuntime) {
    let mut store = fresh_store(&rt);
    let all = b"ok\n00*512\n00*512\n00*512\nok\nab*512\nab*512\nrefused 20 BadLine\na 4\n";
    sends(&rt, &mut store, PARTS, None, (Ok(()), true), (all, 6));
}

// The second write has the replies to the second part's first lines: the line after them is not done, and nothing more
// leaves, though a further write would.
#[test]
fn replies_that_can_not_leave_end_the_script(rt: HostRuntime) {
    let mut store = fresh_store(&rt);
    let sent = (b"ok\n00*512\n".as_slice(), 2);
    sends(&rt, &mut store, PARTS, Some(1), (Ok(()), false), sent);
    answers(&rt, &mut store, b"read a 0 1\n", b"00*512\n");
}

// A line that renames begins as a read does, but for its third letter.
const RENAMING: &[Part] = &[
    (
        b"",
        b"create a 4\nread a 0 1\nread a 1 1\nrename a read\nread read 0 1\n",
    ),
    (b"ok\n00*512\n00*512\nok\n00*512\n", b""),
];

#[test]
fn replies_leave_before_a_rename(rt: HostRuntime) {
    let mut store = fresh_store(&rt);
    let all = b"ok\n00*512\n00*512\nok\n00*512\n";
    sends(&rt, &mut store, RENAMING, None, (Ok(()), true), (all, 2));
}

// Where they can't leave, the rename is not done.
#[test]
fn a_rename_after_replies_that_can_not_leave(rt: HostRuntime) {
    let mut store = fresh_store(&rt);
    let none = (b"".as_slice(), 1);
    sends(&rt, &mut store, RENAMING, Some(0), (Ok(()), false), none);
    answers(&rt, &mut store, b"list\n", b"a 4\n");
}

// Replies as long as the buffer leave at once. The second write fails: nothing is taken or tried then, though a further
// write would leave.
fn write_past_a_fault(rt: &(impl Abort + AllocGlobal), sent: &RefCell<Sent>) {
    let replies = Replies::new(rt.alloc(), Sender { sent }).expect(rt, "memory");
    let mut out = Output { replies: &replies };
    let full = [b'a'; 65_536];
    same(rt, out.write(&full).ok(), Some(65_536));
    same(rt, out.write(b"b").ok(), Some(1));
    is_sent(rt, sent, (&full, 1));
    same(rt, out.write(&full).is_err(), true);
    same(rt, out.write(b"c").is_err(), true);
    same(rt, out.flush().is_err(), true);
}

#[test]
fn nothing_is_tried_after_a_fault(rt: HostRuntime) {
    let sent = unsent(&rt, Some(1));
    write_past_a_fault(&rt, &sent);
    is_sent(&rt, &sent, (&[b'a'; 65_536], 2));
}

// Also a reader that does not look at what it takes gets more once all replies left.
#[test]
fn replies_leave_before_a_read(rt: HostRuntime) {
    let sent = unsent(&rt, None);
    let replies = Replies::new(rt.alloc(), Sender { sent: &sent }).expect(&rt, "memory");
    let typed = Typed {
        parts: &[(b"ok\n", b"read a 0 1\n")],
        given: 0,
        sent: &sent,
    };
    let mut script = Script::new(rt.alloc(), typed, &replies).expect(&rt, "memory");
    let mut out = Output { replies: &replies };
    same(&rt, out.write(b"ok\n").ok(), Some(3));
    let mut bytes = [0; 4];
    same(&rt, script.read(&mut bytes).ok(), Some(4));
    same(&rt, &bytes, b"read");
    is_sent(&rt, &sent, (b"ok\n", 1));
}

// The status without replies, whether they left, and the status and the text that come of it.
const ENDS: &[(u8, bool, u8, &str)] = &[
    (0, true, 0, ""),
    (0, false, 1, "refused 22 WriteFault\n"),
    (1, true, 1, ""),
    (1, false, 1, ""),
    (2, true, 2, ""),
    (2, false, 2, ""),
];

#[test]
fn statuses_where_replies_did_not_leave(rt: HostRuntime) {
    for (status, is_sent, want, text) in ENDS {
        let sent = if *is_sent {
            Ok(())
        } else {
            Err(io::Error::from(ErrorKind::BrokenPipe))
        };
        let mut err = Full {
            text: Vec::new(rt.alloc()),
            room: WHOLE,
        };
        let end = ended(*status, sent, &mut err);
        same(&rt, (end, err.text.as_slice()), (*want, text.as_bytes()));
    }
}
