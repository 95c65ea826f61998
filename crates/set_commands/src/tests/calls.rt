//! How many device calls a command makes: those that open its set, and those of the one call that its words name.
use super::{SET_A, bank_of, fresh_store, image_now};
use crate::testing::{ID, same};
use crate::{Health, apply_on, open_on, rebuild_on, serve_on, tell_on};
use sector_model::{Bank, Down, Image, MemBank, Refusal, Sector};
use std::cell::Cell;
use std::process::Abort;
use stripe_journal::Entry;
use volume_table::{Event, Store};

// A bank that leaves the count of its device calls in a cell when it is dropped.
struct Told<'a, B: Bank> {
    bank: B,
    calls: &'a Cell<u64>,
}

impl<B: Bank + Drop> Drop for Told<'_, B> {
    fn drop(self) {
        let Self { bank, calls } = self;
        calls.set(bank.now());
    }
}

impl<B: Bank> Bank for Told<'_, B> {
    ghost honest = { λ told. B.honest told.bank };

    ghost history = { λ told. B.history told.bank };

    ghost panel = { λ told. B.panel told.bank };

    ghost true_to = { λ told honest. B.true_to told.bank honest };

    fn devices(&self) -> u8 {
        self.bank.devices()
    }

    fn sectors(&self, dev: u8) -> u32 {
        self.bank.sectors(dev)
    }

    fn is_down(&self, dev: u8) -> bool {
        self.bank.is_down(dev)
    }

    fn now(&self) -> u64 {
        self.bank.now()
    }

    fn read(&mut self, dev: u8, at: u32, to: &mut Sector) -> Result<(), Down> {
        self.bank.read(dev, at, to)
    }

    fn write(&mut self, dev: u8, at: u32, from: &Sector) -> Result<(), Down> {
        self.bank.write(dev, at, from)
    }

    fn flush(&mut self, dev: u8) -> Result<(), Down> {
        self.bank.flush(dev)
    }
}

#[derive(Clone, Copy, PartialEq, Eq, Debug)]
enum Command {
    List,
    Status,
    Fail,
    Replace,
    Rebuild,
    Scrub,
    Upgrade,
}

static COMMANDS: &[Command] = &[
    Command::List,
    Command::Status,
    Command::Fail,
    Command::Replace,
    Command::Rebuild,
    Command::Scrub,
    Command::Upgrade,
];

// The devices of set A, which is whole, lacks the member in slot 2 or is rebuilding it, as the command needs it.
fn devices(rt: &(impl Abort + AllocGlobal), command: Command) -> Image {
    let mut store = fresh_store(rt, SET_A);
    if command == Command::Replace || command == Command::Rebuild {
        same(rt, store.fail(2), Ok(()));
    }
    if command == Command::Rebuild {
        same(rt, store.replace(2), Ok(()));
    }
    image_now(rt, &store)
}

// Does the command over the set on a bank.
fn does<B: Bank + Drop>(
    rt: &impl AllocGlobal,
    bank: B,
    entry: Entry,
    command: Command,
) -> Result<(), Refusal> {
    let mut out = Vec::new(rt.alloc());
    let mut script: &[u8] = b"list\n";
    let mut health = Health::Complete;
    match command {
        Command::List => serve_on(rt.alloc(), bank, entry, ID, &mut script, &mut out),
        Command::Status => tell_on(rt.alloc(), bank, entry, ID, false, &mut out, &mut health),
        Command::Fail => apply_on(
            rt.alloc(),
            bank,
            entry,
            ID,
            &Event::Fail { slot: 1 },
            &mut out,
        ),
        Command::Replace => apply_on(
            rt.alloc(),
            bank,
            entry,
            ID,
            &Event::Replace { slot: 2 },
            &mut out,
        ),
        Command::Rebuild => rebuild_on(bank, entry, ID, Some(1), &mut out),
        Command::Scrub => apply_on(rt.alloc(), bank, entry, ID, &Event::Scrub, &mut out),
        Command::Upgrade => apply_on(rt.alloc(), bank, entry, ID, &Event::Upgrade, &mut out),
    }
}

// Makes the call of the store that the command is.
fn makes(
    rt: &impl AllocGlobal,
    store: &mut Store<MemBank>,
    command: Command,
) -> Result<(), Refusal> {
    match command {
        Command::List => store.list(rt.alloc()).and(Ok(())),
        Command::Status => store.status().and(Ok(())),
        Command::Fail => store.fail(1),
        Command::Replace => store.replace(2),
        Command::Rebuild => store.rebuild_step(64).and(Ok(())),
        Command::Scrub => store.scrub().and(Ok(())),
        Command::Upgrade => store.upgrade(),
    }
}

// How the command ends, and how many device calls it makes.
fn calls_of(
    rt: &(impl Abort + AllocGlobal),
    command: Command,
) -> (Command, Result<(), Refusal>, u64) {
    let (bank, entry) = bank_of(rt, devices(rt, command));
    let calls = Cell::new(0);
    let told = Told {
        bank,
        calls: &calls,
    };
    let done = does(rt, told, entry, command);
    (command, done, calls.get())
}

// The same of opening the set and the store's call.
fn calls_of_store(
    rt: &(impl Abort + AllocGlobal),
    command: Command,
) -> (Command, Result<(), Refusal>, u64) {
    let (bank, entry) = bank_of(rt, devices(rt, command));
    let mut store = open_on(bank, entry, ID).expect(rt, "a store");
    let made = makes(rt, &mut store, command);
    (command, made, store.array.bank.now())
}

#[test]
fn no_call_after_a_command(rt: HostRuntime) {
    for command in COMMANDS {
        let wanted = calls_of_store(&rt, *command);
        assert!(rt; wanted.1.is_ok() && wanted.2 > 0);
        same(&rt, calls_of(&rt, *command), wanted);
    }
}
