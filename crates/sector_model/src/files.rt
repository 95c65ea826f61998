//! A bank of devices over files.
ghost use Rattle.std.specs.Prelude.{IsTrue, ◌≡◌, ◌≢◌, ◌<◌, ◌≤◌, ◌+◌, ◌*◌, ◌/◌, ◌-◌, ◌^◌, ℕ, min, None, true, false};
ghost use Rattle.std.specs.Prelude.{not, ◌||◌, ◌↔◌, is_ok, vec_len, IfOk, IfErr, OnOk, OnErr};
ghost use Rattle.sector_model.specs.History.{sector_of, seen};
ghost use Rattle.sector_model.specs.Bank.{CanCall, AfterCall, after_read, after_write, after_flush};
ghost use Rattle.sector_model.specs.DeviceFiles.{AreAt, IsWritten, IsSynced};
ghost use Rattle.sector_model.specs.Files.{is_down, slot_at, panel_of, told_in, IsOpened, IsOver, IsMade, BeginsWith};
ghost use Rattle.sector_model.specs.Files.{file_at};
ghost use Rattle.sector_model.specs.Spans.{with_span};

mod in_memory;

use crate::buffered_file::BufferedFile;
use crate::device_file::{read_whole, write_whole};
use crate::read_ahead::ReadAhead;
use crate::{Bank, DeviceFile, Down, NoRecord, OwnedFile, Refusal, RunRecord, Sector, SystemFile};
use std::alloc::{AllocError, Global};
use std::fs::{Files, OpenFile, OpenOptions};
use std::io;
use std::os::unix::fs::FileExt;

const SLOTS: u8 = 10;

const SECTOR_BYTES: u64 = 512;

// A slot of a bank over files. Its device is down where no file is open.
#[derive(Drop)]
struct Slot<F> {
    file: Option<F>,
    sectors: u32,
    // Nothing was written to the file since its last good sync.
    is_synced: bool,
}

/// Ten slots over files: those that are given, or the files `dev0.img` to `dev9.img` of a folder.
///
/// A sector is the 512 bytes of its file from byte 512 times its number on. It is read and written whole, or
/// the call is a fault. A flush syncs the file, and calls it not at all where nothing was written to it since
/// its last good sync. A device whose file answers a fault goes down for the rest of the run, and its file is
/// closed. The bank is honest where its files tell what they hold and its record tells the run; of the system's
/// files nothing is known.
///
/// Sectors that lie together are one call of the file. Writes to a device that follow one another wait, 64 KiB at
/// most, and are written at its next flush, at a write that does not follow, or where there is no more room; a read
/// gives them all the same. A fault of that is one of the call at which it comes. What waits when the bank is dropped
/// is lost, as a crash may leave it. Reads that follow one another go on, to the next multiple of 4,096 bytes, then of
/// 8,192 and so on up to 65,536, never after the device's last sector; where that fails, the sector that was asked for
/// is read by itself. A device has two buffers of 64 KiB, which are taken when the bank is made.
#[derive(Drop)]
pub struct FileBank<F: DeviceFile, R: RunRecord = NoRecord> {
    slots: Vec<Slot<BufferedFile<F>>>,
    notes: R,
    calls: u64,
    ghost ten: { vec_len slots ≡ 10 },
    ghost paired: { R.tells ≡ F.tells },
    ghost over: { IsTrue F.tells → IsOver (λ buffered. with_span (F.told buffered.file.file)
        buffered.waiting.start buffered.waiting.len buffered.waiting.bytes.items) slots.items calls (R.run notes) },
}

// How many whole sectors a file of this many bytes has, at most 2^32 - 1.
fn whole_sectors(bytes: u64) -> u32
    ensures { result ≡ min (bytes / 512) (2 ^ 32 - 1) }
{
    let count = (bytes / SECTOR_BYTES).min(u64::from(u32::MAX));
    count as u32
}

// The byte of a file at which a sector begins.
fn offset_of(at: u32) -> u64
    ensures { result ≡ 512 * at }
{
    SECTOR_BYTES * u64::from(at)
}

impl<F: DeviceFile + Drop> Slot<F> {
    // A slot without a device.
    fn empty() -> Slot<F>
        ensures down { is_down result ≡ true }
        ensures opened { IsOpened result }
        ensures none { result.file ≡ None }
    {
        Slot {
            file: None,
            sectors: 0,
            is_synced: true,
        }
    }

    fn is_closed(&self) -> bool
        ensures { result ≡ is_down self.now }
    {
        self.file.is_none()
    }

    // Passes on how a call of the file ended: a fault takes the device down.
    fn settle(&mut self, answer: io::Result<()>) -> Result<(), Down>
        ensures answer { is_ok result ≡ is_ok answer }
        ensures good { OnOk result (self.new ≡ self.old) }
        ensures fault { OnErr result (self.new ≡ record self.old { file = None }) }
    {
        if answer.is_err() {
            self.file = None;
            return Err(Down);
        }
        Ok(())
    }

    fn read(&mut self, at: u32, to: &mut Sector) -> Result<(), Down>
        requires { IsTrue F.tells → is_down self.old ≡ false → 512 * at + 512 ≤ (told_in F.told self.old.file).size }
        ensures answer { is_down self.new ≡ not (is_ok result) }
        ensures stays { is_down self.old ≡ true → is_ok result ≡ false }
        ensures sectors { self.new.sectors ≡ self.old.sectors }
        ensures synced { self.new.is_synced ≡ self.old.is_synced }
        ensures read { IsTrue F.tells → OnOk result (AreAt (told_in F.told self.old.file).byte (512 * at) 512 to.new) }
        ensures same { IsTrue F.tells → OnOk result (told_in F.told self.new.file ≡ told_in F.told self.old.file) }
    {
        let Some(file) = &mut self.file else {
            return Err(Down);
        };
        let answer = read_whole(file, offset_of(at), to);
        self.settle(answer)
    }

    fn write(&mut self, at: u32, from: &Sector) -> Result<(), Down>
        requires { IsTrue F.tells → is_down self.old ≡ false → 512 * at + 512 ≤ (told_in F.told self.old.file).size }
        ensures answer { is_down self.new ≡ not (is_ok result) }
        ensures stays { is_down self.old ≡ true → is_ok result ≡ false }
        ensures sectors { self.new.sectors ≡ self.old.sectors }
        ensures synced { OnOk result (self.new.is_synced ≡ false) }
        ensures written { IsTrue F.tells → OnOk result
            (IsWritten (512 * at) 512 from.now (told_in F.told self.old.file) (told_in F.told self.new.file)) }
    {
        let Some(file) = &mut self.file else {
            return Err(Down);
        };
        self.is_synced = false;
        let answer = write_whole(file, offset_of(at), from);
        self.settle(answer)
    }

    fn flush(&mut self) -> Result<(), Down>
        requires { IsTrue F.tells → is_down self.old ≡ false → self.old.is_synced ≡ true
            → (p : ℕ) → (told_in F.told self.old.file).safe p ≡ (told_in F.told self.old.file).byte p }
        ensures answer { is_down self.new ≡ not (is_ok result) }
        ensures stays { is_down self.old ≡ true → is_ok result ≡ false }
        ensures sectors { self.new.sectors ≡ self.old.sectors }
        ensures synced { OnOk result (self.new.is_synced ≡ true) }
        ensures idle { self.old.is_synced ≡ true → is_ok result ≡ not (is_down self.old) }
        ensures safe { IsTrue F.tells → OnOk result
            (IsSynced (told_in F.told self.old.file) (told_in F.told self.new.file)) }
    {
        let Some(file) = &mut self.file else {
            return Err(Down);
        };
        if self.is_synced {
            return Ok(());
        }
        let answer = file.sync();
        self.settle(answer)?;
        self.is_synced = true;
        Ok(())
    }

    // Closes the file, so that the device is down.
    fn close(&mut self)
        ensures { self.new ≡ record self.old { file = None } }
    {
        self.file = None;
    }
}

// The file of a path, opened for reading and writing, where there is one that can be.
fn open_file<R: Files>(rt: &R, path: &str) -> Option<SystemFile<OwnedFile<R::File>>> {
    let file = OpenOptions::new()
        .read(true)
        .write(true)
        .open(rt, path)
        .ok()?;
    Some(SystemFile {
        of: OwnedFile { file },
    })
}

// The files of a folder.
fn open_files<R: Files + AllocGlobal>(
    rt: &R,
    folder: &str,
) -> Result<Vec<Option<SystemFile<OwnedFile<R::File>>>>, AllocError>
    ensures { IfOk result (λ files. vec_len files ≡ 10) }
{
    let mut files = Vec::with_capacity(rt.alloc(), SLOTS as usize)?;
    for number in 0..SLOTS {
        let path = format!(in rt.alloc(); "{folder}/dev{number}.img")?;
        files.push(open_file(rt, path.as_str()))?;
    }
    Ok(files)
}

impl<F: OpenFile + FileExt + Drop> FileBank<SystemFile<OwnedFile<F>>> {
    /// Opens the files of a folder, each once and for reading and writing. None is created or cut. A file
    /// that is absent, that can't be opened or whose length can't be told leaves a slot without a device,
    /// so a folder that does not exist leaves ten. `Memory` where an allocation was refused.
    pub fn open<R: Files<File = F> + AllocGlobal>(
        rt: &R,
        folder: &str,
    ) -> Result<FileBank<SystemFile<OwnedFile<F>>>, Refusal>
        ensures devices { IfOk result (λ bank.
            (⟦<FileBank<SystemFile<OwnedFile<F>>, NoRecord> as Bank>⟧.panel bank).devices ≡ 10) }
        ensures calls { IfOk result (λ bank.
            (⟦<FileBank<SystemFile<OwnedFile<F>>, NoRecord> as Bank>⟧.panel bank).calls ≡ 0) }
        ensures absent { IfOk result (λ bank. (d : ℕ)
            → (⟦<FileBank<SystemFile<OwnedFile<F>>, NoRecord> as Bank>⟧.panel bank).down d ≡ true
            → (⟦<FileBank<SystemFile<OwnedFile<F>>, NoRecord> as Bank>⟧.panel bank).sectors d ≡ 0) }
        ensures synced { IfOk result (λ bank. (d : ℕ) → (slot_at bank.slots.items d).is_synced ≡ true) }
        ensures err { IfErr result (λ refusal. refusal ≡ Refusal.Memory) }
    {
        FileBank::over(rt.alloc(), open_files(rt, folder)?, NoRecord)
    }
}

// A slot over a file, without a device where there is none or its length can't be told.
fn slot_over<F: DeviceFile + Drop>(
    alloc: Global,
    file: Option<F>,
) -> Result<Slot<BufferedFile<F>>, AllocError>
    ensures opened { IfOk result IsOpened }
    ensures made { IsTrue F.tells
        → IfOk result (IsMade F.told ⟦<BufferedFile<F> as DeviceFile>⟧.told file) }
{
    let Some(file) = file else {
        return Ok(Slot::empty());
    };
    let Ok(bytes) = file.size() else {
        return Ok(Slot::empty());
    };
    let sectors = whole_sectors(bytes);
    let file = ReadAhead::over(alloc, file, offset_of(sectors))?;
    Ok(Slot {
        file: Some(BufferedFile::over(alloc, file)?),
        sectors,
        is_synced: true,
    })
}

// The slots over files.
fn slots_over<F: DeviceFile + Drop>(
    alloc: Global,
    files: Vec<Option<F>>,
) -> Result<Vec<Slot<BufferedFile<F>>>, AllocError>
    ensures len { IfOk result (λ slots. vec_len slots ≡ vec_len files) }
    ensures opened { IfOk result (λ slots. (d : ℕ) → IsOpened (slot_at slots.items d)) }
    ensures made { IsTrue F.tells → IfOk result (λ slots. (d : ℕ) → d < vec_len files
        → IsMade F.told ⟦<BufferedFile<F> as DeviceFile>⟧.told (file_at files.items d)
        (slot_at slots.items d)) }
{
    let mut slots = Vec::with_capacity(alloc, files.len())?;
    for file in files {
        slots.push(slot_over(alloc, file)?)?;
    }
    Ok(slots)
}

impl<F: DeviceFile + Drop, R: RunRecord + Drop> FileBank<F, R> {
    /// A bank over ten files (condition), each a device, and none where there is none or its length can't be
    /// told. Where files and record tell, the run has begun with what the files hold (condition), and the
    /// bank is honest. It writes nothing to the files. `Memory` where an allocation was refused.
    pub fn over(alloc: Global, files: Vec<Option<F>>, notes: R) -> Result<FileBank<F, R>, Refusal>
        requires ten { vec_len files ≡ 10 }
        requires paired { R.tells ≡ F.tells }
        requires begun { IsTrue F.tells → BeginsWith F.told files.items (R.run notes) }
        ensures honest { IsTrue F.tells → IfOk result (λ bank. ⟦<FileBank<F, R> as Bank>⟧.honest bank) }
        ensures history { IsTrue F.tells → IfOk result (λ bank. ⟦<FileBank<F, R> as Bank>⟧.history bank ≡ R.run notes) }
        ensures devices { IfOk result (λ bank. (⟦<FileBank<F, R> as Bank>⟧.panel bank).devices ≡ 10) }
        ensures calls { IfOk result (λ bank. (⟦<FileBank<F, R> as Bank>⟧.panel bank).calls ≡ 0) }
        ensures absent { IfOk result (λ bank. (d : ℕ) → (⟦<FileBank<F, R> as Bank>⟧.panel bank).down d ≡ true
            → (⟦<FileBank<F, R> as Bank>⟧.panel bank).sectors d ≡ 0) }
        ensures synced { IfOk result (λ bank. (d : ℕ) → (slot_at bank.slots.items d).is_synced ≡ true) }
        ensures err { IfErr result (λ refusal. refusal ≡ Refusal.Memory) }
    {
        let slots = slots_over(alloc, files)?;
        Ok(FileBank {
            slots,
            notes,
            calls: 0,
        })
    }
}

impl<F: DeviceFile + Drop, R: RunRecord + Drop> Bank for FileBank<F, R> {
    ghost honest = { λ _. IsTrue F.tells };

    ghost history = { λ bank. R.run bank.notes };

    ghost panel = { λ bank. panel_of bank.slots.items bank.calls };

    ghost true_to = { λ bank honest. (bank.over honest).shown };

    fn devices(&self) -> u8 {
        SLOTS
    }

    fn sectors(&self, dev: u8) -> u32 {
        self.slots[dev as usize].sectors
    }

    fn is_down(&self, dev: u8) -> bool {
        self.slots[dev as usize].is_closed()
    }

    fn now(&self) -> u64 {
        self.calls
    }

    fn read(&mut self, dev: u8, at: u32, to: &mut Sector) -> Result<(), Down>
        requires call { CanCall dev (⟦<FileBank<F, R> as Bank>⟧.panel self.old) }
        requires within { (⟦<FileBank<F, R> as Bank>⟧.panel self.old).down dev ≡ false
            → at < (⟦<FileBank<F, R> as Bank>⟧.panel self.old).sectors dev }
        ensures panel { AfterCall dev (is_ok result) (⟦<FileBank<F, R> as Bank>⟧.panel self.old)
            (⟦<FileBank<F, R> as Bank>⟧.panel self.new) }
        ensures honest { ⟦<FileBank<F, R> as Bank>⟧.honest self.old ↔ ⟦<FileBank<F, R> as Bank>⟧.honest self.new }
        ensures history { ⟦<FileBank<F, R> as Bank>⟧.honest self.old
            → ⟦<FileBank<F, R> as Bank>⟧.history self.new ≡ after_read dev (is_ok result)
            (⟦<FileBank<F, R> as Bank>⟧.history self.old) }
        ensures bytes { ⟦<FileBank<F, R> as Bank>⟧.honest self.old
            → OnOk result (to.new ≡ sector_of (seen (⟦<FileBank<F, R> as Bank>⟧.history self.old) dev) at) }
        ensures synced { (d : ℕ) → (slot_at self.new.slots.items d).is_synced ≡
            (slot_at self.old.slots.items d).is_synced }
    {
        self.calls += 1;
        let slot = &mut self.slots[dev as usize];
        if slot.is_closed() {
            self.notes.note_quiet();
            return Err(Down);
        }
        if slot.read(at, to).is_err() {
            self.notes.note_failure(dev);
            return Err(Down);
        }
        self.notes.note_quiet();
        Ok(())
    }

    fn write(&mut self, dev: u8, at: u32, from: &Sector) -> Result<(), Down>
        requires call { CanCall dev (⟦<FileBank<F, R> as Bank>⟧.panel self.old) }
        requires within { (⟦<FileBank<F, R> as Bank>⟧.panel self.old).down dev ≡ false
            → at < (⟦<FileBank<F, R> as Bank>⟧.panel self.old).sectors dev }
        ensures panel { AfterCall dev (is_ok result) (⟦<FileBank<F, R> as Bank>⟧.panel self.old)
            (⟦<FileBank<F, R> as Bank>⟧.panel self.new) }
        ensures honest { ⟦<FileBank<F, R> as Bank>⟧.honest self.old ↔ ⟦<FileBank<F, R> as Bank>⟧.honest self.new }
        ensures history { ⟦<FileBank<F, R> as Bank>⟧.honest self.old
            → ⟦<FileBank<F, R> as Bank>⟧.history self.new ≡ after_write dev at from.now (is_ok result)
            (⟦<FileBank<F, R> as Bank>⟧.history self.old) }
        ensures synced { OnOk result ((slot_at self.new.slots.items dev).is_synced ≡ false) }
        ensures others { (d : ℕ) → d ≢ dev
            → (slot_at self.new.slots.items d).is_synced ≡ (slot_at self.old.slots.items d).is_synced }
    {
        self.calls += 1;
        let slot = &mut self.slots[dev as usize];
        if slot.is_closed() {
            self.notes.note_quiet();
            return Err(Down);
        }
        if slot.write(at, from).is_err() {
            self.notes.note_loss(dev, at, from);
            return Err(Down);
        }
        if self.notes.note_write(dev, at, from) {
            return Ok(());
        }
        slot.close();
        self.notes.note_loss(dev, at, from);
        Err(Down)
    }

    fn flush(&mut self, dev: u8) -> Result<(), Down>
        requires call { CanCall dev (⟦<FileBank<F, R> as Bank>⟧.panel self.old) }
        ensures panel { AfterCall dev (is_ok result) (⟦<FileBank<F, R> as Bank>⟧.panel self.old)
            (⟦<FileBank<F, R> as Bank>⟧.panel self.new) }
        ensures honest { ⟦<FileBank<F, R> as Bank>⟧.honest self.old ↔ ⟦<FileBank<F, R> as Bank>⟧.honest self.new }
        ensures history { ⟦<FileBank<F, R> as Bank>⟧.honest self.old
            → ⟦<FileBank<F, R> as Bank>⟧.history self.new ≡ after_flush dev (is_ok result)
            (⟦<FileBank<F, R> as Bank>⟧.history self.old) }
        // Where nothing was written to the file, it is not called: so the answer is known.
        ensures idle { (slot_at self.old.slots.items dev).is_synced ≡ true
            → is_ok result ≡ not ((⟦<FileBank<F, R> as Bank>⟧.panel self.old).down dev || R.is_full self.old.notes) }
        ensures synced { OnOk result ((slot_at self.new.slots.items dev).is_synced ≡ true) }
        ensures others { (d : ℕ) → d ≢ dev
            → (slot_at self.new.slots.items d).is_synced ≡ (slot_at self.old.slots.items d).is_synced }
    {
        self.calls += 1;
        let slot = &mut self.slots[dev as usize];
        if slot.is_closed() {
            self.notes.note_quiet();
            return Err(Down);
        }
        if slot.flush().is_err() {
            self.notes.note_failure(dev);
            return Err(Down);
        }
        if self.notes.note_flush(dev) {
            return Ok(());
        }
        slot.close();
        self.notes.note_failure(dev);
        Err(Down)
    }
}

#[cfg(test)]
mod tests;
