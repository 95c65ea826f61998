//! Writes to a device file that wait, so that those that lie together are one call of the file.
ghost use Rattle.std.specs.Prelude.{◌≡◌, ◌≢◌, ◌⊎◌, ◌≤◌, ◌<◌, ◌+◌, ◌^◌, ℕ, IfErr, IfOk, IsTrue, OnOk, length, true};
ghost use Rattle.std.specs.IoError.{error_kind};
ghost use Rattle.sector_model.specs.DeviceFiles.{AreAt, IsWritten, IsSynced};
ghost use Rattle.sector_model.specs.Spans.{IsShownAs, with_span};

use crate::DeviceFile;
use crate::device_file::write_whole;
use crate::read_ahead::ReadAhead;
use crate::span::Span;
use std::alloc::{AllocError, Global};
use std::io::{self, ErrorKind};

/// A device file of which bytes that were written wait, 64 KiB at most, as long as each write begins where the
/// one before ended. They are written by one call before the file is synced, and at a write that begins
/// elsewhere or has no room. A read gives what was written, waiting or not. What waits when this value is
/// dropped is lost, as it may be by a crash; so is what a call that answered a fault was to write.
#[derive(Drop)]
pub struct BufferedFile<F: DeviceFile> {
    file: ReadAhead<F>,
    waiting: Span,
    ghost within: { IsTrue F.tells → waiting.start + waiting.len ≤ (F.told file.file).size },
}

impl<F: DeviceFile + Drop> BufferedFile<F> {
    /// Nothing waits. `AllocError` where an allocation was refused.
    pub(crate) fn over(alloc: Global, file: ReadAhead<F>) -> Result<BufferedFile<F>, AllocError>
        ensures file { IfOk result (λ buffered. buffered.file ≡ file) }
        ensures none { IfOk result (λ buffered. buffered.waiting.len ≡ 0) }
    {
        Ok(BufferedFile {
            file,
            waiting: Span::new(alloc)?,
        })
    }
}

impl<F: DeviceFile> BufferedFile<F> {
    // Writes what waits; then nothing does, also after a fault.
    fn write_out(&mut self) -> io::Result<()>
        ensures shown { IsTrue F.tells → OnOk result (IsShownAs
            (with_span (F.told self.old.file.file)
            self.old.waiting.start self.old.waiting.len self.old.waiting.bytes.items) (F.told self.new.file.file)) }
        ensures length { IsTrue F.tells → (F.told self.new.file.file).size ≡ (F.told self.old.file.file).size }
        ensures start { self.new.waiting.start ≡ 0 }
        ensures none { self.new.waiting.len ≡ 0 }
        ensures retried { IfErr result (λ e. error_kind e ≢ ErrorKind.Interrupted) }
    {
        if self.waiting.is_empty() {
            self.waiting.restart(0);
            return Ok(());
        }
        let place = self.waiting.start();
        let written = write_whole(&mut self.file, place, self.waiting.held());
        self.waiting.restart(0);
        written
    }
}

impl<F: DeviceFile> DeviceFile for BufferedFile<F> {
    ghost tells = { F.tells };

    ghost told = { λ buffered. with_span (F.told buffered.file.file)
        buffered.waiting.start buffered.waiting.len buffered.waiting.bytes.items };

    fn size(&self) -> io::Result<u64> {
        self.file.size()
    }

    fn read_part(&mut self, place: u64, to: &mut [u8]) -> io::Result<usize> {
        if self.waiting.has(place) {
            return Ok(self.waiting.copy_out(place, to));
        }
        let count = self.waiting.room_before(place, to.len());
        self.file.read_part(place, &mut to[..count])
    }

    fn write_part(&mut self, place: u64, from: &[u8]) -> io::Result<usize> {
        if !self.waiting.ends_at(place) {
            self.write_out()?;
            self.waiting.restart(place);
        }
        Ok(self.waiting.append(from))
    }

    fn sync(&mut self) -> io::Result<()> {
        self.write_out()?;
        self.file.sync()
    }
}
