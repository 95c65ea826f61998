//! Reads of a device file that go on after what is asked for, where reads follow one another.
ghost use Rattle.std.specs.Prelude.{◌≡◌, ◌≤◌, ◌<◌, ◌+◌, ◌^◌, IfOk, IsTrue, length};
ghost use Rattle.sector_model.specs.DeviceFiles.{AreAt};

use crate::DeviceFile;
use crate::span::{SPAN_BYTES, Span};
use std::alloc::{AllocError, Global};
use std::io;

const LEAST_AHEAD: usize = 4_096;

/// A device file of which a read that begins where the one before ended goes on to the next multiple of 4,096
/// bytes, the one that follows that to the next of 8,192, and so on up to 65,536, and not after the file's end.
/// What is asked for next is answered from there. A fault of such a read is none of the bytes that were asked
/// for, which are then read by themselves.
#[derive(Drop)]
pub struct ReadAhead<F: DeviceFile> {
    file: F,
    end: u64,
    ahead: Span,
    // Where a read begins that follows the last one.
    next: u64,
    // To the next multiple of this many bytes went the last read that went on; 0 where the last read followed none.
    window: usize,
    ghost same: { IsTrue F.tells → AreAt (F.told file).byte ahead.start ahead.len ahead.bytes.items },
    ghost within: { IsTrue F.tells → end ≤ (F.told file).size },
    ghost widest: { window ≤ 65536 },
}

// The window of a read that follows one of this window.
fn wider(window: usize) -> usize
    requires { window ≤ 65536 }
    ensures least { 4096 ≤ result }
    ensures most { result ≤ 65536 }
{
    (2 * window).clamp(LEAST_AHEAD, SPAN_BYTES)
}

impl<F: DeviceFile + Drop> ReadAhead<F> {
    /// Nothing was read. A file that tells has at least `end` bytes (condition). `AllocError` where an allocation was
    /// refused.
    pub(crate) fn over(alloc: Global, file: F, end: u64) -> Result<ReadAhead<F>, AllocError>
        requires { IsTrue F.tells → end ≤ (F.told file).size }
        ensures { IfOk result (λ read. read.file ≡ file) }
    {
        Ok(ReadAhead {
            file,
            end,
            ahead: Span::new(alloc)?,
            next: u64::MAX,
            window: 0,
        })
    }
}

impl<F: DeviceFile> ReadAhead<F> {
    // Where a read from this place on follows the last one, reads on from there, if that is more than is asked for.
    fn read_on(&mut self, place: u64, asked: usize)
        ensures { IsTrue F.tells → F.told self.new.file ≡ F.told self.old.file }
    {
        if place != self.next || place >= self.end {
            self.window = 0;
            return;
        }
        self.window = wider(self.window);
        let window = self.window as u64;
        let count = (window - place % window).min(self.end - place) as usize;
        if count > asked {
            self.ahead.read_from(&mut self.file, place, count);
        }
    }
}

impl<F: DeviceFile> DeviceFile for ReadAhead<F> {
    ghost tells = { F.tells };

    ghost told = { λ read. F.told read.file };

    fn size(&self) -> io::Result<u64> {
        self.file.size()
    }

    fn read_part(&mut self, place: u64, to: &mut [u8]) -> io::Result<usize> {
        if !self.ahead.has(place) {
            self.read_on(place, to.len());
        }
        let count = if self.ahead.has(place) {
            self.ahead.copy_out(place, to)
        } else {
            self.file.read_part(place, to)?
        };
        self.next = place + count as u64;
        Ok(count)
    }

    fn write_part(&mut self, place: u64, from: &[u8]) -> io::Result<usize> {
        match self.file.write_part(place, from) {
            Ok(count) => {
                self.ahead.patch(place, &from[..count]);
                Ok(count)
            }
            Err(fault) => {
                self.ahead.restart(0);
                Err(fault)
            }
        }
    }

    fn sync(&mut self) -> io::Result<()> {
        let synced = self.file.sync();
        if synced.is_err() {
            self.ahead.restart(0);
        }
        synced
    }
}
