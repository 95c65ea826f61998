//! Files in memory that record each of their calls.
ghost use Rattle.std.specs.Prelude.{◌≤◌, IfOk, length};
ghost use Rattle.std.specs.Counts.{IsPrefixLen};

use sector_model::{FileBank, NoRecord, OwnedFile, SystemFile};
use std::cell::RefCell;
use std::fs::{Metadata, OpenFile};
use std::io;
use std::os::unix::fs::FileExt;
use std::process::Abort;

/// A call of a file: a read or a write of so many bytes from a byte place on, or a sync.
#[derive(Clone, Copy, PartialEq, Debug)]
pub(crate) enum FileCall {
    Read(u64, usize),
    Write(u64, usize),
    Sync,
}

/// The files of devices, one for each from number 0 on, and their calls, each with the number of its device.
#[derive(Drop)]
pub(crate) struct Recorded {
    pub files: Vec<Vec<u8>>,
    pub calls: Vec<(u8, FileCall)>,
}

impl Recorded {
    fn read(&mut self, device: u8, place: u64, to: &mut [u8]) -> io::Result<usize>
        ensures { IfOk result (λ n. IsPrefixLen n to.new) }
    {
        self.calls.push((device, FileCall::Read(place, to.len())))?;
        let Some(file) = self.files.get(device as usize) else {
            return Ok(0);
        };
        for k in 0..to.len() {
            let Some(byte) = file.get((place as usize).saturating_add(k)) else {
                return Ok(k);
            };
            to[k] = *byte;
        }
        Ok(to.len())
    }

    fn write(&mut self, device: u8, place: u64, from: &[u8]) -> io::Result<usize>
        ensures { IfOk result (λ n. n ≤ length from.now) }
    {
        self.calls
            .push((device, FileCall::Write(place, from.len())))?;
        let Some(file) = self.files.get_mut(device as usize) else {
            return Ok(0);
        };
        for k in 0..from.len() {
            let Some(byte) = file.get_mut((place as usize).saturating_add(k)) else {
                return Ok(k);
            };
            *byte = from[k];
        }
        Ok(from.len())
    }
}

/// The file of a device.
#[derive(Drop)]
pub(crate) struct RecordedFile<'a> {
    device: u8,
    record: &'a RefCell<Recorded>,
}

impl FileExt for RecordedFile<'_> {
    fn read_at(&self, buf: &mut [u8], offset: u64) -> io::Result<usize> {
        let Ok(mut record) = self.record.try_borrow_mut() else {
            return Ok(0);
        };
        record.read(self.device, offset, buf)
    }

    fn write_at(&self, buf: &[u8], offset: u64) -> io::Result<usize> {
        let Ok(mut record) = self.record.try_borrow_mut() else {
            return Ok(0);
        };
        record.write(self.device, offset, buf)
    }
}

impl OpenFile for RecordedFile<'_> {
    fn metadata(&self) -> io::Result<Metadata> {
        let Ok(record) = self.record.try_borrow() else {
            return Err(io::ErrorKind::Other.into());
        };
        let Some(file) = record.files.get(self.device as usize) else {
            return Err(io::ErrorKind::NotFound.into());
        };
        Ok(Metadata::of_file(file.len() as u64))
    }

    fn set_len(&self, _size: u64) -> io::Result<()> {
        Err(io::ErrorKind::Other.into())
    }

    fn sync_all(&self) -> io::Result<()> {
        Err(io::ErrorKind::Other.into())
    }

    fn sync_data(&self) -> io::Result<()> {
        let Ok(mut record) = self.record.try_borrow_mut() else {
            return Err(io::ErrorKind::Other.into());
        };
        record.calls.push((self.device, FileCall::Sync))?;
        Ok(())
    }
}

/// A bank of ten slots over recorded files.
pub(crate) type RecordedBank<'a> = FileBank<SystemFile<OwnedFile<RecordedFile<'a>>>>;

/// The bank over these files. The other slots are without a device.
pub(crate) fn bank_over<'a>(
    rt: &(impl Abort + AllocGlobal),
    record: &'a RefCell<Recorded>,
) -> RecordedBank<'a> {
    let mut files = Vec::new(rt.alloc());
    for device in 0..10u8 {
        let file = RecordedFile { device, record };
        files
            .push(Some(SystemFile {
                of: OwnedFile { file },
            }))
            .expect(rt, "memory");
    }
    assert!(rt; files.len() == 10);
    FileBank::over(rt.alloc(), files, NoRecord).expect(rt, "memory")
}
