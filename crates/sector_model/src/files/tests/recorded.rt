//! Files in memory that record each of their calls.
ghost use Rattle.std.specs.Prelude.{◌≤◌, IfOk, length};
ghost use Rattle.std.specs.Counts.{IsPrefixLen};

use crate::testing::same;
use crate::{FileBank, NoRecord, OwnedFile, SystemFile};
use std::cell::RefCell;
use std::fs::{Metadata, OpenFile};
use std::io;
use std::os::unix::fs::FileExt;
use std::process::Abort;

/// A call of the file of a device: a read or a write from a byte place on, with so many bytes that are asked for or
/// given, or a sync.
#[derive(Clone, Copy, PartialEq, Debug)]
pub(crate) enum Call {
    Read(u8, u64, usize),
    Write(u8, u64, usize),
    Sync(u8),
}

/// How files answer. Their calls are numbered from 0, all of them together.
#[derive(Clone, Copy)]
pub(crate) enum Manner {
    /// They do what is asked for, but calls of these numbers fail.
    Fails(&'static [usize]),
    /// A read or a write takes 100 bytes at most, and each second call, from the first on, is interrupted unless it is
    /// a sync.
    IsSlow,
}

/// The files of devices, one for each from number 0 on, and the calls that they have seen since these were last asked
/// for.
#[derive(Drop)]
pub(crate) struct Recorded {
    pub files: Vec<Vec<u8>>,
    calls: Vec<Call>,
    made: usize,
    manner: Manner,
}

impl Recorded {
    // Records a call, and says how many bytes of so many it takes.
    fn take(&mut self, call: Call, asked: usize) -> io::Result<usize>
        ensures { IfOk result (λ n. n ≤ asked) }
    {
        self.calls.push(call)?;
        let number = self.made;
        self.made = number.wrapping_add(1);
        match self.manner {
            Manner::Fails(numbers) => {
                if numbers.contains(&number) {
                    return Err(io::ErrorKind::Other.into());
                }
                Ok(asked)
            }
            Manner::IsSlow => {
                if number % 2 == 0 && asked > 0 {
                    return Err(io::ErrorKind::Interrupted.into());
                }
                Ok(asked.min(100))
            }
        }
    }

    fn read(&mut self, device: u8, place: u64, to: &mut [u8]) -> io::Result<usize>
        ensures { IfOk result (λ n. IsPrefixLen n to.new) }
    {
        let count = self.take(Call::Read(device, place, to.len()), to.len())?;
        let Some(file) = self.files.get(device as usize) else {
            return Ok(0);
        };
        for k in 0..count {
            let Some(byte) = file.get((place as usize).saturating_add(k)) else {
                return Ok(k);
            };
            to[k] = *byte;
        }
        Ok(count)
    }

    fn write(&mut self, device: u8, place: u64, from: &[u8]) -> io::Result<usize>
        ensures { IfOk result (λ n. n ≤ length from.now) }
    {
        let count = self.take(Call::Write(device, place, from.len()), from.len())?;
        let Some(file) = self.files.get_mut(device as usize) else {
            return Ok(0);
        };
        for k in 0..count {
            let Some(byte) = file.get_mut((place as usize).saturating_add(k)) else {
                return Ok(k);
            };
            *byte = from[k];
        }
        Ok(count)
    }
}

/// The file of a device.
#[derive(Drop)]
pub(crate) struct RecordedFile<'a> {
    device: u8,
    record: &'a RefCell<Recorded>,
}

impl FileExt for RecordedFile<'_> {
    fn read_at(&self, buf: &mut [u8], offset: u64) -> io::Result<usize> {
        let Ok(mut record) = self.record.try_borrow_mut() else {
            return Ok(0);
        };
        record.read(self.device, offset, buf)
    }

    fn write_at(&self, buf: &[u8], offset: u64) -> io::Result<usize> {
        let Ok(mut record) = self.record.try_borrow_mut() else {
            return Ok(0);
        };
        record.write(self.device, offset, buf)
    }
}

impl OpenFile for RecordedFile<'_> {
    fn metadata(&self) -> io::Result<Metadata> {
        let Ok(record) = self.record.try_borrow() else {
            return Err(io::ErrorKind::Other.into());
        };
        let Some(file) = record.files.get(self.device as usize) else {
            return Err(io::ErrorKind::NotFound.into());
        };
        Ok(Metadata::of_file(file.len() as u64))
    }

    fn set_len(&self, _size: u64) -> io::Result<()> {
        Err(io::ErrorKind::Other.into())
    }

    fn sync_all(&self) -> io::Result<()> {
        Err(io::ErrorKind::Other.into())
    }

    fn sync_data(&self) -> io::Result<()> {
        let Ok(mut record) = self.record.try_borrow_mut() else {
            return Err(io::ErrorKind::Other.into());
        };
        record.take(Call::Sync(self.device), 0)?;
        Ok(())
    }
}

/// A bank of ten slots over recorded files.
pub(crate) type RecordedBank<'a> = FileBank<SystemFile<OwnedFile<RecordedFile<'a>>>>;

/// Files with so many bytes, each of which is its place mod 251.
pub(crate) fn rising_files(
    rt: &(impl Abort + AllocGlobal),
    manner: Manner,
    lengths: &[u64],
) -> RefCell<Recorded> {
    let mut files = Vec::new(rt.alloc());
    for length in lengths {
        let mut file = Vec::new(rt.alloc());
        for place in 0..*length {
            file.push((place % 251) as u8).expect(rt, "memory");
        }
        files.push(file).expect(rt, "memory");
    }
    RefCell::new(Recorded {
        files,
        calls: Vec::new(rt.alloc()),
        made: 0,
        manner,
    })
}

/// The bank over these files. The other slots are without a device.
pub(crate) fn bank_over<'a>(
    rt: &(impl Abort + AllocGlobal),
    record: &'a RefCell<Recorded>,
) -> RecordedBank<'a> {
    let mut files = Vec::new(rt.alloc());
    for device in 0..10u8 {
        let file = RecordedFile { device, record };
        files
            .push(Some(SystemFile {
                of: OwnedFile { file },
            }))
            .expect(rt, "memory");
    }
    assert!(rt; files.len() == 10);
    FileBank::over(rt.alloc(), files, NoRecord).expect(rt, "memory")
}

/// The calls that the files have seen since the last time, which are these.
pub(crate) fn are_called(
    rt: &(impl Abort + AllocGlobal),
    record: &RefCell<Recorded>,
    row: u64,
    calls: &[Call],
) {
    let mut record = record.try_borrow_mut().expect(rt, "a record");
    same(rt, (row, record.calls.as_slice()), (row, calls));
    record.calls.clear();
}
