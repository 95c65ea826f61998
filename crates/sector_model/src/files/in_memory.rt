//! A bank over files in memory, honest.
ghost use Rattle.std.specs.Prelude.{◌≡◌, ◌≤◌, ◌<◌, ℕ, None, vec_len, slice_index_or, IfOk, IfErr};
ghost use Rattle.sector_model.specs.History.{Began};
ghost use Rattle.sector_model.specs.Memory.{slots_of};
ghost use Rattle.sector_model.specs.Files.{IsFileOf, file_at};
ghost use Rattle.sector_model.specs.MemFiles.{contents_in};

use super::FileBank;
use crate::{Bank, Image, MemBank, MemFile, Plan, Refusal, Sector};
use std::alloc::{AllocError, Global};

const SLOTS: usize = 10;

// A file with the sectors of the slot of a number, none of an empty one or after the last.
fn file_in(
    alloc: Global,
    slots: &[Option<Vec<Sector>>],
    number: usize,
) -> Result<Option<MemFile>, AllocError>
    ensures { IfOk result (λ file. IsFileOf contents_in (slice_index_or slots.now number None) file) }
{
    if number >= slots.len() {
        return Ok(None);
    }
    match &slots[number] {
        Some(disk) => Ok(Some(MemFile::new(alloc, disk)?)),
        None => Ok(None),
    }
}

// The files of ten slots.
fn files_of(
    alloc: Global,
    slots: &[Option<Vec<Sector>>],
) -> Result<Vec<Option<MemFile>>, AllocError>
    ensures ten { IfOk result (λ files. vec_len files ≡ 10) }
    ensures each { IfOk result (λ files. (d : ℕ) → d < 10
        → IsFileOf contents_in (slice_index_or slots.now d None) (file_at files.items d)) }
{
    let mut files = Vec::with_capacity(alloc, SLOTS)?;
    for number in 0..SLOTS {
        files.push(file_in(alloc, slots, number)?)?;
    }
    Ok(files)
}

impl FileBank<MemFile, MemBank> {
    /// A bank over files in memory that hold this image, which has 5 to 10 slots (condition). It is honest. Its
    /// record has room for `room` writes and flushes: one that finds it full makes its device go down.
    /// `Memory` where an allocation was refused.
    pub fn in_memory(
        alloc: Global,
        image: Image,
        room: usize,
    ) -> Result<FileBank<MemFile, MemBank>, Refusal>
        requires least { 5 ≤ vec_len image.slots }
        requires most { vec_len image.slots ≤ 10 }
        ensures honest { IfOk result (λ bank. ⟦<FileBank<MemFile, MemBank> as Bank>⟧.honest bank) }
        ensures history { IfOk result (λ bank. ⟦<FileBank<MemFile, MemBank> as Bank>⟧.history bank ≡ Began
            (slots_of image.slots.items)) }
        ensures err { IfErr result (λ refusal. refusal ≡ Refusal.Memory) }
    {
        let files = files_of(alloc, &image.slots)?;
        let notes = MemBank::new(alloc, image, Plan::NONE, room)?;
        FileBank::over(alloc, files, notes)
    }
}
