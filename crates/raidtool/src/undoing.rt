//! How a command ended over files that it may have made, and what of them is taken back where it was not done.
ghost use Rattle.std.specs.Prelude.{◌≡◌, ◌↔◌, map, string_bytes, true};
ghost use Rattle.raidtool.specs.Done.{IsUndone};
ghost use Rattle.raidtool.specs.FolderFiles.{AreTakenBack};

use device_files::{FolderFault, Growing, SlotFiles, SlotPaths, UndoLog, undo};
use sector_model::Refusal;

/// How a command ended over files that it may have made.
#[derive(Drop)]
pub(crate) struct Ended<F: Drop> {
    /// How it ended.
    pub(crate) done: Result<(), FolderFault>,
    /// What could still be taken back; none where it was.
    pub(crate) log: Option<UndoLog>,
    /// The files.
    pub(crate) files: Vec<Option<F>>,
}

/// The end of a command over files: where it was not done, what was made of them is taken back. A fault of that has no
/// place to be told.
pub(crate) fn settle<D: SlotFiles>(
    disk: &D,
    paths: &SlotPaths,
    done: Result<(), FolderFault>,
    log: UndoLog,
    files: Vec<Option<D::File>>,
) -> Ended<D::File>
    ensures done { result.done ≡ done }
    ensures kept { ¬ IsUndone done → (result.log ≡ Some log) × (result.files ≡ files) }
    ensures undone { IsUndone done → AreTakenBack ⟦<D::File as Growing>⟧ (D.removes disk.now)
        (map string_bytes paths.now.paths.items) log.before files.items result.files.items }
{
    if is_undone(&done) {
        let mut files = files;
        let _ = undo(disk, paths, log, &mut files);
        return Ended {
            done,
            log: None,
            files,
        };
    }
    Ended {
        done,
        log: Some(log),
        files,
    }
}

// Whether a command was not done: it was refused, and not because that could not be told.
fn is_undone(done: &Result<(), FolderFault>) -> bool
    ensures { result ≡ true ↔ IsUndone done.now }
{
    !matches!(
        done,
        Ok(()) | Err(FolderFault::Refused(Refusal::WriteFault))
    )
}
