//! Files of the system: lengthened without their room, searched for a superblock, and cleared of it.

use super::superblocks::superblock_of;
use crate::testing::same;
use crate::{
    FolderFault, SystemFolders, clear_places, find_set, lengthen_slot, open_folder, shortest_of,
};
use std::path::PathBuf;
use std::process::Abort;
use std::rt::Files;
use std::{env, fs, process};

// The path of a file in a folder.
fn path_in(rt: &(impl AllocGlobal + Abort), folder: &PathBuf, file: &str) -> PathBuf {
    folder.join(rt.alloc(), file).expect(rt, "memory")
}

// How many bytes a file has, how many of them are 7, and how many zero.
fn counts(rt: &(impl Files + AllocGlobal + Abort), path: &PathBuf) -> (usize, usize, usize) {
    let bytes = fs::read(rt, path).expect(rt, "a file");
    (
        bytes.len(),
        bytes.iter().filter(|byte| **byte == 7).count(),
        bytes.iter().filter(|byte| **byte == 0).count(),
    )
}

#[test]
fn files_of_a_folder(rt: HostRuntime) {
    let id = process::id(rt.process());
    let name = format!(in rt.alloc(); "device_files_{id}").expect(&rt, "memory");
    let folder = env::temp_dir(&rt).expect(&rt, "a folder");
    let folder = path_in(&rt, &folder, name.as_str());
    fs::create_dir(&rt, &folder).expect(&rt, "a folder");
    let short = path_in(&rt, &folder, "dev0.img");
    let marked = path_in(&rt, &folder, "dev2.img");
    fs::write(&rt, &short, &[7; 700]).expect(&rt, "a file");
    let mut bytes = [7; 1_100];
    bytes[..512].copy_from_slice(&superblock_of(0xa2, 1));
    fs::write(&rt, &marked, &bytes).expect(&rt, "a file");
    let disk = SystemFolders { rt: &rt };
    match open_folder(rt.alloc(), &disk, folder.as_str()) {
        Ok(mut files) => {
            same(&rt, find_set(&files.files), Some([0xa2; 16]));
            same(&rt, shortest_of(&files.files, 1).ok(), Some(700));
            let absent = shortest_of(&files.files, 3);
            same(&rt, matches!(absent, Err(FolderFault::Absent(1))), true);
            let path = folder.as_str();
            let done = lengthen_slot(rt.alloc(), &disk, path, 0, 100_000, &mut files, false);
            same(&rt, done.is_ok(), true);
            same(&rt, counts(&rt, &short), (100_000, 700, 99_300));
            same(&rt, clear_places(1, &mut files.files).is_ok(), true);
            same(&rt, find_set(&files.files), None);
        }
        Err(_) => same(&rt, true, false),
    }
    same(&rt, counts(&rt, &marked), (1_100, 76, 1_024));
    same(&rt, counts(&rt, &short), (100_000, 700, 99_300));
    fs::remove_dir_all(&rt, &folder).expect(&rt, "a folder");
}
