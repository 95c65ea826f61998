//! A model of sector devices that may fail, and of crashes at any moment.
#![tactic(auto)]

mod bank;
mod buffered_file;
mod calls;
mod choice;
mod device_file;
mod event;
mod files;
mod mem_file;
mod memory;
mod plan;
mod read_ahead;
mod refusal;
mod run_record;
mod sector;
mod span;
#[cfg(test)]
mod testing;

pub use bank::Bank;
pub use calls::{GREATEST_COUNT, flush_device, read_sector, write_sector};
pub use choice::Choice;
pub use device_file::{DeviceFile, HasFile, OwnedFile, SystemFile};
pub use event::Event;
pub use files::FileBank;
pub use mem_file::MemFile;
pub use memory::{Image, MemBank};
pub use plan::Plan;
pub use refusal::Refusal;
pub use run_record::{NoRecord, RunRecord};
pub use sector::{Down, Sector, Stop};
