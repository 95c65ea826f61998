//! Lines of the program over real files, and what the program writes when.

mod examines;
mod held;
mod large;
mod locked;
mod program;
mod renames;
mod repair;
mod sending;
mod served;
mod starting;
mod unsynced;
mod upgrade;
mod whole_again;
