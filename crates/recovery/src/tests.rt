//! Sets in memory, by the calls of several modules.

mod committing;
