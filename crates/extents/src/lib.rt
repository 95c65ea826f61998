//! Extents, and the table of volumes that says who has them.
#![tactic(auto)]

mod checks;
mod codec;
mod extent_index;
mod extent_layout;
mod extent_map;
mod law;
mod name;
mod owned;
mod owner_codec;
mod record;
mod record_codec;
mod set_extents;
mod version;
mod volume_table;

pub use extent_layout::ExtentLayout;
pub use extent_map::{ExtentMap, extent_map_law};
pub use law::volume_table_law;
pub use name::{MOST_NAME_BYTES, Name};
pub use owned::Owned;
pub use record::{MOST_BLOCKS, Record};
pub use version::{
    FIRST_VERSION, LARGE_VERSION, LAST_VERSION, most_name_bytes, most_volumes, table_length,
    upgraded_version, version_of,
};
pub use volume_table::{Found, MOST_VOLUMES, TABLE_SECTORS, VolumeTable};

#[cfg(test)]
mod testing;
#[cfg(test)]
mod tests;
