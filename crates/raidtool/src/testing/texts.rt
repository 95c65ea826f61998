//! What lines of the program over set A write, where several tests say it.

pub(crate) const OK: &str = "ok\n";

pub(crate) const MADE: &str = "made\n";

pub(crate) const COMPLETE: &str = "complete\n";

pub(crate) const SOUND: &str = "256 rows, 0 bad\n";

pub(crate) const WOULD_LOSE: &str = "refused 9 WouldLose\n";

pub(crate) const NOT_MISSING: &str = "refused 10 NotMissing\n";

pub(crate) const NOTHING_TO_REBUILD: &str = "refused 12 NothingToRebuild\n";

pub(crate) const INCOMPLETE: &str = "refused 13 Incomplete\n";

pub(crate) const TWO_LOST: &str = "refused 15 TwoLost\n";

pub(crate) const NO_SET: &str = "refused 17 NoSet\n";

pub(crate) const WRITE_FAULT: &str = "refused 22 WriteFault\n";

pub(crate) const BAD_ID: &str = "bad id\n";

/// The status of set A with a volume of one extent, once slot 2 is missing.
pub(crate) const MEMBER_DOWN: &str = "\
set 000102030405060708090a0b0c0d0e0f
members 3 chunk 8 stripes 32 rows 256
generation 2 position 0 left 0
extents 7 free 6 volumes 1 table 1
 0 member   in-sync    1
 1 member   in-sync    1
 2 member   missing    1
 3 journal  in-sync    1
 4 journal  in-sync    1
";

/// The same while slot 2 is rebuilding, of which no row is done.
pub(crate) const REBUILDING: &str = "\
set 000102030405060708090a0b0c0d0e0f
members 3 chunk 8 stripes 32 rows 256
generation 3 position 0 left 4
extents 7 free 6 volumes 1 table 1
 0 member   in-sync    1
 1 member   in-sync    1
 2 member   rebuilding 2
 3 journal  in-sync    1
 4 journal  in-sync    1
";
