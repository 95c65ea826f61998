//! What a scrub tells.
ghost use Rattle.std.specs.Prelude.{◌≡◌, ◌<◌, ◌≤◌};
ghost use Rattle.sector_model.specs.declared.calls.TheConstants.{GREATEST_COUNT};
ghost use Rattle.scrub.specs.Reports.{counted, no_row_yet, report_of};

/// What a scrub of a set, or of a part of it, found.
#[derive(Clone, Copy, Debug, PartialEq, Eq)]
pub struct ScrubReport {
    /// How many rows it looked at: of a whole set 24 to 8,388,608, in format 2 to 4,294,967,280.
    pub rows: u64,
    /// How many of them are not sound: their members' sectors do not XOR to zero.
    pub bad: u64,
    /// The first of these, by its number in the set; `None` where all rows are sound.
    pub first_bad: Option<u64>,
}

impl ScrubReport {
    // What is told before the first row was looked at.
    pub(crate) fn new() -> ScrubReport
        ensures { report_of result ≡ no_row_yet }
    {
        ScrubReport {
            rows: 0,
            bad: 0,
            first_bad: None,
        }
    }

    // Tells of this row more.
    pub(crate) fn count(&mut self, row: u64, is_sound: bool)
        requires rows { self.old.rows < GREATEST_COUNT }
        requires bad { self.old.bad ≤ self.old.rows }
        ensures { report_of self.new ≡ counted (report_of self.old) row is_sound }
    {
        if !is_sound {
            self.bad += 1;
            self.first_bad = self.first_bad.or(Some(row));
        }
        self.rows += 1;
    }
}
