//! How far a long command is, for whoever watches.
ghost use Rattle.std.specs.Prelude.{◌≡◌, ◌↔◌, ◌≤◌, ℕ, IfSome, IsNone, Option};
ghost use Rattle.set_commands.specs.Progress.{IsShown, left_of, percent_of, speed_of, time_left_of};

mod progress_bank;
mod terminal;

pub use progress_bank::ProgressBank;

const SECOND: u64 = 1_000;

const MINUTE: u64 = 60_000;

const HOUR: u64 = 3_600_000;

const SECTOR_BYTES: u128 = 512;

// The bytes of a millisecond at 1 MB a second, of 1,000,000 bytes.
const MB: u128 = 1_000;

const TENTH: u128 = 100;

/// A time that is left, in the unit that suits it, rounded down.
#[derive(Clone, Copy, Debug, PartialEq, Eq)]
pub enum Left {
    /// Below two minutes.
    Seconds(u64),
    /// Below two hours.
    Minutes(u64),
    /// Two hours or more.
    Hours(u64),
}

/// A speed in MB a second, of 1,000,000 bytes, rounded down.
#[derive(Clone, Copy, Debug, PartialEq, Eq)]
pub enum Speed {
    /// Tenths of a MB a second, where it is below 10 MB a second.
    Tenths(u64),
    /// MB a second, 10 or more.
    Whole(u64),
}

/// A runtime that can show how far a command is.
pub trait Meter {
    /// What looking at the clock gave.
    ghost reads: { Self → Option ℕ → Type 0 };

    /// The milliseconds since an arbitrary start, which stays the same. `None` where nobody watches, or no clock tells
    /// the time: nothing is shown then.
    fn millis(&self) -> Option<u64>
        ensures { reads self.now result };

    /// Shows that so many percent are done, 0 to 100, and, where that can be told, how fast the members' rows were gone
    /// over since the command began, and about how much time is left, in place of what was shown before. Both are by
    /// two looks at this very clock.
    fn show(&self, percent: u8, speed: Option<Speed>, left: Option<Left>)
        requires { ∥ IsShown (reads self.now) percent speed left ∥₁ };

    /// Takes away what was shown.
    fn clear(&self);
}

/// How many percent of a total are done, rounded down: 0 to 100. They are 100 where there is no more to do.
pub fn percent(done: u64, total: u64) -> u8
    ensures exact { result ≡ percent_of done total }
    ensures most { result ≤ 100 }
{
    if done >= total {
        return 100;
    }
    let part = 100 * u128::from(done) / u128::from(total);
    part as u8
}

/// The speed at which so many sectors, of 512 bytes each, were gone over in so many milliseconds. `None` where none
/// were, or no time has passed.
pub fn average_speed(elapsed: u64, done: u64) -> Option<Speed>
    ensures { result ≡ speed_of elapsed done }
{
    if done == 0 || elapsed == 0 {
        return None;
    }
    let bytes = SECTOR_BYTES * u128::from(done);
    let millis = u128::from(elapsed);
    if bytes < 10 * MB * millis {
        Some(Speed::Tenths((bytes / (TENTH * millis)) as u64))
    } else {
        Some(Speed::Whole((bytes / (MB * millis)) as u64))
    }
}

/// The time that is left, in the unit of the time in which so much of a total was done, where the rest goes on alike;
/// at most 2^64 - 1. `None` where nothing is done yet.
pub fn time_left(elapsed: u64, done: u64, total: u64) -> Option<u64>
    ensures none { IsNone result ↔ (done ≡ 0) }
    ensures some { IfSome result (λ left. left ≡ time_left_of elapsed done total) }
{
    if done == 0 {
        return None;
    }
    let rest = total.saturating_sub(done);
    let left = u128::from(elapsed) * u128::from(rest) / u128::from(done);
    Some(left.min(u128::from(u64::MAX)) as u64)
}

/// So many milliseconds in the unit that suits them.
pub fn in_words(millis: u64) -> Left
    ensures { result ≡ left_of millis }
{
    if millis < 2 * MINUTE {
        Left::Seconds(millis / SECOND)
    } else if millis < 2 * HOUR {
        Left::Minutes(millis / MINUTE)
    } else {
        Left::Hours(millis / HOUR)
    }
}
