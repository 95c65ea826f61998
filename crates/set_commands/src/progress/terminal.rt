//! How far a command is, on a terminal.

use super::{Left, Meter, Speed};
use std::io::{self, IsTerminal, Write};
use std::rt::Clock;

/// It is shown on the line of standard error where that is a terminal, and nowhere else. A fault of standard error has
/// no place to be told.
impl Meter for HostRuntime {
    ghost use Rattle.std.specs.Prelude.{⊤};

    ghost reads = { λ _ _. ⊤ };

    fn millis(&self) -> Option<u64> {
        if !self.stderr().is_terminal() {
            return None;
        }
        let since_start = self.monotonic().ok()?;
        u64::try_from(since_start.as_millis()).ok()
    }

    fn show(&self, percent: u8, speed: Option<Speed>, left: Option<Left>) {
        let _ = write_line(&mut self.stderr(), percent, speed, left);
    }

    fn clear(&self) {
        let _ = write_blank(&mut self.stderr());
    }
}

// Writes over the line what is done, how fast, and what is left. The text is as long as any other of less than 10,000
// MB a second and 1,000 hours.
fn write_line<E: Write>(
    err: &mut E,
    percent: u8,
    speed: Option<Speed>,
    left: Option<Left>,
) -> io::Result<()> {
    write!(err, "\r{percent:3} %")?;
    write_speed(err, speed)?;
    write_left(err, left)?;
    // What is missing to ", 9999 MB/s".
    let blanks = match speed {
        None => 11,
        Some(Speed::Whole(1_000..)) => 0,
        Some(_) => 1,
    };
    write!(err, "{:blanks$}", "")
}

fn write_speed<E: Write>(err: &mut E, speed: Option<Speed>) -> io::Result<()> {
    match speed {
        None => Ok(()),
        Some(Speed::Tenths(count)) => write!(err, ", {}.{} MB/s", count / 10, count % 10),
        Some(Speed::Whole(count)) => write!(err, ", {count:3} MB/s"),
    }
}

fn write_left<E: Write>(err: &mut E, left: Option<Left>) -> io::Result<()> {
    match left {
        None => write!(err, "{:14}", ""),
        Some(Left::Seconds(count)) => write!(err, ", {count:3} s left  "),
        Some(Left::Minutes(count)) => write!(err, ", {count:3} min left"),
        Some(Left::Hours(count)) => write!(err, ", {count:3} h left  "),
    }
}

// Makes the line blank.
fn write_blank<E: Write>(err: &mut E) -> io::Result<()> {
    write!(err, "\r{:30}\r", "")
}

#[cfg(test)]
mod tests;
