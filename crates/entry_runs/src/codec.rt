//! Runs as 464 bytes with their count beside them, and these as runs.
ghost use Rattle.std.specs.Prelude.{◌≡◌, ◌≤◌, ◌<◌, ℕ, IfSome, Some, length, map};
ghost use Rattle.std.specs.List.{range_with_len};
ghost use Rattle.entry_runs.specs.declared.runs.Runs.{Runs};
ghost use Rattle.entry_runs.specs.declared.sizes.TheConstants.{MOST_RUNS, RUN_BYTES, RUNS_BYTES};
ghost use Rattle.entry_runs.specs.Spelling.{run_bytes, run_in, runs_bytes};

use crate::checks::are_runs;
use crate::{MOST_RUNS, RUN_BYTES, RUNS_BYTES, Run, Runs};
use arrayvec::ArrayVec;
use byteorder::{ByteOrder, LittleEndian};

/// Writes the one spelling of runs, over whatever the bytes held. Their count, which `runs.list.len()` gives, stands
/// elsewhere.
pub fn encode_runs(runs: &Runs, to: &mut [u8; RUNS_BYTES])
    ensures { to.new ≡ runs_bytes runs.now.list.items }
{
    to.fill(0);
    let list = runs.list.as_slice();
    for (number, run) in list.iter().enumerate() {
        let at = RUN_BYTES * number;
        to[at..at + RUN_BYTES].copy_from_slice(&encode_run(run));
    }
}

/// The bytes of a run.
fn encode_run(run: &Run) -> [u8; RUN_BYTES]
    ensures { result ≡ run_bytes run.now }
{
    let first = u64::from(run.first).to_le_bytes();
    let length = run.length.to_le_bytes();
    [
        first[0], first[1], first[2], first[3], first[4], length[0], length[1], run.mask,
    ]
}

/// The runs that these bytes spell, of which there are so many, or `None` where they spell none: where the count is not
/// 1 to 58, bytes after the last run are not 0, a run has no row or one from 2^32 on, its mask has one bit, a run is
/// not above the one before or touches it and has its mask, more than 2,048 rows have a mask, or they hold more than
/// 4,096 sectors.
pub fn decode_runs(from: &[u8; RUNS_BYTES], count: u32) -> Option<Runs>
    ensures some { IfSome result (λ runs. (from.now ≡ runs_bytes runs.list.items) × (count ≡ length runs.list.items)) }
    ensures exact { (runs : Runs) → from.now ≡ runs_bytes runs.list.items → count ≡ length runs.list.items
        → result ≡ Some runs }
{
    let runs = read_runs(from, count)?;
    let mut again = [0; RUNS_BYTES];
    encode_runs(&runs, &mut again);
    if again == *from { Some(runs) } else { None }
}

/// The runs whose fields stand in these bytes, if they are runs of an entry. It looks at no byte outside the fields.
fn read_runs(from: &[u8; RUNS_BYTES], count: u32) -> Option<Runs>
    ensures counted { IfSome result (λ runs. count ≡ length runs.list.items) }
    ensures exact { (runs : Runs) → from.now ≡ runs_bytes runs.list.items → count ≡ length runs.list.items
        → result ≡ Some runs }
{
    let count = count as usize;
    if count > MOST_RUNS {
        return None;
    }
    let list = read_list(from, count);
    if !are_runs(list.as_slice()) {
        return None;
    }
    Some(Runs { list })
}

/// So many runs, at most 58 (condition), that stand in these bytes.
fn read_list(from: &[u8; RUNS_BYTES], count: usize) -> ArrayVec<Run, MOST_RUNS>
    requires { count ≤ MOST_RUNS }
    ensures { result.items ≡ map (λ number. run_in from.now number) (range_with_len 0 count) }
{
    let mut list = ArrayVec::new();
    for number in 0..count {
        list.push(read_run(from, number));
    }
    list
}

/// The run of this number, at most 57 (condition), that stands in these bytes, without the fifth byte of its first row.
fn read_run(from: &[u8; RUNS_BYTES], number: usize) -> Run
    requires { number < MOST_RUNS }
    ensures { result ≡ run_in from.now number }
{
    let at = RUN_BYTES * number;
    Run {
        first: LittleEndian::read_u32(&from[at..at + 4]),
        length: LittleEndian::read_u16(&from[at + 5..at + 7]),
        mask: from[at + 7],
    }
}
