//! When the devices of a bank in memory go down.
ghost use Rattle.std.specs.Prelude.{◌≡◌, ◌<◌, ℕ, None, false};
ghost use Rattle.sector_model.specs.Plans.{has_come, fails_at};

/// When devices go down: each at its first call that is numbered at or above `down` of it, and every
/// device at its first call that is numbered at or above `stop`. Calls are numbered from 0.
#[derive(Clone, Copy)]
pub struct Plan {
    pub down: [Option<u64>; 10],
    pub stop: Option<u64>,
}

impl Plan {
    /// A plan by which no device goes down.
    pub const NONE: Plan = Plan {
        down: [None; 10],
        stop: None,
    };

    /// `NONE`, with the contract that no device goes down at any call by it, and that it has no crash.
    pub fn none() -> Plan
        ensures same { result ≡ Self.NONE }
        ensures stop { result.stop ≡ None }
        ensures never { (dev call : ℕ) → fails_at result dev call ≡ false }
    {
        Plan::NONE
    }

    /// Whether the device goes down at a call of this number, if it is up.
    pub fn fails(&self, dev: u8, call: u64) -> bool
        requires { dev < 10 }
        ensures { result ≡ fails_at self.now dev call }
    {
        has_begun(self.down[dev as usize], call) || has_begun(self.stop, call)
    }
}

fn has_begun(moment: Option<u64>, call: u64) -> bool
    ensures { result ≡ has_come moment call }
{
    match moment {
        Some(first) => first <= call,
        None => false,
    }
}
