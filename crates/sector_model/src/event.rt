//! What a device call did.

use crate::Sector;

/// What one device call did to the devices. Devices are slot numbers, places are sectors of the device.
#[derive(Clone, Copy)]
pub enum Event {
    /// Nothing changed: a read that was answered, or a call of a device that was down already.
    Quiet,
    /// A write that was answered.
    Wrote { device: u8, at: u32, value: Sector },
    /// A write at which the device went down. It may have landed.
    Lost { device: u8, at: u32, value: Sector },
    /// A flush that was answered: what was written to the device before is safe.
    Flushed { device: u8 },
    /// A read or a flush at which the device went down.
    DeviceFailed { device: u8 },
}
