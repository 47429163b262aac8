//! The inputs of the machine.
use jcl_plan::day::Day;
use jname_core::serial::Serial;
use plain::lent::Lent;
use plain::listed::Listed;

/// What happens to the machine from outside. Nothing else runs meanwhile.
#[derive(Drop)]
pub enum Event<'a> {
    /// A deck is read: its lines.
    Read(Listed<Lent<'a>>),
    /// The initiator of this number acts once.
    Turn(u8),
    /// The operation under way on this volume ends.
    DeviceEnd(Serial),
    /// The writer of this class writes a line.
    Write(u8),
    /// The job of this number is cancelled.
    Cancel(u16),
    /// Bytes of a record of the queue are overwritten, from an offset on.
    Zap {
        record: u32,
        offset: u8,
        bytes: Listed<u8>,
    },
    /// The volumes and the queue are shown.
    Display,
    /// A new date.
    Date(Day),
}
