//! The inputs of the machine, as far as a session brings them.
use boxed_core::Boxed;
use jcl_plan::day::Day;
use jname_core::serial::Serial;
use plain::lent::Lent;
use plain::listed::Listed;
use plain::short::Short;

/// The first byte of a record that is open to a Zap: those before it are the queue's own.
pub const FIRST_OPEN: u8 = 8;

/// The most bytes of a Zap.
pub const MOST_ZAPPED: usize = 32;

/// What happens to the machine from outside. Nothing else runs meanwhile.
#[derive(Drop)]
pub enum Event<'a> {
    /// A deck is read: its lines.
    Read(Boxed<Listed<Lent<'a>>>),
    /// The initiator of this number acts once.
    Turn(u8),
    /// The operation under way on this volume ends.
    DeviceEnd(Serial),
    /// The writer of this class writes a line.
    Write(u8),
    /// The job of this number is cancelled.
    Cancel(u16),
    /// These bytes are written into the record of this number, from this offset on.
    Zap {
        record: u32,
        offset: u8,
        bytes: Boxed<Short<MOST_ZAPPED>>,
    },
    /// The volumes and the queue are shown.
    Display,
    /// There is a new date.
    Date(Day),
}
