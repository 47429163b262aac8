//! Events that are added to a session.
ghost use Rattle.std.specs.Prelude.{◌≡◌, ◌++◌, OnOk};
ghost use Rattle.play_core.specs.Given.{event_of, line_of};

use itoa::Buffer;
use jname_core::serial::Serial;
use session_input::event::Event;
use std::alloc::AllocError;

/// An event that is added.
#[derive(Clone, Copy, PartialEq, Eq)]
pub enum Given {
    /// The initiator of this number acts once.
    Turn(u8),
    /// The operation under way on this volume ends.
    DeviceEnd(Serial),
}

impl Given {
    /// The event itself.
    pub fn event<'a>(&self) -> Event<'a>
        ensures { result ≡ event_of self.now }
    {
        match self {
            Given::Turn(number) => Event::Turn(*number),
            Given::DeviceEnd(serial) => Event::DeviceEnd(*serial),
        }
    }

    /// Puts its line behind a text.
    pub(crate) fn write_to(&self, text: &mut Vec<u8>) -> Result<(), AllocError>
        ensures { OnOk result (text.new.items ≡ text.old.items ++ line_of self.now) }
    {
        match self {
            Given::Turn(number) => {
                let mut buffer = Buffer::new();
                text.extend_from_slice(b"./ TURN ")?;
                text.extend_from_slice(buffer.format(*number).as_bytes())?;
            }
            Given::DeviceEnd(serial) => {
                text.extend_from_slice(b"./ DEV ")?;
                text.extend_from_slice(serial.as_slice())?;
            }
        }
        text.extend_from_slice(b"\n")?;
        Ok(())
    }
}
