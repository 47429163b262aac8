//! What still waits, and why.
use itoa::Buffer;
use jname_core::ds_name::DsName;
use jname_core::serial::Serial;
use std::alloc::AllocError;

/// What still waits when nothing moves.
#[derive(Clone, Copy, PartialEq, Eq)]
pub enum Waits {
    /// A job, for a name that another holds.
    Names { job: u16, name: DsName, holder: u16 },
    /// A job, for free tracks on a volume.
    Space { job: u16, serial: Serial },
    /// The first job of a class that no initiator selects from.
    Class { job: u16, class: u8 },
    /// The first job of a class whose initiators all have jobs.
    Initiator { job: u16, class: u8 },
    /// Lines of a class, for its writer.
    Output { class: u8 },
    /// All that there is: no event more is taken.
    Limit,
}

/// Puts `job n` behind a text.
fn write_job(job: u16, text: &mut Vec<u8>) -> Result<(), AllocError> {
    let mut buffer = Buffer::new();
    text.extend_from_slice(b"job ")?;
    text.extend_from_slice(buffer.format(job).as_bytes())?;
    Ok(())
}

impl Waits {
    /// Puts its line behind a text.
    pub fn write_to(&self, text: &mut Vec<u8>) -> Result<(), AllocError> {
        match self {
            Waits::Names { job, name, holder } => {
                write_job(*job, text)?;
                text.extend_from_slice(b" waits for ")?;
                text.extend_from_slice(name.as_slice())?;
                text.extend_from_slice(b", held by ")?;
                write_job(*holder, text)?;
                text.extend_from_slice(b"\n")?;
            }
            Waits::Space { job, serial } => {
                write_job(*job, text)?;
                text.extend_from_slice(b" waits for space on ")?;
                text.extend_from_slice(serial.as_slice())?;
                text.extend_from_slice(b"\n")?;
            }
            Waits::Class { job, class } => {
                write_job(*job, text)?;
                text.extend_from_slice(b" waits in class ")?;
                text.push(*class)?;
                text.extend_from_slice(b", which no initiator takes\n")?;
            }
            Waits::Initiator { job, class } => {
                write_job(*job, text)?;
                text.extend_from_slice(b" waits in class ")?;
                text.push(*class)?;
                text.extend_from_slice(b", whose initiators have jobs\n")?;
            }
            Waits::Output { class } => {
                text.extend_from_slice(b"class ")?;
                text.push(*class)?;
                text.extend_from_slice(b" has output: ./ WRITE ")?;
                text.push(*class)?;
                text.extend_from_slice(b" writes a line of it\n")?;
            }
            Waits::Limit => text.extend_from_slice(b"the event limit is reached\n")?,
        }
        Ok(())
    }
}
