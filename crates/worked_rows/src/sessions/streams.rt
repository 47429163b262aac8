//! A reader and a writer of a session, of which a call may fail.
ghost use Rattle.std.specs.Prelude.{Some};

use std::alloc::{AllocError, Global};
use std::io::{self, ErrorKind, Read, Write};

/// Room for a listing, so that its writer asks for no memory.
const ROOM: usize = 1_048_576;

/// How a call fails.
#[derive(Clone, Copy)]
pub enum Failure {
    Other,
    Interrupted,
    /// A write takes no byte.
    TakesNone,
}

/// How a stream is called: the most bytes a call, and the call that fails, from 1; with 0 none does.
#[derive(Clone, Copy)]
pub struct Calls {
    pub most: usize,
    pub fails_at: usize,
    pub failure: Failure,
}

fn error_of(failure: Failure) -> io::Error {
    match failure {
        Failure::Interrupted => io::Error::from(ErrorKind::Interrupted),
        _ => io::Error::from(ErrorKind::Other),
    }
}

/// Gives the bytes of a session.
#[derive(Drop)]
pub struct Parts<'a> {
    bytes: &'a [u8],
    plan: Calls,
    pub calls: usize,
}

impl<'a> Parts<'a> {
    pub fn new(bytes: &'a [u8], plan: Calls) -> Parts<'a> {
        Parts {
            bytes,
            plan,
            calls: 0,
        }
    }
}

impl Read for Parts<'_> {
    ghost remaining = { λ p. Some p.bytes.now };

    fn read(&mut self, buf: &mut [u8]) -> io::Result<usize> {
        self.calls = self.calls.saturating_add(1);
        if self.calls == self.plan.fails_at {
            return Err(error_of(self.plan.failure));
        }
        let most = buf.len().min(self.plan.most.max(1));
        Read::read(&mut self.bytes, &mut buf[..most])
    }
}

/// Takes the bytes of a listing.
#[derive(Drop)]
pub struct Page {
    pub held: Vec<u8>,
    plan: Calls,
    pub calls: usize,
}

impl Page {
    pub fn new(alloc: Global, plan: Calls) -> Result<Page, AllocError> {
        Ok(Page {
            held: Vec::with_capacity(alloc, ROOM)?,
            plan,
            calls: 0,
        })
    }
}

impl Write for Page {
    ghost contents = { λ p. Some p.held.items };

    fn write(&mut self, buf: &[u8]) -> io::Result<usize> {
        self.calls = self.calls.saturating_add(1);
        if self.calls == self.plan.fails_at {
            return match self.plan.failure {
                Failure::TakesNone => Ok(0),
                _ => Err(error_of(self.plan.failure)),
            };
        }
        let count = buf.len().min(self.plan.most.max(1));
        self.held.extend_from_slice(&buf[..count])?;
        Ok(count)
    }

    fn flush(&mut self) -> io::Result<()> {
        Ok(())
    }
}
