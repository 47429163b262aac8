//! A program that reads a session, as its command line and its help speak of it.

/// The version of this profile, which each program tells.
pub const VERSION: &str = "1.0";

/// An option of a program's own. It takes no value.
#[derive(Clone, Copy)]
pub struct Flag<'a> {
    /// Its word without the dashes.
    pub name: &'a str,
    /// What it does, in one line.
    pub help: &'a str,
}

/// A program, with the options that it has beside those of every program.
#[derive(Clone, Copy)]
pub struct Program<'a> {
    pub name: &'a str,
    /// What it does, in one line.
    pub about: &'a str,
    /// How it is called.
    pub usage: &'a str,
    pub flags: &'a [Flag<'a>],
    /// What its help says last: how it ends, an example, and the programs beside it; nothing where it is empty.
    pub end: &'a str,
}
