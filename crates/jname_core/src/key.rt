//! What a DD names.
use crate::ds_name::DsName;
use crate::name8::Name8;

/// Which way a relative number counts from the newest generation. (Generation data sets)
#[derive(Clone, Copy, PartialEq, Eq, PartialOrd, Ord)]
pub enum Sign {
    /// `+n` is n after the newest; `+0`, `-0` and `0` are the newest.
    Plus,
    /// `-n` is n before it.
    Minus,
}

/// The data set that a DD names. (DSNAME parameter)
#[derive(Clone, Copy, PartialEq, Eq, PartialOrd, Ord)]
pub enum Key {
    /// A permanent set, which the form of its name may make a generation.
    Named(DsName),
    /// A generation by its number from the newest: 0 to 255 away.
    Relative {
        base: DsName,
        sign: Sign,
        amount: u8,
    },
    /// A temporary set of the job, `&&name`.
    Temporary(Name8),
    /// A temporary set without a name: it is told by the DD, both numbers counted from 1, that it stems from.
    Unnamed {
        step: u16,
        dd: u16,
    },
}
