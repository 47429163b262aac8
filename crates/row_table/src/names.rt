//! Names and serials as words.
use crate::words::Words;
use jname_core::ds_name::{DsName, read_ds_name};
use jname_core::name8::Name8;
use jname_core::serial::Serial;

/// Takes the next word as the name of a data set.
pub fn ds_name(words: &mut Words<'_>) -> Option<DsName> {
    let word = words.next_word();
    words.some(read_ds_name(word).ok())
}

/// Takes the next word as a name of up to eight characters.
pub fn name8(words: &mut Words<'_>) -> Option<Name8> {
    let word = words.next_word();
    words.some(Name8::read(word).ok())
}

/// Takes the next word as the serial of a volume.
pub fn serial(words: &mut Words<'_>) -> Option<Serial> {
    let word = words.next_word();
    words.some(Serial::read(word))
}
