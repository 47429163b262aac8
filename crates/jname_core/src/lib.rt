//! The names of jobs, steps, DDs, units, volumes and data sets. (GC28-6704, "Coding conventions" and "Data set names"; serials and
//! unit names as this profile has them)
//!
//! A name is a value that was read: each type's text keeps to its grammar. A text that does not is refused with the number of the
//! first fault that holds of it.
#![tactic(auto)]

pub mod character;
pub mod decimal;
pub mod ds_name;
pub mod fault;
pub mod key;
pub mod name8;
pub mod serial;
