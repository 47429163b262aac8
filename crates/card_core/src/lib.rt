//! The cards of a deck, and the statements that they are. (GC28-6704, "Job control statements", "Fields in control statements",
//! "Continuing control statements"; the columns of a continuation are this profile's)
#![tactic(auto)]

mod begun;
pub mod card;
pub mod data;
pub mod fault;
pub mod field;
pub mod image;
pub mod images;
pub mod operand;
pub mod read;
pub mod statement;
