//! The operand of a statement: its parts, its keywords and their values, and the fault that is reported of it. (GC28-6704: positional and keyword parameters)
#![tactic(auto)]

pub mod fault;
pub mod keyword;
pub mod operand;
pub mod parts;
pub mod places;
pub mod qualified;
pub mod scan;
pub mod subparameter;
pub mod value;
