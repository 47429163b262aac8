//! Classes of codes by which a step may end, and the tests that each meets.
use jcl_plan::outcome::Code;

/// A code, and a row of the bits of the tests that a step meets which ends by it.
#[derive(Drop)]
pub struct Class {
    pub code: Code,
    pub mask: Vec<u64>,
}

/// The classes by which a step may end, the numbers of all, and of each the numbers of those that are apart from it: either meets a test that the other
/// does not meet.
#[derive(Drop)]
pub struct Classes {
    pub list: Vec<Class>,
    pub every: Vec<usize>,
    pub apart: Vec<Vec<usize>>,
}
