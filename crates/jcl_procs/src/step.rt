//! Steps as they run one after another.
use jcl_dds::dd::DdCard;
use jname_core::name8::Name8;
use list_values::condition::Condition;
use plain::listed::Listed;

/// A step of the job: an EXEC statement of the deck, or one of a procedure that it calls.
#[derive(Drop)]
pub struct FlatStep {
    /// The name on the deck's EXEC statement.
    pub name: Option<Name8>,
    /// The name on the procedure's EXEC statement, where a procedure brought the step.
    pub procedure_step: Option<Name8>,
    /// The place of the deck's EXEC statement, from 1, where it calls a procedure: steps of one call have the same.
    pub call: Option<usize>,
    pub program: Name8,
    pub condition: Condition,
    pub dds: Listed<DdCard>,
}
