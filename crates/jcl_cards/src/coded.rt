//! What a statement codes of a keyword.

/// A keyword is not given, given without a value (which nullifies it in an override), or given with one.
#[derive(Drop)]
pub enum Coded<T> {
    NotGiven,
    Nullified,
    Value(T),
}
