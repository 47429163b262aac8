//! Symbols and their values. (GC28-6704, "Symbolic parameters")
use plain::short::Short;
use plain::text::Text;

/// A symbol and its value, which a call of a procedure gives to it, or the procedure itself.
#[derive(Drop)]
pub struct Symbol {
    pub name: Short<7>,
    /// Without the apostrophes that enclose it whole.
    pub value: Text,
}
