//! Classes of completion codes, where a test changes: laws.
ghost use Rattle.view_rows.specs.CodeClasses.{ClassIsGreatestBelow, HasClasses};

/// The least codes of the classes of some tests.
pub fn has_classes()
    ensures { HasClasses }
{}

/// A code's class begins at the greatest of their least codes that is not above it.
pub fn class_is_greatest_below()
    ensures { ClassIsGreatestBelow }
{}
