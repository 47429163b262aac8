//! Laws of a picture's text, without code.
ghost use Rattle.std.specs.Prelude.{◌≡◌, ◌≤◌, ℕ, List, map};
ghost use Rattle.svg_text.specs.Elements.{escaped};
ghost use Rattle.svg_text.specs.Reading.{ReadsAs, kept_byte};

/// Whatever bytes a text has, a reader of XML reads them from what is written, those that are not shown as question marks: no byte opens an element,
/// ends an attribute, or begins an entity that is none of XML's.
pub fn texts_are_read_back()
    ensures { (text : List ℕ) → ReadsAs (escaped text) (map kept_byte text) }
{}
