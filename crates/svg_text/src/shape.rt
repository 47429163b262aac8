//! The shapes of a picture. Places and sizes are in pixels, from the upper left corner.
use plain::listed::Listed;
use plain::short::Short;
use plain::text::Text;

/// A word by which the picture's style names what it draws alike, or that of a pattern.
pub type Name = Short<12>;

#[derive(Clone, Copy)]
pub struct Point {
    pub x: u32,
    pub y: u32,
}

#[derive(Clone, Copy)]
pub struct Size {
    pub width: u32,
    pub height: u32,
}

/// What is drawn.
#[derive(Drop)]
pub enum Form {
    /// By its upper left corner.
    Rectangle { at: Point, size: Size },
    Line { from: Point, to: Point },
    /// A line from point to point.
    Polyline(Listed<Point>),
    /// A text on a base line. Bytes that are neither printable in ASCII nor line ends are shown as `?`.
    Text { at: Point, text: Text },
}

/// A shape, its class, and what a viewer tells where the pointer is on it.
#[derive(Drop)]
pub struct Mark {
    pub form: Form,
    pub class: Name,
    pub title: Option<Text>,
}

/// What a group of shapes is.
#[derive(Drop)]
pub enum Head {
    /// Shapes that belong together.
    Plain { class: Name, title: Option<Text> },
    /// A tile that fills rectangles, by the name that the style gives to it. It is not drawn itself.
    Pattern { name: Name, size: Size },
}

/// A group of shapes, the later ones over the earlier ones.
#[derive(Drop)]
pub struct Group {
    pub head: Head,
    pub marks: Listed<Mark>,
}

/// A picture: its title, its style in CSS, and its groups, the later ones over the earlier ones.
#[derive(Drop)]
pub struct Picture {
    pub size: Size,
    pub title: Text,
    pub style: Text,
    pub groups: Listed<Group>,
}
