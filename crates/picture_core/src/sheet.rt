//! Shapes, one after another.
use history_core::look::Look;
use plain::listed::Listed;
use plain::short::Short;
use plain::text::Text;
use std::alloc::{AllocError, Global};
use svg_text::shape::{Form, Group, Head, Mark, Name, Point, Size};

#[derive(Drop)]
pub(crate) struct Sheet {
    alloc: Global,
    marks: Listed<Mark>,
}

impl Sheet {
    pub(crate) fn empty(alloc: Global) -> Sheet {
        Sheet {
            alloc,
            marks: Listed::empty(alloc),
        }
    }

    pub(crate) fn rectangle(
        &mut self,
        class: Name,
        at: Point,
        size: Size,
        title: Option<Text>,
    ) -> Result<(), AllocError> {
        self.marks.push(Mark {
            form: Form::Rectangle { at, size },
            class,
            title,
        })
    }

    pub(crate) fn line(&mut self, class: Name, from: Point, to: Point) -> Result<(), AllocError> {
        self.marks.push(Mark {
            form: Form::Line { from, to },
            class,
            title: None,
        })
    }

    pub(crate) fn polyline(
        &mut self,
        class: Name,
        points: Listed<Point>,
        title: Option<Text>,
    ) -> Result<(), AllocError> {
        self.marks.push(Mark {
            form: Form::Polyline(points),
            class,
            title,
        })
    }

    pub(crate) fn owned_text(
        &mut self,
        class: Name,
        at: Point,
        text: Text,
    ) -> Result<(), AllocError> {
        self.marks.push(Mark {
            form: Form::Text { at, text },
            class,
            title: None,
        })
    }

    pub(crate) fn text(&mut self, class: Name, at: Point, text: &[u8]) -> Result<(), AllocError> {
        let text = Text::copy_of(self.alloc, text)?;
        self.owned_text(class, at, text)
    }

    /// The letter of a flag that stands at a place.
    pub(crate) fn letter(&mut self, look: Look, at: Point) -> Result<(), AllocError> {
        let middle = Point {
            x: at.x.saturating_add(5),
            y: at.y.saturating_add(11),
        };
        match look {
            Look::Abend => self.text(Short::new(b"letter"), middle, b"A"),
            Look::Fault => self.text(Short::new(b"inked"), middle, b"F"),
            Look::Cancel => self.text(Short::new(b"inked"), middle, b"C"),
            Look::Rejected => self.text(Short::new(b"inked"), middle, b"R"),
            _ => Ok(()),
        }
    }

    pub(crate) fn into_group(self, class: Name) -> Group {
        let Sheet { marks, .. } = self;
        Group {
            head: Head::Plain { class, title: None },
            marks,
        }
    }
}
