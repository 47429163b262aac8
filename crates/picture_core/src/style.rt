//! How what is told is drawn: classes, patterns and their style, which tell without colours.
use history_core::look::Look;
use plain::listed::Listed;
use plain::short::Short;
use std::alloc::{AllocError, Global};
use svg_text::shape::{Form, Group, Head, Mark, Name, Point, Size};

pub(crate) fn class_of(look: Look) -> Name {
    match look {
        Look::Queued => Short::new(b"queued"),
        Look::Together => Short::new(b"together"),
        Look::Writes => Short::new(b"writes"),
        Look::Cancel => Short::new(b"cancel"),
        Look::Rejected => Short::new(b"rejected"),
        Look::Selected => Short::new(b"selected"),
        Look::Waits => Short::new(b"waits"),
        Look::Admitted => Short::new(b"admitted"),
        Look::Runs => Short::new(b"runs"),
        Look::Device => Short::new(b"device"),
        Look::Bypassed => Short::new(b"bypassed"),
        Look::Flushed => Short::new(b"flushed"),
        Look::Alone => Short::new(b"alone"),
        Look::Shared => Short::new(b"shared"),
        Look::Free => Short::new(b"free"),
        Look::Kept => Short::new(b"kept"),
        Look::Busy => Short::new(b"busy"),
        Look::Several => Short::new(b"several"),
        Look::Abend => Short::new(b"abend"),
        Look::Fault => Short::new(b"fault"),
    }
}

/// Words on a pattern have a white rim.
pub(crate) fn words_on(look: Look) -> Name {
    match look {
        Look::Waits | Look::Device | Look::Bypassed | Look::Flushed | Look::Several => {
            Short::new(b"rimmed")
        }
        _ => Short::new(b"inner"),
    }
}

/// What it is, in a title and in the legend.
pub(crate) fn word_of(look: Look) -> &'static [u8] {
    match look {
        Look::Queued => b"waits in the queue",
        Look::Together => b"held by a job, other names",
        Look::Writes => b"has its lines written",
        Look::Cancel => b"CANCEL",
        Look::Rejected => b"REJECTED",
        Look::Selected => b"selected",
        Look::Waits => b"waits for names or space",
        Look::Admitted => b"admitted",
        Look::Runs => b"runs",
        Look::Device => b"waits for a device",
        Look::Bypassed => b"bypassed",
        Look::Flushed => b"flushed",
        Look::Alone => b"held alone",
        Look::Shared => b"shared",
        Look::Free => b"free tracks",
        Look::Kept => b"tracks kept for jobs",
        Look::Busy => b"operation under way",
        Look::Several => b"several together",
        Look::Abend => b"ABEND",
        Look::Fault => b"FAULT",
    }
}

/// What the legend shows of the queue, of initiators, of writers, of names, and of volumes.
pub(crate) const OF_QUEUE: [Look; 2] = [Look::Queued, Look::Rejected];

pub(crate) const OF_WRITERS: [Look; 1] = [Look::Writes];

pub(crate) const OF_INITIATORS: [Look; 10] = [
    Look::Selected,
    Look::Waits,
    Look::Admitted,
    Look::Runs,
    Look::Device,
    Look::Bypassed,
    Look::Flushed,
    Look::Abend,
    Look::Fault,
    Look::Cancel,
];

pub(crate) const OF_NAMES: [Look; 4] = [Look::Alone, Look::Shared, Look::Together, Look::Several];

pub(crate) const OF_VOLUMES: [Look; 3] = [Look::Free, Look::Kept, Look::Busy];

pub(crate) const STYLE: &[u8] = b"
svg{background:#fff;font-family:'DejaVu Sans',Verdana,sans-serif;font-size:11px}
rect{stroke:#000;stroke-width:1}
line{stroke:#ccc}
polyline{fill:none;stroke:#000}
text{fill:#000}
.heading{font-size:14px;font-weight:bold}
.label{text-anchor:end}
.tick{text-anchor:middle}
.lane{fill:#fafafa;stroke:#ddd}
.inner{font-size:10px;pointer-events:none}
.rimmed{font-size:10px;pointer-events:none;stroke:#fff;stroke-width:5;paint-order:stroke}
.note{font-size:10px}
.queued{fill:#eee}
.writes{fill:#eee}
.together{fill:#ddd}
.cut{fill:#fff;stroke:#000;stroke-dasharray:1 3}
.cancel{fill:#fff;stroke-width:2}
.rejected{fill:#fff;stroke-width:2}
.selected{fill:#fff;stroke-dasharray:3 2}
.waits{fill:url(#hatching)}
.admitted{fill:#fff}
.runs{fill:#bbb}
.device{fill:url(#rows)}
.bypassed{fill:url(#columns)}
.flushed{fill:url(#crossing)}
.alone{fill:#999}
.shared{fill:#fff}
.busy{fill:#000}
.several{fill:url(#dots)}
.abend{fill:#000}
.fault{fill:#fff;stroke-width:2}
.letter{fill:#fff;font-weight:bold;text-anchor:middle;pointer-events:none}
.inked{font-weight:bold;text-anchor:middle;pointer-events:none}
.free{stroke:#000;stroke-width:1.5}
.kept{stroke:#000;stroke-dasharray:4 2}
.ground{fill:#fff;stroke:none}
.stroke{stroke:#000}
.dot{fill:#000;stroke:none}
";

fn at(x: u32, y: u32) -> Point {
    Point { x, y }
}

fn stroke(from: Point, to: Point) -> Mark {
    Mark {
        form: Form::Line { from, to },
        class: Short::new(b"stroke"),
        title: None,
    }
}

fn block(class: Name, place: Point, size: Size) -> Mark {
    Mark {
        form: Form::Rectangle { at: place, size },
        class,
        title: None,
    }
}

/// A tile on white ground.
fn pattern(
    alloc: Global,
    name: Name,
    size: Size,
    marks: &[(Point, Point)],
) -> Result<Group, AllocError> {
    let mut all = Listed::empty(alloc);
    all.push(block(Short::new(b"ground"), at(0, 0), size))?;
    for (from, to) in marks {
        all.push(stroke(*from, *to))?;
    }
    Ok(Group {
        head: Head::Pattern { name, size },
        marks: all,
    })
}

fn dots(alloc: Global) -> Result<Group, AllocError> {
    let size = Size {
        width: 4,
        height: 4,
    };
    let mut all = Listed::empty(alloc);
    all.push(block(Short::new(b"ground"), at(0, 0), size))?;
    let dot = Size {
        width: 2,
        height: 2,
    };
    all.push(block(Short::new(b"dot"), at(1, 1), dot))?;
    Ok(Group {
        head: Head::Pattern {
            name: Short::new(b"dots"),
            size,
        },
        marks: all,
    })
}

/// Puts the patterns that the style names into the groups of a picture.
pub(crate) fn add_patterns(alloc: Global, groups: &mut Listed<Group>) -> Result<(), AllocError> {
    let size = Size {
        width: 6,
        height: 6,
    };
    let falling = (at(0, 0), at(6, 6));
    let rising = (at(0, 6), at(6, 0));
    groups.push(pattern(alloc, Short::new(b"hatching"), size, &[rising])?)?;
    groups.push(pattern(alloc, Short::new(b"rows"), size, &[(at(0, 3), at(6, 3))])?)?;
    groups.push(pattern(alloc, Short::new(b"columns"), size, &[(at(3, 0), at(3, 6))])?)?;
    groups.push(pattern(alloc, Short::new(b"crossing"), size, &[falling, rising])?)?;
    groups.push(dots(alloc)?)
}
