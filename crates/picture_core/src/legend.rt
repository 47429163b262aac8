//! The legend: what each mark means.
use crate::sheet::Sheet;
use crate::style::{OF_INITIATORS, OF_NAMES, OF_QUEUE, OF_VOLUMES, OF_WRITERS, class_of, word_of};
use history_core::look::Look;
use plain::short::Short;
use std::alloc::AllocError;
use svg_text::shape::{Point, Size};

/// The pixels across an entry, from one line of entries to the next, and before the first entry of a line.
const ENTRY: u32 = 200;

const LINE: u32 = 22;

const HEAD: u32 = 90;

/// The place beside another.
fn beside(at: Point, right: u32, down: u32) -> Point {
    Point {
        x: at.x.saturating_add(right),
        y: at.y.saturating_add(down),
    }
}

/// Puts the legend into this many pixels across, from a place on; dates are explained where there are some. The pixels above its end.
pub(crate) fn add_legend(
    sheet: &mut Sheet,
    place: Point,
    width: u32,
    dated: bool,
) -> Result<u32, AllocError> {
    let mut at = place;
    at.y = add_part(sheet, at, width, b"Queue", &OF_QUEUE)?;
    at.y = add_part(sheet, at, width, b"Initiators", &OF_INITIATORS)?;
    at.y = add_part(sheet, at, width, b"Writers", &OF_WRITERS)?;
    at.y = add_part(sheet, at, width, b"Names", &OF_NAMES)?;
    at.y = add_part(sheet, at, width, b"Volumes", &OF_VOLUMES)?;
    sheet.text(Short::new(b"legend"), beside(at, 0, 11), b"Axis")?;
    sheet.text(
        Short::new(b"legend"),
        beside(at, HEAD, 11),
        b"// stands for events that do nothing",
    )?;
    if dated {
        sheet.text(
            Short::new(b"legend"),
            beside(at, HEAD.saturating_add(2 * ENTRY), 11),
            b"yyyy/ddd stands for a new date",
        )?;
    }
    Ok(at.y.saturating_add(LINE))
}

/// A part of the legend, of lines that begin with a word. The pixels above its end.
fn add_part(
    sheet: &mut Sheet,
    place: Point,
    width: u32,
    word: &[u8],
    looks: &[Look],
) -> Result<u32, AllocError> {
    sheet.text(Short::new(b"legend"), beside(place, 0, 11), word)?;
    let mut right = HEAD;
    let mut down: u32 = 0;
    for look in looks {
        if right > HEAD && right.saturating_add(ENTRY) > width {
            right = HEAD;
            down = down.saturating_add(LINE);
        }
        add_entry(sheet, *look, beside(place, right, down))?;
        right = right.saturating_add(ENTRY);
    }
    Ok(place.y.saturating_add(down).saturating_add(LINE))
}

/// The size of a sample.
fn size_of(look: Look) -> Size {
    let (width, height) = match look {
        Look::Abend | Look::Fault | Look::Cancel | Look::Rejected => (11, 14),
        Look::Busy => (28, 5),
        _ => (28, 14),
    };
    Size { width, height }
}

fn add_entry(sheet: &mut Sheet, look: Look, at: Point) -> Result<(), AllocError> {
    match look {
        Look::Free | Look::Kept => {
            sheet.line(class_of(look), beside(at, 0, 7), beside(at, 28, 7))?;
        }
        _ => sheet.rectangle(class_of(look), at, size_of(look), None)?,
    }
    sheet.letter(look, at)?;
    sheet.text(Short::new(b"legend"), beside(at, 36, 11), word_of(look))
}
