//! The picture: its lanes, its axis and its legend.
use crate::axis::is_cut;
use crate::canvas::{Canvas, LEAST_WIDTH, RIGHT, TOP};
use crate::legend::add_legend;
use crate::sheet::Sheet;
use crate::style::{STYLE, add_patterns};
use crate::tell::Telling;
use history_core::dates::DateMark;
use history_core::history::History;
use history_core::order::Drawn;
use history_core::still::Still;
use plain::short::Short;
use plain::text::Text;
use std::alloc::{AllocError, Global};
use svg_text::shape::{Picture, Point, Size};

/// The pixels that a date takes above the lanes.
const DATE_WIDTH: u32 = 56;

impl Canvas<'_> {
    fn add_lanes(&mut self, drawn: &Drawn) -> Result<(), AllocError> {
        let history = self.history;
        self.add_queue()?;
        for lane in &history.initiators {
            self.add_initiator(lane)?;
        }
        for lane in &history.writers.lanes {
            self.add_writer(lane)?;
        }
        self.add_names(drawn)?;
        for lane in &history.volumes {
            self.add_volume(lane)?;
        }
        Ok(())
    }

    fn add_tick(&self, sheet: &mut Sheet, event: u32) -> Result<(), AllocError> {
        let x = self.left.saturating_add(self.axis.before(event));
        let above = Point { x, y: TOP - 14 };
        sheet.line(Short::new(b"grid"), above, Point { x, y: self.top })?;
        let mut number = Telling::empty(self.alloc, 20);
        number.push_number(u64::from(event))?;
        sheet.owned_text(
            Short::new(b"tick"),
            Point { x, y: TOP - 18 },
            number.into_text(),
        )
    }

    /// The events' numbers, and a line down from each, below all lanes.
    fn add_axis(&mut self) -> Result<(), AllocError> {
        let mut sheet = Sheet::empty(self.alloc);
        let label = Point {
            x: self.left.saturating_sub(8),
            y: TOP - 18,
        };
        sheet.text(Short::new(b"label"), label, b"events")?;
        let ticks = self.axis.ticks(self.alloc)?;
        for event in &ticks {
            self.add_tick(&mut sheet, *event)?;
        }
        self.groups
            .push_front(sheet.into_group(Short::new(b"axis")))
    }

    /// The mark of a row that is cut, in its middle.
    fn add_cut(&self, sheet: &mut Sheet, row: &Still, x: u32) -> Result<(), AllocError> {
        let at = Point {
            x: x.saturating_sub(3),
            y: TOP - 4,
        };
        let size = Size {
            width: 6,
            height: self.top.saturating_sub(TOP),
        };
        let title = still_title(self.alloc, row)?;
        sheet.rectangle(Short::new(b"cut"), at, size, Some(title))?;
        sheet.text(Short::new(b"tick"), Point { x, y: TOP - 6 }, b"//")
    }

    /// The rows of events that are cut, over all lanes.
    fn add_cuts(&mut self) -> Result<(), AllocError> {
        let mut sheet = Sheet::empty(self.alloc);
        let mut free: u32 = 0;
        for row in &self.history.stills.rows {
            let before = self.axis.before(row.from.saturating_add(1));
            if is_cut(row) && before >= free {
                self.add_cut(&mut sheet, row, self.left.saturating_add(before))?;
                free = before.saturating_add(12);
            }
        }
        self.groups.push(sheet.into_group(Short::new(b"cuts")))
    }

    /// The line of a new date, and the date above it where there is room.
    fn add_date(&self, sheet: &mut Sheet, mark: &DateMark, told: bool) -> Result<(), AllocError> {
        let x = self.left.saturating_add(self.axis.before(mark.event));
        let above = Point { x, y: TOP - 2 };
        sheet.line(Short::new(b"grid"), above, Point { x, y: self.top })?;
        if !told {
            return Ok(());
        }
        let date = date_text(self.alloc, mark)?;
        sheet.owned_text(Short::new(b"tick"), Point { x, y: TOP - 4 }, date)
    }

    /// The new dates, over all lanes.
    fn add_dates(&mut self) -> Result<(), AllocError> {
        let marks = self.history.dates.marks.as_slice();
        if marks.is_empty() {
            return Ok(());
        }
        let mut sheet = Sheet::empty(self.alloc);
        let mut free: u32 = 0;
        for mark in marks {
            let before = self.axis.before(mark.event);
            let told = before >= free;
            self.add_date(&mut sheet, mark, told)?;
            if told {
                free = before.saturating_add(DATE_WIDTH);
            }
        }
        self.groups.push(sheet.into_group(Short::new(b"dates")))
    }

    /// The heading, and the legend behind all lanes.
    fn add_words(&mut self, width: u32) -> Result<(), AllocError> {
        let mut sheet = Sheet::empty(self.alloc);
        let mut heading = Telling::empty(self.alloc, 80);
        heading.push(b"A session of ")?;
        heading.push_number(u64::from(self.axis.events))?;
        heading.push(b" events")?;
        sheet.owned_text(
            Short::new(b"heading"),
            Point { x: 12, y: 22 },
            heading.into_text(),
        )?;
        let place = Point {
            x: 12,
            y: self.top.saturating_add(10),
        };
        let dated = !self.history.dates.marks.is_empty();
        self.top = add_legend(&mut sheet, place, width.saturating_sub(24), dated)?;
        self.groups.push(sheet.into_group(Short::new(b"words")))
    }
}

/// A date, as sessions write it.
fn date_text(alloc: Global, mark: &DateMark) -> Result<Text, AllocError> {
    let mut date = Telling::empty(alloc, 20);
    date.push_number(u64::from(mark.year))?;
    date.push(if mark.day < 10 {
        b"/00".as_slice()
    } else if mark.day < 100 {
        b"/0".as_slice()
    } else {
        b"/".as_slice()
    })?;
    date.push_number(u64::from(mark.day))?;
    Ok(date.into_text())
}

/// What is told of a row that is cut.
fn still_title(alloc: Global, row: &Still) -> Result<Text, AllocError> {
    let mut title = Telling::empty(alloc, 80);
    title.push(b"events ")?;
    title.push_number(u64::from(row.from.saturating_add(1)))?;
    title.push(b" to ")?;
    title.push_number(u64::from(row.to))?;
    title.push(b" do nothing")?;
    Ok(title.into_text())
}

/// The picture of what is kept of a session: its lanes, the numbers of its events, and a legend. An `Err` is want of memory.
pub fn picture_of(alloc: Global, history: &History) -> Result<Picture, AllocError> {
    let drawn = Drawn::of(alloc, &history.names)?;
    let mut canvas = Canvas::new(alloc, history, &drawn)?;
    let width = canvas
        .left
        .saturating_add(canvas.axis.scale.width)
        .saturating_add(RIGHT)
        .max(LEAST_WIDTH);
    canvas.add_lanes(&drawn)?;
    canvas.add_axis()?;
    canvas.add_cuts()?;
    canvas.add_dates()?;
    add_patterns(alloc, &mut canvas.groups)?;
    canvas.add_words(width)?;
    let title = Text::copy_of(alloc, b"A session, event by event")?;
    let style = Text::copy_of(alloc, STYLE)?;
    let Canvas { top, groups, .. } = canvas;
    Ok(Picture {
        size: Size {
            width,
            height: top.saturating_add(10),
        },
        title,
        style,
        groups,
    })
}
