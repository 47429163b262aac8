//! Where lanes are drawn, and the lanes of runs.
use crate::axis::Axis;
use crate::cut::{Piece, pieces_of};
use crate::label::{label_of, letters_in};
use crate::scale::Scale;
use crate::sheet::Sheet;
use crate::style::{class_of, words_on};
use crate::tell::{Telling, piece_title, runs_in};
use history_core::history::History;
use history_core::initiators::InitiatorLane;
use history_core::lane::{Flag, Lane, Run};
use history_core::look::Look;
use history_core::order::Drawn;
use history_core::writers::WriterLane;
use plain::listed::Listed;
use plain::short::Short;
use plain::text::Text;
use std::alloc::{AllocError, Global};
use svg_text::shape::{Group, Name, Point, Size};

/// The pixels left of the lanes: the fewest, and of each letter of a name.
pub(crate) const LEAST_LEFT: u32 = 110;

pub(crate) const LETTER: u32 = 8;

/// The pixels right of the lanes.
pub(crate) const RIGHT: u32 = 70;

/// The pixels above the first lane, of a lane, of the notes below it, of a volume's lane, and between lanes.
pub(crate) const TOP: u32 = 64;

pub(crate) const LANE: u32 = 22;

pub(crate) const NOTES: u32 = 14;

pub(crate) const VOLUME: u32 = 52;

pub(crate) const GAP: u32 = 6;

/// The fewest pixels across.
pub(crate) const LEAST_WIDTH: u32 = 720;

/// The most bytes of a title, of all titles, and the fewest of a title.
pub(crate) const MOST_TITLE: usize = 1_000;

pub(crate) const MOST_TITLES: usize = 2_400_000;

pub(crate) const LEAST_TITLE: usize = 120;

/// Where lanes are drawn.
#[derive(Drop)]
pub(crate) struct Canvas<'a> {
    pub(crate) alloc: Global,
    pub(crate) history: &'a History,
    pub(crate) axis: Axis,
    /// The pixels left of the lanes.
    pub(crate) left: u32,
    /// The most bytes of a title.
    pub(crate) limit: usize,
    /// The pixels above the next lane.
    pub(crate) top: u32,
    pub(crate) groups: Listed<Group>,
}

/// How many lanes there are.
pub(crate) fn lane_count(history: &History, drawn: &Drawn) -> usize {
    let jobs = history
        .queue
        .slots
        .len()
        .saturating_add(history.initiators.len())
        .saturating_add(history.writers.lanes.len());
    let names = drawn.places.len().saturating_add(drawn.together.len());
    let volumes = history.volumes.len().saturating_mul(2);
    jobs.saturating_add(names)
        .saturating_add(volumes)
        .saturating_add(1)
}

pub(crate) fn to_u32(n: usize) -> u32 {
    match u32::try_from(n) {
        Ok(n) => n,
        Err(_) => u32::MAX,
    }
}

/// The pixels that the names take.
pub(crate) fn left_of(history: &History, drawn: &Drawn) -> u32 {
    let mut longest: usize = 0;
    for place in &drawn.places {
        if let Some(lane) = history.names.lanes.get(*place) {
            longest = longest.max(lane.name.as_slice().len());
        }
    }
    to_u32(longest)
        .saturating_mul(LETTER)
        .saturating_add(20)
        .max(LEAST_LEFT)
}

/// The most bytes of a title, of so many lanes.
pub(crate) fn title_limit(scale: &Scale, lanes: usize) -> usize {
    let columns = (scale.last_column() as usize).saturating_add(1);
    match MOST_TITLES.checked_div(columns.saturating_mul(lanes)) {
        Some(limit) => limit.min(MOST_TITLE).max(LEAST_TITLE),
        None => MOST_TITLE,
    }
}

impl<'a> Canvas<'a> {
    pub(crate) fn new(
        alloc: Global,
        history: &'a History,
        drawn: &Drawn,
    ) -> Result<Canvas<'a>, AllocError> {
        let lanes = lane_count(history, drawn);
        let axis = Axis::new(alloc, history, to_u32(lanes))?;
        let limit = title_limit(&axis.scale, lanes);
        Ok(Canvas {
            alloc,
            history,
            axis,
            left: left_of(history, drawn),
            limit,
            top: TOP,
            groups: Listed::empty(alloc),
        })
    }

    /// The place of a column, so far below the top of the lane.
    pub(crate) fn at(&self, column: u32, below: u32) -> Point {
        Point {
            x: self.left.saturating_add(self.axis.scale.before(column)),
            y: self.top.saturating_add(below),
        }
    }

    /// The pixels from a column up to another.
    pub(crate) fn across(&self, from: u32, to: u32) -> u32 {
        let before = self.axis.scale.before(from);
        self.axis.scale.before(to).saturating_sub(before).max(1)
    }

    pub(crate) fn add_ground(
        &self,
        sheet: &mut Sheet,
        label: &[u8],
        height: u32,
    ) -> Result<(), AllocError> {
        let size = Size {
            width: self.axis.scale.width,
            height,
        };
        sheet.rectangle(Short::new(b"lane"), self.at(0, 0), size, None)?;
        let beside = Point {
            x: self.left.saturating_sub(8),
            y: self.top.saturating_add(15),
        };
        sheet.text(Short::new(b"label"), beside, label)
    }

    pub(crate) fn add_piece(
        &self,
        sheet: &mut Sheet,
        piece: &Piece,
        runs: &[Run],
        below: u32,
        height: u32,
    ) -> Result<(), AllocError> {
        let own = runs_in(piece, runs);
        let look = match own {
            [run] => run.what.look,
            _ => Look::Several,
        };
        let size = Size {
            width: self.across(piece.from, piece.to),
            height,
        };
        let title = piece_title(
            self.alloc,
            &self.history.jobs,
            own,
            self.axis.events,
            self.limit,
        )?;
        sheet.rectangle(
            class_of(look),
            self.at(piece.from, below),
            size,
            Some(title),
        )?;
        match own {
            [run] => self.add_inner(sheet, piece, run, size.width),
            _ => Ok(()),
        }
    }

    /// The words within a rectangle, where there is room.
    pub(crate) fn add_inner(
        &self,
        sheet: &mut Sheet,
        piece: &Piece,
        run: &Run,
        width: u32,
    ) -> Result<(), AllocError> {
        let look = run.what.look;
        if look == Look::Busy {
            return Ok(());
        }
        let letters = letters_in(width);
        let words = label_of(self.alloc, run, &self.history.jobs, letters)?;
        if words.as_slice().is_empty() {
            return Ok(());
        }
        let mut place = self.at(piece.from, 14);
        place.x = place.x.saturating_add(3);
        sheet.owned_text(words_on(look), place, words)
    }

    pub(crate) fn add_flag(&self, sheet: &mut Sheet, flag: &Flag) -> Result<(), AllocError> {
        let column = self.axis.column_of(flag.event);
        let place = self.at(column, 4);
        let size = Size {
            width: 11,
            height: 14,
        };
        let title = Text::copy_of(self.alloc, flag.line.as_slice())?;
        sheet.rectangle(class_of(flag.look), place, size, Some(title))?;
        sheet.letter(flag.look, place)
    }

    /// The flags, one of each column.
    pub(crate) fn add_flags(&self, sheet: &mut Sheet, flags: &[Flag]) -> Result<(), AllocError> {
        let mut last: Option<u32> = None;
        for flag in flags {
            let column = Some(self.axis.column_of(flag.event));
            if column != last {
                self.add_flag(sheet, flag)?;
            }
            last = column;
        }
        Ok(())
    }

    pub(crate) fn add_runs(
        &self,
        sheet: &mut Sheet,
        lane: &Lane,
        below: u32,
        height: u32,
    ) -> Result<(), AllocError> {
        let pieces = pieces_of(self.alloc, &self.axis, lane.runs.as_slice())?;
        for piece in &pieces {
            self.add_piece(sheet, piece, lane.runs.as_slice(), below, height)?;
        }
        self.add_flags(sheet, lane.flags.as_slice())
    }

    pub(crate) fn end_lane(
        &mut self,
        sheet: Sheet,
        class: Name,
        height: u32,
    ) -> Result<(), AllocError> {
        self.groups.push(sheet.into_group(class))?;
        self.top = self.top.saturating_add(height).saturating_add(GAP);
        Ok(())
    }

    pub(crate) fn add_lane(
        &mut self,
        label: &[u8],
        lane: &Lane,
        class: Name,
    ) -> Result<(), AllocError> {
        let mut sheet = Sheet::empty(self.alloc);
        self.add_ground(&mut sheet, label, LANE)?;
        self.add_runs(&mut sheet, lane, 0, LANE)?;
        self.end_lane(sheet, class, LANE)
    }

    /// A lane with notes below it.
    pub(crate) fn add_initiator(&mut self, lane: &InitiatorLane) -> Result<(), AllocError> {
        let mut label = Telling::empty(self.alloc, 40);
        label.push(b"initiator ")?;
        label.push_number(u64::from(lane.number))?;
        let mut sheet = Sheet::empty(self.alloc);
        self.add_ground(&mut sheet, label.as_slice(), LANE)?;
        self.add_runs(&mut sheet, &lane.lane, 0, LANE)?;
        self.add_notes(&mut sheet, lane.lane.notes.as_slice(), LANE + NOTES - 3)?;
        self.end_lane(sheet, Short::new(b"initiator"), LANE + NOTES)
    }

    pub(crate) fn add_queue(&mut self) -> Result<(), AllocError> {
        let queue = &self.history.queue;
        let mut label: &[u8] = b"queue";
        for slot in &queue.slots {
            self.add_lane(label, &slot.lane, Short::new(b"queue"))?;
            label = b"";
        }
        if !queue.others.runs.is_empty() {
            self.add_lane(b"more jobs", &queue.others, Short::new(b"queue"))?;
        }
        Ok(())
    }

    pub(crate) fn add_writer(&mut self, lane: &WriterLane) -> Result<(), AllocError> {
        let mut label = Telling::empty(self.alloc, 40);
        label.push(b"writer ")?;
        label.push(&[lane.class])?;
        self.add_lane(label.as_slice(), &lane.lane, Short::new(b"writer"))
    }

    pub(crate) fn add_names(&mut self, drawn: &Drawn) -> Result<(), AllocError> {
        for place in &drawn.places {
            if let Some(lane) = self.history.names.lanes.get(*place) {
                self.add_lane(lane.name.as_slice(), &lane.lane, Short::new(b"name"))?;
            }
        }
        let mut label: &[u8] = b"other names";
        for lane in &drawn.together {
            self.add_lane(label, lane, Short::new(b"names"))?;
            label = b"";
        }
        Ok(())
    }
}
