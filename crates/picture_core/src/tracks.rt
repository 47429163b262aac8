//! The lanes of volumes.
use crate::canvas::{Canvas, VOLUME};
use crate::scale::part;
use crate::sheet::Sheet;
use crate::style::{class_of, word_of};
use crate::tell::Telling;
use history_core::levels::{Level, VolumeLane};
use history_core::look::Look;
use plain::listed::Listed;
use plain::short::Short;
use plain::text::Text;
use std::alloc::AllocError;
use svg_text::shape::Point;

impl Canvas<'_> {
    /// The place of a number of tracks in a volume's lane.
    pub(crate) fn level_at(&self, column: u32, tracks: usize, most: usize) -> Point {
        let height = part(VOLUME.saturating_sub(14), tracks as u64, most as u64);
        self.at(column, VOLUME.saturating_sub(9).saturating_sub(height))
    }

    /// A step line through the tracks of a volume, by the last of each column.
    pub(crate) fn steps(
        &self,
        levels: &[Level],
        look: Look,
        most: usize,
    ) -> Result<Listed<Point>, AllocError> {
        let mut points = Listed::empty(self.alloc);
        let mut before: Option<u32> = None;
        for (place, level) in levels.iter().enumerate() {
            let column = self.axis.column_of(level.from);
            if self.is_followed(levels, place, column) {
                continue;
            }
            let point = self.level_at(column, tracks_of(level, look), most);
            if let Some(y) = before {
                points.push(Point { x: point.x, y })?;
            }
            points.push(point)?;
            before = Some(point.y);
        }
        if let Some(y) = before {
            points.push(Point {
                x: self.left.saturating_add(self.axis.scale.width),
                y,
            })?;
        }
        Ok(points)
    }

    /// Whether the level behind a place is in this column too.
    pub(crate) fn is_followed(&self, levels: &[Level], place: usize, column: u32) -> bool {
        match levels.get(place.saturating_add(1)) {
            Some(next) => self.axis.column_of(next.from) == column,
            None => false,
        }
    }

    pub(crate) fn add_steps(
        &self,
        sheet: &mut Sheet,
        lane: &VolumeLane,
        look: Look,
    ) -> Result<(), AllocError> {
        let points = self.steps(lane.levels.as_slice(), look, lane.size)?;
        let title = Text::copy_of(self.alloc, word_of(look))?;
        sheet.polyline(class_of(look), points, Some(title))
    }

    pub(crate) fn add_volume(&mut self, lane: &VolumeLane) -> Result<(), AllocError> {
        let mut sheet = Sheet::empty(self.alloc);
        self.add_ground(&mut sheet, lane.serial.as_slice(), VOLUME)?;
        let mut size = Telling::empty(self.alloc, 40);
        size.push_number(lane.size as u64)?;
        size.push(b" tracks")?;
        let below = Point {
            x: self.left.saturating_sub(8),
            y: self.top.saturating_add(32),
        };
        sheet.owned_text(Short::new(b"label"), below, size.into_text())?;
        self.add_steps(&mut sheet, lane, Look::Kept)?;
        self.add_steps(&mut sheet, lane, Look::Free)?;
        self.add_runs(&mut sheet, &lane.busy, VOLUME.saturating_sub(6), 5)?;
        self.end_lane(sheet, Short::new(b"volume"), VOLUME)
    }
}

/// The tracks of a level, as a line of this look shows them.
fn tracks_of(level: &Level, look: Look) -> usize {
    if look == Look::Kept {
        level.kept
    } else {
        level.free
    }
}
