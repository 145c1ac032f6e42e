//! The sheet on which marks are put that no law speaks of, and the measures of the page.
use crate::marks::Mark;
use crate::style::Style;
use base::Memory;
use std::alloc::Global;

/// Where the axis begins and ends, and how wide it is.
pub(crate) const LEFT: u64 = 118;

pub(crate) const RIGHT: u64 = 908;

pub(crate) const WIDTH: u64 = 790;
/// Where words begin at the left, and where lines end at the right.
pub(crate) const MARGIN: u64 = 16;

pub(crate) const PAGE: u64 = 984;
/// From one lane of bars to the next, and from one strip to the next.
pub(crate) const LANE: u64 = 19;

pub(crate) const STRIP: u64 = 26;
/// Where the grid begins, and where the first band does.
pub(crate) const GRID_TOP: u64 = 94;

pub(crate) const FIRST_BAND: u64 = 98;

/// Marks under the bands and over them.
#[derive(Drop)]
pub(crate) struct Sheet {
    pub alloc: Global,
    pub under: Vec<Mark>,
    pub over: Vec<Mark>,
}

impl Sheet {
    pub fn new(alloc: Global) -> Sheet {
        Sheet {
            alloc,
            under: Vec::new(alloc),
            over: Vec::new(alloc),
        }
    }

    /// A line under the bands.
    pub fn ground(
        &mut self,
        style: Style,
        x: u64,
        y: u64,
        right: u64,
        low: u64,
    ) -> Result<(), Memory> {
        let mark = Mark::Line {
            style,
            x,
            y,
            right,
            low,
        };
        self.under.push(mark)?;
        Ok(())
    }

    /// A rectangle under the bands.
    pub fn shade(
        &mut self,
        style: Style,
        x: u64,
        y: u64,
        width: u64,
        height: u64,
    ) -> Result<(), Memory> {
        let mark = Mark::Rect {
            style,
            x,
            y,
            width,
            height,
        };
        self.under.push(mark)?;
        Ok(())
    }

    pub fn line(
        &mut self,
        style: Style,
        x: u64,
        y: u64,
        right: u64,
        low: u64,
    ) -> Result<(), Memory> {
        let mark = Mark::Line {
            style,
            x,
            y,
            right,
            low,
        };
        self.over.push(mark)?;
        Ok(())
    }

    pub fn rect(
        &mut self,
        style: Style,
        x: u64,
        y: u64,
        width: u64,
        height: u64,
    ) -> Result<(), Memory> {
        let mark = Mark::Rect {
            style,
            x,
            y,
            width,
            height,
        };
        self.over.push(mark)?;
        Ok(())
    }

    pub fn words(&mut self, style: Style, x: u64, y: u64, words: String) -> Result<(), Memory> {
        let mark = Mark::Words { style, x, y, words };
        self.over.push(mark)?;
        Ok(())
    }

    pub fn text(&mut self, style: Style, x: u64, y: u64, text: &str) -> Result<(), Memory> {
        let words = text.to_string(self.alloc)?;
        self.words(style, x, y, words)
    }

    pub fn number(&mut self, style: Style, x: u64, y: u64, number: u64) -> Result<(), Memory> {
        let words = format!(in self.alloc; "{number}")?;
        self.words(style, x, y, words)
    }
}
