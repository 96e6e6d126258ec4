//! Numbers at points and strings of which something became, and lengths at new strings.

use crate::dots::{Dot, dot_size};
use crate::edges::Edge;
use crate::marks::{Mark, string_mark};
use crate::page::{Page, Spot, whole};
use crate::pen::push_text;
use crate::words::{measured, width_of};
use cad_map::{MapView, PlainMap, position};
use cad_rows::{Memory, StringRow};
use std::alloc::Global;
use unicode_width::UnicodeWidthStr;

// A text at a place of a drawing.
#[derive(Drop)]
struct Label {
    middle: Spot,
    mark: Mark,
    words: String,
}

/// The numbers and lengths of a drawing, in letters of one size.
#[derive(Drop)]
pub(crate) struct Labels {
    labels: Vec<Label>,
    size: i64,
}

// How long a string is, in hundredths of a metre, rounded half up.
fn length_of(map: &PlainMap, row: &StringRow) -> i128 {
    let from = position(map, row.from);
    let to = position(map, row.to);
    let across = u128::from(from.x.abs_diff(to.x));
    let along = u128::from(from.y.abs_diff(to.y));
    let squared = across
        .saturating_mul(across)
        .saturating_add(along.saturating_mul(along));
    let hundredths = squared.isqrt().saturating_add(5) / 10;
    i128::try_from(hundredths).unwrap_or(i128::MAX)
}

// A string's number, and how long it is where it is new.
fn string_words(
    alloc: Global,
    map: &PlainMap,
    row: &StringRow,
    mark: Mark,
) -> Result<String, Memory> {
    let mut words = row.number.get().to_string(alloc)?;
    if mark == Mark::Added {
        words.push_str(": ")?;
        words.push_str(measured(alloc, length_of(map, row), " m")?.as_str())?;
    }
    Ok(words)
}

// The class of a text at what this became of.
fn class_of(mark: Mark) -> &'static str {
    match mark {
        Mark::Same => "n",
        Mark::Added => "n added",
        Mark::Changed => "n changed",
        Mark::Removed => "n removed",
    }
}

impl Labels {
    /// The numbers at points and strings that were added, changed or removed since an older map, and the lengths of strings
    /// that were added. `Err` where memory runs out.
    pub(crate) fn of(
        alloc: Global,
        page: &Page,
        map: &PlainMap,
        since: Option<&PlainMap>,
        dots: &[Dot],
    ) -> Result<Labels, Memory> {
        let mut labels = Labels {
            labels: Vec::new(alloc),
            size: dot_size(map).saturating_mul(4).max(100),
        };
        if let Some(old) = since {
            labels.push_gone_strings(alloc, page, old, map)?;
            labels.push_strings(alloc, page, map, old)?;
            labels.push_points(alloc, dots)?;
        }
        Ok(labels)
    }

    // How wide a text is.
    fn width(&self, words: &str) -> i64 {
        width_of(whole(words.width()), self.size)
    }

    // Puts the number of a point last, to its upper right.
    fn push_point(&mut self, alloc: Global, dot: &Dot) -> Result<(), Memory> {
        let words = dot.number.get().to_string(alloc)?;
        let right = self.width(words.as_str()) / 2;
        let middle = Spot::at(
            dot.spot
                .x
                .saturating_add(right)
                .saturating_add(self.size / 2),
            dot.spot.y.saturating_sub(self.size),
        );
        self.labels.push(Label {
            middle,
            mark: dot.mark,
            words,
        })?;
        Ok(())
    }

    // Puts the numbers of these points last, so far as something became of them.
    fn push_points(&mut self, alloc: Global, dots: &[Dot]) -> Result<(), Memory> {
        for dot in dots {
            if dot.mark != Mark::Same {
                self.push_point(alloc, dot)?;
            }
        }
        Ok(())
    }

    // Puts a text last, in the middle of a line, if that is as long as the text is wide.
    fn push_along(&mut self, edge: &Edge, mark: Mark, words: String) -> Result<(), Memory> {
        if edge.length() >= self.width(words.as_str()) {
            self.labels.push(Label {
                middle: edge.middle(),
                mark,
                words,
            })?;
        }
        Ok(())
    }

    // Puts the numbers of a map's strings last, so far as they were added or changed since an older map.
    fn push_strings(
        &mut self,
        alloc: Global,
        page: &Page,
        map: &PlainMap,
        old: &PlainMap,
    ) -> Result<(), Memory> {
        for place in 0..map.counts().strings {
            if let Some(row) = map.string_at(place) {
                let mark = string_mark(Some(old), map, row);
                if mark != Mark::Same {
                    let words = string_words(alloc, map, row, mark)?;
                    let edge = Edge::between(page, map, row.from, row.to);
                    self.push_along(&edge, mark, words)?;
                }
            }
        }
        Ok(())
    }

    // Puts the numbers of the strings last that an older map has and this one hasn't.
    fn push_gone_strings(
        &mut self,
        alloc: Global,
        page: &Page,
        old: &PlainMap,
        map: &PlainMap,
    ) -> Result<(), Memory> {
        for place in 0..old.counts().strings {
            if let Some(row) = old.string_at(place) {
                if map.string(row.number).is_none() {
                    let words = string_words(alloc, old, row, Mark::Removed)?;
                    let edge = Edge::between(page, old, row.from, row.to);
                    self.push_along(&edge, Mark::Removed, words)?;
                }
            }
        }
        Ok(())
    }

    /// Puts lines last that stand for the texts, so that other words stay clear of them. `Err` where memory runs out.
    pub(crate) fn push_bars(&self, edges: &mut Vec<Edge>) -> Result<(), Memory> {
        let half = self.size / 2;
        for label in &self.labels {
            let right = self.width(label.words.as_str()) / 2;
            for down in [half.saturating_neg(), 0, half] {
                let y = label.middle.y.saturating_add(down);
                edges.push(Edge {
                    from: Spot::at(label.middle.x.saturating_sub(right), y),
                    to: Spot::at(label.middle.x.saturating_add(right), y),
                })?;
            }
        }
        Ok(())
    }

    /// Writes the texts. `Err` where memory runs out.
    pub(crate) fn push(&self, text: &mut Vec<u8>) -> Result<(), Memory> {
        for label in &self.labels {
            let base = label
                .middle
                .y
                .saturating_add(self.size.saturating_mul(7) / 20);
            let spot = Spot::at(label.middle.x, base);
            push_text(
                text,
                class_of(label.mark),
                &spot,
                self.size,
                label.words.as_str(),
            )?;
        }
        Ok(())
    }
}
