//! A table of readings as a source: the decimal text of each and a line feed, one line in hand at a time.
ghost use Rattle.std.specs.Prelude.{◌≡◌, ◌≤◌, [], ◌++◌, length};
ghost use Rattle.source.specs.Lines.{left_of, lines_of};

use crate::line::Line;
use crate::refusal::SourceRefusal;
use crate::source::Source;

/// A longer table is refused.
const MOST_READINGS: usize = 65_536;

/// What a plate's readings look like to a sheet that reads them.
#[derive(Drop)]
pub struct Recorder<'a> {
    /// What is left of the line in hand.
    line: Line,
    /// The readings whose lines come after it; at the end of the last line, none.
    readings: &'a [i32],
    ghost few: { length readings.now ≤ 65536 },
    ghost ends: { left_of line ≡ [] → readings.now ≡ [] },
}

impl<'a> Recorder<'a> {
    ghost use Rattle.source.specs.Making.{Makes};
    ghost use Rattle.source.specs.Records.{recorded};

    /// A recorder of up to 65,536 readings.
    pub fn new(readings: &'a [i32]) -> Result<Recorder<'a>, SourceRefusal>
        ensures { Makes recorded (lines_of readings.now) (length readings.now) 65536 result }
    {
        if readings.len() > MOST_READINGS {
            return Err(SourceRefusal::TooLong);
        }
        let (line, readings) = cut_line(readings);
        Ok(Recorder { line, readings })
    }
}

/// The line of the first reading, and the readings after it; where there are none, a line of which nothing is left.
fn cut_line<'a>(readings: &'a [i32]) -> (Line, &'a [i32])
    ensures text { left_of result.0 ++ lines_of result.1.now ≡ lines_of readings.now }
    ensures fewer { length result.1.now ≤ length readings.now }
    ensures ends { left_of result.0 ≡ [] → result.1.now ≡ [] }
{
    match readings.split_first() {
        Some((first, later)) => (Line::of(*first), later),
        None => (Line::ended(), readings),
    }
}

impl<'a> Source for Recorder<'a> {
    ghost use Rattle.source.specs.Bounds.{recorded_short};
    ghost use Rattle.source.specs.Records.{recorded};

    ghost waiting = { recorded };

    ghost bounded = { recorded_short };

    fn peek(&self) -> Option<u8> {
        self.line.peek()
    }

    fn take(&mut self) -> Option<u8> {
        let next = self.line.take();
        if self.line.peek().is_none() {
            (self.line, self.readings) = cut_line(self.readings);
        }
        next
    }
}
