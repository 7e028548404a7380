//! The line of a reading as a source of its own, in hand while it is read.
ghost use Rattle.std.specs.Prelude.{◌≡◌, ◌+◌, ◌≤◌, [], ◌∷◌, ◌++◌, length, reverse, decimal};

use crate::source::Source;
use arrayvec::ArrayVec;

/// A sign, ten digits and a line feed.
const WIDTH: usize = 12;

/// What is left of a line, its last byte first, so that the next one is on top.
#[derive(Drop)]
pub struct Line {
    stack: ArrayVec<u8, WIDTH>,
    ghost short: { length stack.items ≤ 12 },
}

impl Line {
    ghost use Rattle.source.specs.Lines.{line_of, left_of};

    /// A line of which nothing is left.
    pub fn ended() -> Line
        ensures { left_of result ≡ [] }
    {
        Line {
            stack: ArrayVec::new(),
        }
    }

    /// The whole line of `value`, written from its end to its front.
    pub fn of(value: i32) -> Line
        ensures { left_of result ≡ line_of value }
    {
        let mut stack = ArrayVec::new();
        stack.push(b'\n');
        push_decimal(&mut stack, value.unsigned_abs());
        if value < 0 {
            stack.push(b'-');
        }
        Line { stack }
    }
}

/// Pushes the decimal digits of `number`, the last one first.
fn push_decimal(stack: &mut ArrayVec<u8, WIDTH>, number: u32)
    requires { length stack.old.items ≤ 2 }
    ensures text { reverse stack.new.items ≡ decimal number ++ reverse stack.old.items }
    ensures room { length stack.new.items ≤ length stack.old.items + 10 }
{
    let mut left = number;
    // No index is counted here: the loop goes through the digits, which lie in no slice.
    while left >= 10 {
        stack.push(b'0' + (left % 10) as u8);
        left /= 10;
    }
    stack.push(b'0' + left as u8);
}

impl Source for Line {
    ghost use Rattle.source.specs.Lines.{left_of};
    ghost use Rattle.source.specs.LineBounds.{left_short};

    ghost waiting = { left_of };

    ghost bounded = { left_short };

    fn peek(&self) -> Option<u8> {
        self.stack.last().copied()
    }

    fn take(&mut self) -> Option<u8> {
        self.stack.pop()
    }
}
