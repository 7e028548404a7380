//! Many reads from one source, and a count that stops at its greatest.
use crate::table::turn;
use source::{Source, Text};
use std::io;

/// Four words as integers, each where the last read left off.
fn integers<S: Source>(rt: &HostRuntime, s: &mut S, taken: &mut u32) -> io::Result<()> {
    turn::<i32, S>(rt, "first integer", s, taken)?;
    turn::<i32, S>(rt, "second integer", s, taken)?;
    turn::<i32, S>(rt, "third integer", s, taken)?;
    turn::<i32, S>(rt, "fourth integer", s, taken)
}

fn others<S: Source>(rt: &HostRuntime, s: &mut S, taken: &mut u32) -> io::Result<()> {
    turn::<bool, S>(rt, "boolean", s, taken)?;
    turn::<i8, S>(rt, "character", s, taken)?;
    turn::<i8, S>(rt, "another character", s, taken)?;
    turn::<bool, S>(rt, "another boolean", s, taken)
}

fn at_end<S: Source>(rt: &HostRuntime, s: &mut S, taken: &mut u32) -> io::Result<()> {
    turn::<i32, S>(rt, "last integer", s, taken)?;
    turn::<i8, S>(rt, "last character", s, taken)
}

pub(crate) fn in_turn(rt: &HostRuntime) -> io::Result<()> {
    println!(rt; "reads in turn")?;
    if let Ok(mut text) = Text::new(b" \t-12 +7\n2147483648 x F\n\xfeend ") {
        let mut taken = 0;
        integers(rt, &mut text, &mut taken)?;
        others(rt, &mut text, &mut taken)?;
        at_end(rt, &mut text, &mut taken)?;
    }
    Ok(())
}

pub(crate) fn greatest_count(rt: &HostRuntime) -> io::Result<()> {
    println!(rt; "a count of 4294967292 to begin with")?;
    if let Ok(mut text) = Text::new(b"12 3 4") {
        integers(rt, &mut text, &mut 4_294_967_292)?;
    }
    Ok(())
}
