//! Lines of the table: what a read tells of a text, how many bytes it takes, and what waits next.
use source::{ReadValue, Source, SourceRefusal, Text, WithNull, read_value};
use std::fmt::Display;
use std::io;

/// Prints one read, with its case's name.
pub(crate) fn show<T: Display + Drop, S: Source>(
    rt: &HostRuntime,
    name: &str,
    read: ReadValue<T>,
    taken: u32,
    s: &S,
) -> io::Result<()> {
    let ReadValue { value, state } = read;
    let state = state.number();
    print!(rt; "{name}: {value}, state {state}, taken {taken}, next ")?;
    match s.peek() {
        Some(byte) => println!(rt; "{byte}"),
        None => println!(rt; "end"),
    }
}

/// Reads one value of a text from its front, and prints how that went.
pub(crate) fn trial<T: WithNull + Display + Drop>(
    rt: &HostRuntime,
    name: &str,
    bytes: &[u8],
) -> io::Result<()> {
    match Text::new(bytes) {
        Ok(mut text) => turn::<T, Text>(rt, name, &mut text, &mut 0),
        Err(refusal) => refused(rt, name, refusal),
    }
}

/// Reads one value where the last read left off, and prints how that went.
pub(crate) fn turn<T: WithNull + Display + Drop, S: Source>(
    rt: &HostRuntime,
    name: &str,
    s: &mut S,
    taken: &mut u32,
) -> io::Result<()> {
    let read = read_value::<T, S>(s, taken);
    show(rt, name, read, *taken, s)
}

pub(crate) fn refused(rt: &HostRuntime, name: &str, refusal: SourceRefusal) -> io::Result<()> {
    let number = refusal.number();
    println!(rt; "{name}: refused {number}, {refusal}")
}
