//! Recorders, byte by byte, and the limits of sources.
ghost use Rattle.std.specs.Prelude.{◌≡◌, length};

use crate::repeated::Repeated;
use crate::table::{refused, trial, turn};
use source::{Recorder, Source, Text};
use std::io;

/// Takes all that waits, and tells how many bytes there were.
// A loop, since a source is no iterator: a host gives `peek` and `take` alone, and each loop is proved to end by what waits.
fn count_bytes<S: Source>(s: &mut S) -> u32
    ensures { result ≡ length (S.waiting s.old) }
{
    let mut count = 0;
    while let Some(_) = s.take() {
        count += 1;
    }
    count
}

/// Takes from both sources while they agree; the number of bytes, if they agree to the end.
fn alike<A: Source, B: Source>(a: &mut A, b: &mut B) -> Option<u32> {
    let mut count: u32 = 0;
    while let Some(byte) = a.take() {
        if b.take() != Some(byte) {
            return None;
        }
        count = count.saturating_add(1);
    }
    if b.peek().is_some() {
        return None;
    }
    Some(count)
}

fn compare(rt: &HostRuntime, name: &str, readings: &[i32], bytes: &[u8]) -> io::Result<()> {
    if let Ok(mut recorder) = Recorder::new(readings)
        && let Ok(mut text) = Text::new(bytes)
    {
        match alike(&mut recorder, &mut text) {
            Some(count) => println!(rt; "{name}: {count} bytes, alike"),
            None => println!(rt; "{name}: not alike"),
        }?;
    }
    Ok(())
}

pub(crate) fn recorders(rt: &HostRuntime) -> io::Result<()> {
    println!(rt; "recorders beside texts")?;
    compare(rt, "no readings", &[], b"")?;
    compare(rt, "one and two digits", &[7, -10], b"7\n-10\n")?;
    compare(rt, "no last line feed", &[7, -10], b"7\n-10")?;
    compare(
        rt,
        "least, zero and greatest",
        &[-2147483648, 0, 2147483647],
        b"-2147483648\n0\n2147483647\n",
    )
}

/// Tells how many bytes a recorder of `readings` has.
fn length_of(rt: &HostRuntime, name: &str, readings: &[i32]) -> io::Result<()> {
    match Recorder::new(readings) {
        Ok(mut recorder) => {
            let count = count_bytes(&mut recorder);
            println!(rt; "{name}: {count} bytes")
        }
        Err(refusal) => refused(rt, name, refusal),
    }
}

pub(crate) fn limits(rt: &HostRuntime) -> io::Result<()> {
    println!(rt; "limits")?;
    let blanks = vec![in rt.alloc(); b' '; 16_777_217]?;
    trial::<i32>(rt, "16777217 blanks", &blanks)?;
    if let Some(fewer) = blanks.get(1..) {
        trial::<i32>(rt, "16777216 blanks", fewer)?;
    }
    let readings = vec![in rt.alloc(); -2147483648; 65_537]?;
    length_of(rt, "65537 readings", &readings)?;
    if let Some(fewer) = readings.get(1..) {
        length_of(rt, "65536 readings", fewer)?;
    }
    Ok(())
}

pub(crate) fn long_words(rt: &HostRuntime) -> io::Result<()> {
    println!(rt; "long words")?;
    let mut bytes = [b'0'; 1001];
    bytes[1000] = b'7';
    trial::<i32>(rt, "a thousand zeros and 7", &bytes)?;
    let mut zeros = Repeated::new(b'0', 4_294_967_295);
    turn::<i32, Repeated>(rt, "as many zeros as a source may have", &mut zeros, &mut 0)
}
