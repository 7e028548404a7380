//! What a recorder writes is read back as the reading.
ghost use Rattle.std.specs.Prelude.{◌≡◌, Ok};

use source::{Misread, Readable, Recorder, StreamState};
use std::io;

/// Reads the line of one reading: the reading again, whatever it is.
pub(crate) fn read_back(reading: i32) -> Result<i32, Misread>
    ensures { result ≡ Ok reading }
{
    let readings = [reading];
    match Recorder::new(&readings) {
        Ok(mut recorder) => { i32::read(&mut recorder, &mut 0) }
        Err(_) => Err(Misread::BadWord),
    }
}

fn show(rt: &HostRuntime, reading: i32) -> io::Result<()> {
    let read = read_back(reading);
    let state = StreamState::from(&read).number();
    let value = read.unwrap_or_default();
    println!(rt; "{reading}: {value}, state {state}")
}

pub(crate) fn readings(rt: &HostRuntime) -> io::Result<()> {
    println!(rt; "readings that are read back")?;
    show(rt, -2147483648)?;
    show(rt, -1)?;
    show(rt, 0)?;
    show(rt, 1000000000)?;
    show(rt, 2147483647)
}
