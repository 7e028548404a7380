//! Casts of single elements, from each kind to each other.
use crate::scalars::letter;
use arithmetic::casts::CastTo;
use std::io;

/// Casts from each kind to each other.
pub(crate) fn casts(rt: &HostRuntime) -> io::Result<()> {
    for x in [
        0,
        1,
        -1,
        65,
        127,
        128,
        -128,
        -129,
        255,
        256,
        -256,
        i32::MAX,
        i32::MIN,
    ] {
        let character = CastTo::<i8>::cast(x);
        let boolean = letter(CastTo::<bool>::cast(x));
        println!(rt; "integer {x}: character {character}, boolean {boolean}")?;
    }
    for x in [0i8, 1, 127, -128, -1] {
        let integer = CastTo::<i32>::cast(x);
        let boolean = letter(CastTo::<bool>::cast(x));
        println!(rt; "character {x}: integer {integer}, boolean {boolean}")?;
    }
    for x in [false, true] {
        let p = letter(x);
        let integer = CastTo::<i32>::cast(x);
        let character = CastTo::<i8>::cast(x);
        println!(rt; "boolean {p}: integer {integer}, character {character}")?;
    }
    Ok(())
}
