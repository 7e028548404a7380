//! A caller's own read, proved from the contracts of the library's: two integers at once.
ghost use Rattle.std.specs.Prelude.{◌≡◌, pos};
ghost use Rattle.source.specs.Reads.{integer_read};
ghost use Rattle.source.specs.States.{seen};
ghost use Rattle.source.specs.Taking.{Took};
ghost use Rattle.source.specs.Words.{rest};

use crate::table::show;
use source::{Misread, ReadValue, Readable, Source, Text};
use std::io;

/// Reads two integers, the second from where the first ends.
fn read_pair<S: Source>(s: &mut S, taken: &mut u32) -> (Result<i32, Misread>, Result<i32, Misread>)
    ensures one { result.0 ≡ integer_read (S.waiting s.old) }
    ensures two { result.1 ≡ integer_read (rest (S.waiting s.old)) }
    ensures took { Took (S.waiting s.old) (S.waiting s.new) taken.old taken.new }
{
    let one = i32::read(s, taken);
    let two = i32::read(s, taken);
    (one, two)
}

/// What is shown of one of them: 0 where it is not read.
fn shown(read: Result<i32, Misread>) -> ReadValue<i32>
    ensures { result ≡ seen (pos 0) read }
{
    match read {
        Ok(value) => ReadValue::good(value),
        Err(Misread::BadWord) => ReadValue::bad_word(0),
        Err(Misread::Ended) => ReadValue::ended(0),
    }
}

pub(crate) fn two_at_once(rt: &HostRuntime) -> io::Result<()> {
    println!(rt; "two at once")?;
    if let Ok(mut text) = Text::new(b"7 -8 9") {
        let mut taken = 0;
        let (one, two) = read_pair(&mut text, &mut taken);
        show(rt, "one", shown(one), taken, &text)?;
        show(rt, "two", shown(two), taken, &text)?;
    }
    Ok(())
}
