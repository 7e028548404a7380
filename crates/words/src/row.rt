//! Rows in words.
use crate::templates::template;
use crate::typings::{TypingWords, kind_word};
use sheet::{Kind, Row, Shape, Typing};
use std::fmt;
use types::sizes::size_from;

/// Prints a row, as `add rows 5 and 6`. A row whose code has no meaning is shown by its numbers.
#[derive(Clone, Copy)]
pub struct RowWords(pub Row);

/// The type that the numbers c, b, r and s of a declaration stand for.
pub(crate) fn declared(row: &Row) -> Option<Typing> {
    Some(Typing {
        kind: Kind::try_from(row.c).ok()?,
        shape: Shape::try_from(row.b).ok()?,
        r: size_from(row.r),
        s: size_from(row.s),
    })
}

fn write_kind<W: fmt::Write>(f: &mut fmt::Formatter<W>, number: u16) -> fmt::Result {
    match Kind::try_from(number) {
        Ok(kind) => f.write_str(kind_word(kind)),
        Err(_) => write!(f, "kind {number}"),
    }
}

fn write_type<W: fmt::Write>(f: &mut fmt::Formatter<W>, row: &Row) -> fmt::Result {
    match declared(row) {
        Some(typing) => write!(f, "{}", TypingWords(typing)),
        None => write!(f, "no type"),
    }
}

fn write_field<W: fmt::Write>(f: &mut fmt::Formatter<W>, row: &Row, name: char) -> fmt::Result {
    match name {
        'a' => write!(f, "{}", row.a),
        'b' => write!(f, "{}", row.b),
        'c' => write!(f, "{}", row.c),
        'd' => write!(f, "{}", row.d),
        'r' => write!(f, "{}", row.r),
        's' => write!(f, "{}", row.s),
        'n' => write!(f, "{}", row.n),
        'k' => write_kind(f, row.a),
        'K' => write_kind(f, row.c),
        _ => write_type(f, row),
    }
}

/// A template is text up to its first `%`, and then fields: a letter each, with the text that follows it.
fn write_template<W: fmt::Write>(f: &mut fmt::Formatter<W>, row: &Row, text: &str) -> fmt::Result {
    let mut parts = text.split('%');
    f.write_str(parts.next().unwrap_or(""))?;
    for part in parts {
        let mut letters = part.chars();
        if let Some(name) = letters.next() {
            write_field(f, row, name)?;
        }
        f.write_str(letters.as_str())?;
    }
    Ok(())
}

fn write_numbers<W: fmt::Write>(f: &mut fmt::Formatter<W>, row: &Row) -> fmt::Result {
    write!(
        f,
        "no known row: code {}, a {}, b {}, c {}, d {}, r {}, s {}, n {}",
        row.code, row.a, row.b, row.c, row.d, row.r, row.s, row.n,
    )
}

impl fmt::Display for RowWords {
    fn fmt<W: fmt::Write>(&self, f: &mut fmt::Formatter<W>) -> fmt::Result {
        match template(&self.0) {
            Some(text) => write_template(f, &self.0, text),
            None => write_numbers(f, &self.0),
        }
    }
}
