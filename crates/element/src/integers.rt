//! Integers as elements: 32 bits, which print as decimals.
ghost use Rattle.std.proofs.Common.{lit≤, rules};
ghost use Rattle.std.specs.Prelude.{pos};
ghost use Rattle.types.specs.declared.kinds.Kind.TheVariants.{Integer};
ghost use Rattle.element.specs.Elements.{integer_text};
ghost use Rattle.element.specs.Brief.{integer_brief};

use crate::decimals::{digit_count, write_decimal};
use crate::elements::Element;
use types::Kind;

impl Element for i32 {
    const NULL: i32 = 0;

    ghost NULL = { pos 0 };

    const LONGEST: usize = 11;

    ghost LONGEST = { 11 };

    const KIND: Kind = Kind::Integer;

    ghost KIND = { Integer };

    ghost text = { integer_text };

    ghost same = { Prim.search rules };

    ghost infallible = { Prim.search rules };

    ghost exact = { Prim.search rules };

    ghost narrow = { lit≤ tt };

    ghost brief = { integer_brief };

    fn text_len(self) -> usize {
        let digits = digit_count(self.unsigned_abs());
        if self < 0 { digits + 1 } else { digits }
    }

    fn write_text(self, output: &mut [u8], at: usize) -> usize {
        if self < 0 {
            output[at] = b'-';
            write_decimal(self.unsigned_abs(), output, at + 1)
        } else {
            write_decimal(self.unsigned_abs(), output, at)
        }
    }
}
