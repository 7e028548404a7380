//! Characters as elements: signed bytes, which print as their bytes.
ghost use Rattle.std.proofs.Common.{lit≤, rules};
ghost use Rattle.std.specs.Prelude.{pos};
ghost use Rattle.types.specs.declared.kinds.Kind.TheVariants.{Character};
ghost use Rattle.element.specs.Elements.{character_text};

use crate::elements::Element;
use types::Kind;

impl Element for i8 {
    const NULL: i8 = 0;

    ghost NULL = { pos 0 };

    const LONGEST: usize = 1;

    ghost LONGEST = { 1 };

    const KIND: Kind = Kind::Character;

    ghost KIND = { Character };

    ghost text = { character_text };

    ghost same = { Prim.search rules };

    ghost infallible = { Prim.search rules };

    ghost exact = { Prim.search rules };

    ghost narrow = { lit≤ tt };

    ghost brief = { λ _. lit≤ tt };

    fn text_len(self) -> usize {
        1
    }

    fn write_text(self, output: &mut [u8], at: usize) -> usize {
        output[at] = self.cast_unsigned();
        at + 1
    }
}
