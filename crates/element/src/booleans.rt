//! Booleans as elements: they print as T and F.
ghost use Rattle.std.specs.Prelude.{false};
ghost use Rattle.std.proofs.Common.{lit≤, rules};
ghost use Rattle.types.specs.declared.kinds.Kind.TheVariants.{Boolean};
ghost use Rattle.element.specs.Elements.{boolean_text};

use crate::elements::Element;
use types::Kind;

impl Element for bool {
    const NULL: bool = false;

    ghost NULL = { false };

    const LONGEST: usize = 1;

    ghost LONGEST = { 1 };

    const KIND: Kind = Kind::Boolean;

    ghost KIND = { Boolean };

    ghost text = { boolean_text };

    ghost same = { Prim.search rules };

    ghost infallible = { Prim.search rules };

    ghost exact = { Prim.search rules };

    ghost narrow = { lit≤ tt };

    ghost brief = { λ _. lit≤ tt };

    fn text_len(self) -> usize {
        1
    }

    fn write_text(self, output: &mut [u8], at: usize) -> usize {
        output[at] = if self { b'T' } else { b'F' };
        at + 1
    }
}
