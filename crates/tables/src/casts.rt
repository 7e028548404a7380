//! Elements cast from the table of one kind into that of another, and literals.
ghost use Rattle.std.specs.Prelude.{◌≡◌, ◌+◌, ◌≤◌, [], ◌∷◌, map};
ghost use Rattle.element.specs.Cells.{put, cells};
ghost use Rattle.meaning.specs.Elements.{cast};
ghost use Rattle.meaning.specs.States.{table_of, with_table};
ghost use Rattle.types.specs.declared.kinds.Kind.TheVariants.{Integer};
ghost use Rattle.tables.specs.Lent.{held, Kept, Reach};

use crate::lent::Tables;
use arithmetic::casts::CastTo;
use element::cells::copy;
use elementwise::casts::cast as cast_cells;
use types::Kind;

impl Tables<'_> {
    /// Writes n cells from `at` on of the table of a kind into the table of another, from `to` on, each cast to the kind of that table.
    pub fn cast(&mut self, kind: Kind, to_kind: Kind, at: usize, to: usize, n: usize)
        requires below { at + n ≤ to }
        requires within { Reach (to + n) (held self.old) }
        ensures value { held self.new ≡ with_table to_kind (held self.old) (put (table_of to_kind (held self.old)) to (map (cast kind to_kind) (cells (table_of kind (held self.old)) at n))) }
        ensures lent { Kept self.old self.new }
    {
        let booleans = &mut *self.booleans;
        let characters = &mut *self.characters;
        let integers = &mut *self.integers;
        match kind {
            Kind::Boolean => match to_kind {
                Kind::Boolean => copy(booleans, at, n, to),
                Kind::Character => cast_cells(booleans, characters, at, to, n),
                Kind::Integer => cast_cells(booleans, integers, at, to, n),
            },
            Kind::Character => match to_kind {
                Kind::Boolean => cast_cells(characters, booleans, at, to, n),
                Kind::Character => copy(characters, at, n, to),
                Kind::Integer => cast_cells(characters, integers, at, to, n),
            },
            Kind::Integer => match to_kind {
                Kind::Boolean => cast_cells(integers, booleans, at, to, n),
                Kind::Character => cast_cells(integers, characters, at, to, n),
                Kind::Integer => copy(integers, at, n, to),
            },
        }
    }

    /// Writes a literal, cast to the kind, into the cell `to`.
    pub fn write_literal(&mut self, kind: Kind, n: i32, to: usize)
        requires within { Reach (to + 1) (held self.old) }
        ensures value { held self.new ≡ with_table kind (held self.old) (put (table_of kind (held self.old)) to (cast Integer kind n ∷ [])) }
        ensures lent { Kept self.old self.new }
    {
        match kind {
            Kind::Boolean => self.booleans[to] = n.cast(),
            Kind::Character => self.characters[to] = n.cast(),
            Kind::Integer => self.integers[to] = n,
        }
    }
}
