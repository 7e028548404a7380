//! A row of a sheet, as its file has it.
ghost use Rattle.std.specs.Prelude.{◌^◌, ◌<◌};
ghost use Rattle.std.specs.Int.Signed.{mag};

/// One row: what it does (`code`), the line of the source that it came from, and its fields, whose
/// meaning is the code's. The ghost fields carry each number's range to a reader of a list of rows.
#[derive(Clone, Copy, Debug, PartialEq, Eq, Hash)]
pub struct Row {
    pub code: u16,
    pub line: u16,
    pub a: u16,
    pub b: u16,
    pub c: u16,
    pub d: u16,
    pub r: u16,
    pub s: u16,
    pub n: i32,
    ghost code_fits: { code < 65536 },
    ghost line_fits: { line < 65536 },
    ghost a_fits: { a < 65536 },
    ghost b_fits: { b < 65536 },
    ghost c_fits: { c < 65536 },
    ghost d_fits: { d < 65536 },
    ghost r_fits: { r < 65536 },
    ghost s_fits: { s < 65536 },
    ghost n_fits: { mag n < 2 ^ 31 },
}
