//! What a sheet prints into.
ghost use Rattle.std.specs.Prelude.{◌≤◌, length};

/// Lent bytes, of which the first `printed` are printed.
#[derive(Drop)]
pub struct Output<'a> {
    pub bytes: &'a mut [u8],
    pub printed: usize,
    pub ghost room: { printed ≤ length bytes.now },
}
