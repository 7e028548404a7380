//! A place at which bytes wait to be read.
ghost use Rattle.std.specs.Prelude.{◌≡◌, ℕ, ◌≤◌, List, length};
ghost use Rattle.source.specs.Waiting.{first, behind};

/// What a sheet reads from. A host may bring a source of its own: it names the bytes that wait, and proves that
/// `peek` and `take` tell and remove just these.
pub trait Source {
    // The bytes that wait, in the order in which they are taken.
    ghost waiting: { Self → List ℕ };

    // They are never more than this.
    ghost bounded: { (s : Self) → length (waiting s) ≤ 16777216 };

    /// The first byte that waits, which stays; none at the end.
    fn peek(&self) -> Option<u8>
        ensures { result ≡ first (waiting self.now) };

    /// The first byte that waits, which is removed; none at the end.
    fn take(&mut self) -> Option<u8>
        ensures value { result ≡ first (waiting self.old) }
        ensures after { waiting self.new ≡ behind (waiting self.old) };
}
