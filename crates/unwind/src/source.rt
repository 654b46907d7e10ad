// What a trace is written from.
ghost use Rattle.std.specs.Prelude.{ℕ, ◌<◌, length, get_or};
ghost use Rattle.table.specs.Shown.{Ready};

// An accepted table, and the offsets of all its records. A struct's slice brings no bounds on its numbers, so a field says that they are
// bytes.
#[derive(Clone, Copy)]
pub struct Source<'a> {
    pub table: &'a [u8],
    pub offsets: &'a [u16],
    ghost ready: { Ready table.now offsets.now (length offsets.now) },
    ghost bytes: { (i : ℕ) → get_or table.now i 0 < 256 },
}
