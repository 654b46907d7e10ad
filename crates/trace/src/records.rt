// The records of an accepted trace, one after the other.
ghost use Rattle.std.specs.Prelude.{◌≡◌, true, ◌≤◌};
ghost use Rattle.std.specs.Iterator.{YieldsFirst, item_count};
ghost use Rattle.file.specs.File.{header_count};
ghost use Rattle.file.specs.Shown.{is_accepted, offsets_in};
ghost use Rattle.trace.specs.Trace.{read_trace};

use expr::number;
use std::marker::Model;

// The records that are left of a trace. A clause sees the list of their offsets.
#[derive(Drop)]
pub struct Records<'a> {
    trace: &'a [u8],
    at: usize,
    left: usize,
}

impl<'a> Model for Records<'a> {
    ghost use Rattle.std.specs.Prelude.{ℕ, List, drop};
    ghost use Rattle.file.specs.Shown.{offsets_from};
    ghost use Rattle.trace.specs.Shown.{Stand};

    ghost Value = { List ℕ };

    ghost view = { λ r. offsets_from r.left r.at (drop r.at r.trace.now) };

    ghost invariant = { λ r. Stand r.left r.trace.now r.at };
}

impl<'a> Iterator for Records<'a> {
    type Item = usize;

    ghost next_gives = { YieldsFirst (λ rest. rest) };

    ghost remaining = { item_count (λ rest. rest) };

    fn next(&mut self) -> Option<usize> {
        if self.left == 0 {
            return None;
        }
        let at = self.at;
        self.at += 2 + number::two_at(self.trace, at);
        self.left -= 1;
        Some(at)
    }
}

impl<'a> Records<'a> {
    // The first n records of an accepted trace.
    pub fn first(trace: &'a [u8], n: usize) -> Self
        requires { (is_accepted (read_trace trace.now) ≡ true) × (n ≤ header_count trace.now) }
        ensures { result ≡ offsets_in n trace.now }
    {
        Records {
            trace,
            at: file::header_size(trace),
            left: n,
        }
    }
}
