// A set of the symbols that a trace may have, as bits: symbol x is bit x % 64 of word x / 64. Only its methods know that; for all others it
// is what `in_set` says of each symbol.
ghost use Rattle.std.specs.Prelude.{◌≡◌, false, ◌||◌, ℕ, ◌<◌, eqb};
ghost use Rattle.trace.specs.Shown.{symbol_room};
ghost use Rattle.slice.specs.Shown.{in_set};

use trace::SYMBOL_ROOM;

// As many words as have room for the symbols of any trace.
const WORDS: usize = SYMBOL_ROOM / 64;

#[derive(Drop)]
pub struct Symbols {
    words: [u64; WORDS],
}

impl Symbols {
    // The set with no symbol in it.
    pub fn new() -> Symbols
        ensures { (x : ℕ) → in_set result x ≡ false }
    {
        Symbols { words: [0; WORDS] }
    }

    pub fn insert(&mut self, symbol: usize)
        requires { symbol < symbol_room }
        ensures { (x : ℕ) → in_set self.new x ≡ (eqb x symbol || in_set self.old x) }
    {
        self.words[symbol / 64] |= 1u64 << (symbol % 64);
    }

    pub fn contains(&self, symbol: usize) -> bool
        requires { symbol < symbol_room }
        ensures { result ≡ in_set self.now symbol }
    {
        (self.words[symbol / 64] >> (symbol % 64)) % 2 == 1
    }
}
