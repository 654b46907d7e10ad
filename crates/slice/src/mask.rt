// The inputs that a slice reads, as a mask.
ghost use Rattle.std.specs.Prelude.{◌≡◌, ◌≤◌};
ghost use Rattle.slice.specs.Mask.{mask_of};
ghost use Rattle.slice.specs.Shown.{in_set};

use super::sets::Symbols;

// Bit s is set where symbol s is in the set.
pub fn mask_of(needed: &Symbols, inputs: usize) -> u64
    requires { inputs ≤ 64 }
    ensures { result ≡ mask_of inputs (in_set needed.now) }
{
    let mut mask: u64 = 0;
    for s in 0..inputs {
        mask |= u64::from(needed.contains(s)) << s;
    }
    mask
}
