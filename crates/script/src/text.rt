// Constants and names. Every writer counts its letters and stores those that fit.
ghost use Rattle.std.specs.Prelude.{◌≡◌, [], ◌∷◌, ◌+◌, ◌/◌, ◌%◌, ◌≤◌, ◌<◌, ◌^◌};
ghost use Rattle.write.specs.Splice.{Wrote};
ghost use Rattle.write.specs.Decimal.{decimal};
ghost use Rattle.script.specs.ScriptText.{hex_digit, constant};

fn digit(d: u8) -> u8
    requires { d < 16 }
    ensures { result ≡ hex_digit d }
{
    match d {
        0..=9 => b'0' + d,
        _ => b'a' - 10 + d,
    }
}

// The two hexadecimal digits of a byte.
fn put_pair(b: u8, out: &mut [u8], at: usize) -> usize
    requires { at + 2 < 2 ^ 64 }
    ensures { Wrote out.old at (hex_digit (b / 16) ∷ hex_digit (b % 16) ∷ []) out.new result }
{
    let a = write::fit_byte(digit(b / 16), out, at);
    write::fit_byte(digit(b % 16), out, a)
}

// A constant: eight hexadecimal digits after #x.
pub fn put_hex(v: u32, out: &mut [u8], at: usize) -> usize
    requires { at + 10 < 2 ^ 64 }
    ensures { Wrote out.old at (constant v) out.new result × (result ≤ at + 10) }
{
    let mut to = write::fit_part(b"#x", out, at);
    for b in v.to_be_bytes() {
        to = put_pair(b, &mut *out, to);
    }
    to
}

// The letters of declared symbols and of variables.
pub const SYMBOL: u8 = 0x73;

pub const SLOT: u8 = 0x78;

// A letter and a number.
pub fn put_name(letter: u8, n: usize, out: &mut [u8], at: usize) -> usize
    requires { (n < 65536) × (at + 11 < 2 ^ 64) }
    ensures { Wrote out.old at (letter ∷ decimal n) out.new result × (result ≤ at + 11) }
{
    let a = write::fit_byte(letter, out, at);
    write::fit_decimal(n as u32, out, a)
}
