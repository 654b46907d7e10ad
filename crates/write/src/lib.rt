// Numbers, a trace's tokens and headers, written into a lent buffer. Each writer gives the next place.
#![tactic(auto)]

ghost use Rattle.std.specs.Prelude.{[], ◌∷◌, ◌≡◌, ◌+◌, ◌^◌, ◌≤◌, ◌<◌, length, set};
ghost use Rattle.std.specs.Result.{IfErr};
ghost use Rattle.expr.specs.declared.File.TheVariants.{Trace};
ghost use Rattle.expr.specs.Number.{bytes_of};
ghost use Rattle.expr.specs.declared.token.Token.TheVariants.{Const, Symbol};
ghost use Rattle.expr.specs.Token.{token_bytes};
ghost use Rattle.file.specs.File.{head_size, inputs_limit, header_version, header_size, header_inputs, head_of, header};
ghost use Rattle.write.specs.Splice.{Wrote};
ghost use Rattle.write.specs.Decimal.{decimal};
ghost use Rattle.write.specs.Shown.{written, digit_count};

use expr::token;
use file::Refusal;

// The answer of a call that writes: a reply and its offset, and the length written.
#[derive(Clone, Copy)]
pub struct Written {
    pub reply: u32,
    pub offset: u32,
    pub length: u32,
}

impl Written {
    // From how writing went: so many bytes are written, or none, for a reason.
    pub fn of(how: Result<u32, Refusal>) -> Written
        requires { IfErr how (λ why. why.offset < 2 ^ 32) }
        ensures { result ≡ written how }
    {
        match how {
            Ok(length) => Written {
                reply: 0,
                offset: 0,
                length,
            },
            Err(why) => Written {
                reply: why.reason.into(),
                offset: why.offset as u32,
                length: 0,
            },
        }
    }
}

pub fn put_byte(b: u8, out: &mut [u8], at: usize) -> usize
    requires { at + 1 ≤ length out.old }
    ensures { Wrote out.old at (b ∷ []) out.new result }
{
    out[at] = b;
    at + 1
}

// The last two bytes of a number.
pub fn put_two(v: usize, out: &mut [u8], at: usize) -> usize
    requires { at + 2 ≤ length out.old }
    ensures { Wrote out.old at (bytes_of 2 v) out.new result }
{
    put_part(&((v % 65536) as u16).to_be_bytes(), out, at)
}

pub fn put_word(v: u32, out: &mut [u8], at: usize) -> usize
    requires { at + 4 ≤ length out.old }
    ensures { Wrote out.old at (bytes_of 4 v) out.new result }
{
    put_part(&v.to_be_bytes(), out, at)
}

pub fn put_constant(v: u32, out: &mut [u8], at: usize) -> usize
    requires { at + 5 ≤ length out.old }
    ensures { Wrote out.old at (token_bytes Trace (Const v)) out.new result }
{
    let to = put_byte(token::CONSTANT, out, at);
    put_word(v, out, to)
}

pub fn put_symbol(s: usize, out: &mut [u8], at: usize) -> usize
    requires { at + 3 ≤ length out.old }
    ensures { Wrote out.old at (token_bytes Trace (Symbol s)) out.new result }
{
    let to = put_byte(token::TRACE_SYMBOL, out, at);
    put_two(s, out, to)
}

// A file's header, from the buffer's first byte.
#[tactic(auto, unfolding(file::specs::File::head_size, file::specs::File::inputs_limit, file::specs::File::input_room))]
pub fn put_header(version: u8, total: usize, inputs: usize, n: usize, out: &mut [u8]) -> usize
    requires { (head_size version ≤ length out.old) × (inputs ≤ inputs_limit version) }
    ensures { Wrote out.old 0 (header (record { version = version; inputs = inputs }) total n) out.new result
        × (result ≡ head_size version) }
{
    let a = put_byte(version, out, 0);
    let b = put_two(total, out, a);
    let c = put_byte(inputs as u8, out, b);
    put_two(n, out, c)
}

// Another file's header, with a new length and count.
pub fn put_header_of(s: &[u8], total: usize, n: usize, out: &mut [u8]) -> usize
    requires { (header_size s.now ≤ length s.now) × (header_size s.now ≤ length out.old)
        × (header_inputs s.now ≤ inputs_limit (header_version s.now)) }
    ensures { Wrote out.old 0 (header (head_of s.now) total n) out.new result
        × (result ≡ header_size s.now) }
{
    put_header(file::version_of(s), total, file::inputs_of(s), n, out)
}

// The bytes of a part of another file. `copy_from_slice` looks whether the two overlap, which made scripts a seventh slower.
pub fn put_part(part: &[u8], out: &mut [u8], at: usize) -> usize
    requires { at + length part.now ≤ length out.old }
    ensures { Wrote out.old at part.now out.new result }
{
    for (i, b) in part.iter().enumerate() {
        out[at + i] = *b;
    }
    at + part.len()
}

// ---- writers that ask for no room: what does not fit is not stored, and the next place is counted all the same. So a text is measured by
// writing it into one byte.

// A byte, where there is a place for it. After a write through `get_mut` a proof would know no byte of the buffer.
pub fn store(b: u8, out: &mut [u8], at: usize)
    ensures { out.new ≡ set out.old at b }
{
    if at < out.len() {
        out[at] = b;
    }
}

pub fn fit_byte(b: u8, out: &mut [u8], at: usize) -> usize
    requires { at + 1 < 2 ^ 64 }
    ensures { Wrote out.old at (b ∷ []) out.new result }
{
    store(b, out, at);
    at + 1
}

// Byte after byte.
fn fit_each(part: &[u8], out: &mut [u8], at: usize) -> usize
    requires { at + length part.now < 2 ^ 64 }
    ensures { Wrote out.old at part.now out.new result }
{
    for (i, b) in part.iter().enumerate() {
        store(*b, out, at + i);
    }
    at + part.len()
}

// All of it at once, or none of it, where that is known from the start.
pub fn fit_part(part: &[u8], out: &mut [u8], at: usize) -> usize
    requires { at + length part.now < 2 ^ 64 }
    ensures { Wrote out.old at part.now out.new result }
{
    let end = at + part.len();
    if end <= out.len() {
        return put_part(part, out, at);
    }
    if out.len() <= at {
        return end;
    }
    fit_each(part, out, at)
}

// How many digits a number has: a division for each, and no range that a `for` could go over.
fn digits(v: u32) -> usize
    ensures { (result ≡ digit_count v) × (1 ≤ result) × (result ≤ 10) }
{
    let mut k: usize = 1;
    let mut rest = v / 10;
    while 0 < rest {
        rest /= 10;
        k += 1;
    }
    k
}

// Digit after digit, from the last one.
fn fit_digits(v: u32, out: &mut [u8], at: usize) -> usize
    requires { at + 10 < 2 ^ 64 }
    ensures { Wrote out.old at (decimal v) out.new result × (result ≤ at + 10) }
{
    let k = digits(v);
    let mut rest = v;
    for i in (0..k).rev() {
        store(48 + (rest % 10) as u8, out, at + i);
        rest /= 10;
    }
    at + k
}

pub fn fit_decimal(v: u32, out: &mut [u8], at: usize) -> usize
    requires { at + 10 < 2 ^ 64 }
    ensures { Wrote out.old at (decimal v) out.new result × (result ≤ at + 10) }
{
    if v < 10 {
        return fit_byte(48 + v as u8, out, at);
    }
    fit_digits(v, out, at)
}
