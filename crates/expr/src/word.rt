// Arithmetic on 32-bit words: one function for each operator, and the operators by kind, each with the code that stands for it in a file.
#![tactic(auto, unfolding(crate::specs::Word::unary, crate::specs::Word::binary))]

ghost use Rattle.std.specs.Prelude.{◌≡◌};
ghost use Rattle.expr.specs.declared.word.Unary.TheVariants.{Not, Neg, Zero};
ghost use Rattle.expr.specs.declared.word.Binary.TheVariants.{Add, Sub, Mul, Udiv, Urem, And, Or, Xor, Shl, Lshr, Equal};
ghost use Rattle.expr.specs.Word.{unary, binary, choice};
ghost use Rattle.expr.specs.declared.word.Binary.TheVariants.{Ult, Ule, Slt};

#[derive(Clone, Copy)]
pub enum Unary {
    Not = 0x10,
    Neg = 0x11,
    Zero = 0x12,
}

#[derive(Clone, Copy)]
pub enum Binary {
    Add = 0x20,
    Sub = 0x21,
    Mul = 0x22,
    Udiv = 0x23,
    Urem = 0x24,
    And = 0x25,
    Or = 0x26,
    Xor = 0x27,
    Shl = 0x28,
    Lshr = 0x29,
    Equal = 0x2A,
    Ult = 0x2B,
    Slt = 0x2C,
    Ule = 0x2D,
}

impl Unary {
    pub fn of(self, a: u32) -> u32
        ensures { result ≡ unary 32 self a }
    {
        match self {
            Unary::Not => not(a),
            Unary::Neg => neg(a),
            Unary::Zero => zero(a),
        }
    }
}

impl Binary {
    // Of the left operand and the right one.
    pub fn of(self, a: u32, b: u32) -> u32
        ensures { result ≡ binary 32 self a b }
    {
        match self {
            Binary::Add => add(a, b),
            Binary::Sub => sub(a, b),
            Binary::Mul => mul(a, b),
            Binary::Udiv => udiv(a, b),
            Binary::Urem => urem(a, b),
            Binary::And => and(a, b),
            Binary::Or => or(a, b),
            Binary::Xor => xor(a, b),
            Binary::Shl => shl(a, b),
            Binary::Lshr => lshr(a, b),
            Binary::Equal => equal(a, b),
            Binary::Ult => ult(a, b),
            Binary::Slt => slt(a, b),
            Binary::Ule => ule(a, b),
        }
    }
}

pub fn not(a: u32) -> u32
    ensures { result ≡ unary 32 Not a }
{
    !a
}

pub fn neg(a: u32) -> u32
    ensures { result ≡ unary 32 Neg a }
{
    std::num::wrapping_sub_u32(0, a)
}

pub fn zero(a: u32) -> u32
    ensures { result ≡ unary 32 Zero a }
{
    if a == 0 { 1 } else { 0 }
}

pub fn add(a: u32, b: u32) -> u32
    ensures { result ≡ binary 32 Add a b }
{
    std::num::wrapping_add_u32(a, b)
}

pub fn sub(a: u32, b: u32) -> u32
    ensures { result ≡ binary 32 Sub a b }
{
    std::num::wrapping_sub_u32(a, b)
}

// The low half of the whole product.
pub fn mul(a: u32, b: u32) -> u32
    ensures { result ≡ binary 32 Mul a b }
{
    ((a as u64) * (b as u64) % 4294967296) as u32
}

pub fn udiv(a: u32, b: u32) -> u32
    ensures { result ≡ binary 32 Udiv a b }
{
    if b == 0 { 4294967295 } else { a / b }
}

pub fn urem(a: u32, b: u32) -> u32
    ensures { result ≡ binary 32 Urem a b }
{
    if b == 0 { a } else { a % b }
}

pub fn and(a: u32, b: u32) -> u32
    ensures { result ≡ binary 32 And a b }
{
    a & b
}

pub fn or(a: u32, b: u32) -> u32
    ensures { result ≡ binary 32 Or a b }
{
    a | b
}

pub fn xor(a: u32, b: u32) -> u32
    ensures { result ≡ binary 32 Xor a b }
{
    a ^ b
}

pub fn shl(a: u32, b: u32) -> u32
    ensures { result ≡ binary 32 Shl a b }
{
    if b < 32 { a << b } else { 0 }
}

pub fn lshr(a: u32, b: u32) -> u32
    ensures { result ≡ binary 32 Lshr a b }
{
    if b < 32 { a >> b } else { 0 }
}

pub fn equal(a: u32, b: u32) -> u32
    ensures { result ≡ binary 32 Equal a b }
{
    if a == b { 1 } else { 0 }
}

pub fn ult(a: u32, b: u32) -> u32
    ensures { result ≡ binary 32 Ult a b }
{
    if a < b { 1 } else { 0 }
}

pub fn ule(a: u32, b: u32) -> u32
    ensures { result ≡ binary 32 Ule a b }
{
    if a <= b { 1 } else { 0 }
}

// Raised by 2^31, signed words keep their order.
pub fn slt(a: u32, b: u32) -> u32
    ensures { result ≡ binary 32 Slt a b }
{
    let x = std::num::wrapping_add_u32(a, 2147483648);
    let y = std::num::wrapping_add_u32(b, 2147483648);
    if x < y { 1 } else { 0 }
}

pub fn ite(c: u32, a: u32, b: u32) -> u32
    ensures { result ≡ choice c a b }
{
    if c == 0 { b } else { a }
}
