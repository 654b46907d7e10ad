// The word that an operator pushes, as a term over the variables of the words that it pops.
ghost use Rattle.std.specs.Prelude.{◌≡◌, ◌+◌, ◌≤◌, ◌<◌, ◌^◌};
ghost use Rattle.expr.specs.declared.token.Token.TheVariants.{Un, Bin, Ite};
ghost use Rattle.write.specs.Splice.{Wrote};
ghost use Rattle.write.specs.Ascii.{ascii};
ghost use Rattle.script.specs.Script.{token_term};
ghost use Rattle.script.specs.ScriptText.{term_text};
ghost use Rattle.script.specs.Shown.{unary_front, unary_back, binary_front, binary_back};

use super::text;
use super::text::SLOT;
use expr::word::{Binary, Unary};

// What stands in front of an operator's first variable, and behind its last one.
fn unary_front(o: Unary) -> &'static [u8]
    ensures { result.now ≡ ascii (unary_front o) }
{
    match o {
        Unary::Not => b"(bvnot ",
        Unary::Neg => b"(bvneg ",
        Unary::Zero => b"(ite (= ",
    }
}

fn unary_back(o: Unary) -> &'static [u8]
    ensures { result.now ≡ ascii (unary_back o) }
{
    match o {
        Unary::Not | Unary::Neg => b")",
        Unary::Zero => b" #x00000000) #x00000001 #x00000000)",
    }
}

fn binary_front(o: Binary) -> &'static [u8]
    ensures { result.now ≡ ascii (binary_front o) }
{
    match o {
        Binary::Add => b"(bvadd ",
        Binary::Sub => b"(bvsub ",
        Binary::Mul => b"(bvmul ",
        Binary::Udiv => b"(bvudiv ",
        Binary::Urem => b"(bvurem ",
        Binary::And => b"(bvand ",
        Binary::Or => b"(bvor ",
        Binary::Xor => b"(bvxor ",
        Binary::Shl => b"(bvshl ",
        Binary::Lshr => b"(bvlshr ",
        Binary::Equal => b"(ite (= ",
        Binary::Ult => b"(ite (bvult ",
        Binary::Slt => b"(ite (bvslt ",
        Binary::Ule => b"(ite (bvule ",
    }
}

fn binary_back(o: Binary) -> &'static [u8]
    ensures { result.now ≡ ascii (binary_back o) }
{
    match o {
        Binary::Equal | Binary::Ult | Binary::Slt | Binary::Ule => b") #x00000001 #x00000000)",
        _ => b")",
    }
}

// The word that an operator pushes onto k words.
#[tactic(auto, using(crate::proofs::Operators::unary_ahead, crate::proofs::Operators::unary_behind))]
pub fn put_unary(o: Unary, k: usize, out: &mut [u8], at: usize) -> usize
    requires { (k < 17) × (at + 61 < 2 ^ 64) }
    ensures { Wrote out.old at (term_text (token_term k (Un o))) out.new result × (result ≤ at + 61) }
{
    let a = write::fit_part(unary_front(o), out, at);
    let b = text::put_name(SLOT, k, out, a);
    write::fit_part(unary_back(o), out, b)
}

#[tactic(auto, using(crate::proofs::Operators::binary_ahead, crate::proofs::Operators::binary_behind))]
pub fn put_binary(o: Binary, k: usize, out: &mut [u8], at: usize) -> usize
    requires { (k < 17) × (at + 62 < 2 ^ 64) }
    ensures { Wrote out.old at (term_text (token_term k (Bin o))) out.new result × (result ≤ at + 62) }
{
    let a = write::fit_part(binary_front(o), out, at);
    let b = text::put_name(SLOT, k, out, a);
    let c = write::fit_byte(b' ', out, b);
    let d = text::put_name(SLOT, k + 1, out, c);
    write::fit_part(binary_back(o), out, d)
}

pub fn put_ite(k: usize, out: &mut [u8], at: usize) -> usize
    requires { (k < 17) × (at + 63 < 2 ^ 64) }
    ensures { Wrote out.old at (term_text (token_term k Ite)) out.new result × (result ≤ at + 63) }
{
    let a = write::fit_part(b"(ite (distinct ", out, at);
    let b = text::put_name(SLOT, k, out, a);
    let c = write::fit_part(b" #x00000000) ", out, b);
    let d = text::put_name(SLOT, k + 1, out, c);
    let e = write::fit_byte(b' ', out, d);
    let f = text::put_name(SLOT, k + 2, out, e);
    write::fit_byte(b')', out, f)
}
