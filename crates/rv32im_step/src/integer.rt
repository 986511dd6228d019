//! The results of integer computations: RISC-V unprivileged ISA, RV32I, "Integer Computational
//! Instructions". Each works on two words.

ghost use Rattle.std.specs.Prelude.{◌≡◌, int_lt};
ghost use Rattle.rv32im_step.specs.Integer.{sub, slt, sltu, sll, srl, sra};
ghost use Rattle.rv32im_step.specs.Word.{signed};

#[inline]
#[tactic(auto, unfolding(crate::specs::Integer::sub))]
pub fn sub(a: u32, b: u32) -> u32
    ensures { result ≡ sub a b }
{
    a.wrapping_sub(b)
}

/// Whether the signed value of `a` is below that of `b`.
#[inline]
pub fn is_below(a: u32, b: u32) -> bool
    ensures { result ≡ int_lt (signed a) (signed b) }
{
    a.cast_signed() < b.cast_signed()
}

#[inline]
#[tactic(auto, unfolding(crate::specs::Integer::slt))]
pub fn slt(a: u32, b: u32) -> u32
    ensures { result ≡ slt a b }
{
    if is_below(a, b) { 1 } else { 0 }
}

#[inline]
#[tactic(auto, unfolding(crate::specs::Integer::sltu))]
pub fn sltu(a: u32, b: u32) -> u32
    ensures { result ≡ sltu a b }
{
    if a < b { 1 } else { 0 }
}

#[inline]
#[tactic(auto, unfolding(crate::specs::Integer::sll))]
pub fn sll(a: u32, b: u32) -> u32
    ensures { result ≡ sll a b }
{
    a.wrapping_shl(b)
}

#[inline]
#[tactic(auto, unfolding(crate::specs::Integer::srl))]
pub fn srl(a: u32, b: u32) -> u32
    ensures { result ≡ srl a b }
{
    a.wrapping_shr(b)
}

#[inline]
#[tactic(auto, unfolding(crate::specs::Integer::sra))]
pub fn sra(a: u32, b: u32) -> u32
    ensures { result ≡ sra a b }
{
    a.cast_signed().wrapping_shr(b).cast_unsigned()
}
