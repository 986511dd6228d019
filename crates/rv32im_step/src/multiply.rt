//! The results of the M extension: RISC-V unprivileged ISA, '"M" Extension for Integer Multiplication and
//! Division'. Each works on two words.

ghost use Rattle.std.specs.Prelude.{◌≡◌};
ghost use Rattle.rv32im_step.specs.Multiply.{upper, mul, mulh, mulhsu, mulhu, div, divu, rem, remu};
ghost use Rattle.rv32im_step.specs.Word.{signed};

#[inline]
#[tactic(auto, unfolding(crate::specs::Multiply::mul))]
pub fn mul(a: u32, b: u32) -> u32
    ensures { result ≡ mul a b }
{
    a.wrapping_mul(b)
}

/// The signed value of a word.
#[inline]
fn value(a: u32) -> i64
    ensures { result ≡ signed a }
{
    i64::from(a.cast_signed())
}

/// The upper half of a product's 64 bits.
#[inline]
#[tactic(auto, using(crate::proofs::Products::upper_is))]
fn upper(product: i64) -> u32
    ensures { result ≡ upper product }
{
    (product.cast_unsigned() >> 32) as u32
}

#[inline]
#[tactic(auto, using(crate::proofs::Products::products), unfolding(crate::specs::Multiply::mulh))]
pub fn mulh(a: u32, b: u32) -> u32
    ensures { result ≡ mulh a b }
{
    upper(value(a) * value(b))
}

#[inline]
#[tactic(auto, using(crate::proofs::Products::products), unfolding(crate::specs::Multiply::mulhsu))]
pub fn mulhsu(a: u32, b: u32) -> u32
    ensures { result ≡ mulhsu a b }
{
    upper(value(a) * i64::from(b))
}

#[inline]
#[tactic(auto, unfolding(crate::specs::Multiply::mulhu))]
pub fn mulhu(a: u32, b: u32) -> u32
    ensures { result ≡ mulhu a b }
{
    ((u64::from(a) * u64::from(b)) >> 32) as u32
}

#[inline]
#[tactic(auto, unfolding(crate::specs::Multiply::div))]
pub fn div(a: u32, b: u32) -> u32
    ensures { result ≡ div a b }
{
    if b == 0 {
        u32::MAX
    } else {
        a.cast_signed()
            .wrapping_div(b.cast_signed())
            .cast_unsigned()
    }
}

#[inline]
#[tactic(auto, unfolding(crate::specs::Multiply::divu))]
pub fn divu(a: u32, b: u32) -> u32
    ensures { result ≡ divu a b }
{
    if b == 0 { u32::MAX } else { a / b }
}

#[inline]
#[tactic(auto, unfolding(crate::specs::Multiply::rem))]
pub fn rem(a: u32, b: u32) -> u32
    ensures { result ≡ rem a b }
{
    if b == 0 {
        a
    } else {
        a.cast_signed()
            .wrapping_rem(b.cast_signed())
            .cast_unsigned()
    }
}

#[inline]
#[tactic(auto, unfolding(crate::specs::Multiply::remu))]
pub fn remu(a: u32, b: u32) -> u32
    ensures { result ≡ remu a b }
{
    if b == 0 { a } else { a % b }
}
