//! The immediates of the five formats, read and replaced: RISC-V unprivileged ISA, "Immediate
//! Encoding Variants". All are the sign-extended 32-bit values.

ghost use Rattle.std.specs.Prelude.{◌≡◌, ◌^◌, ◌<◌};
ghost use Rattle.rv32im_table.specs.Immediate.{IsImmediate, cleared, sign_extended as extension};
ghost use Rattle.rv32im_table.specs.Immediate.{format_i, format_s, format_b, format_u, format_j};
ghost use Rattle.rv32im_table.specs.Immediate.{imm_i, imm_s, imm_b, imm_u, imm_j};
ghost use Rattle.rv32im_table.specs.Immediate.{put_i, put_s, put_b, put_u, put_j};

use crate::field::bits;

/// A number of 12 bits, its sign extended.
#[inline]
fn extended_12(n: u32) -> u32
    requires { n < 2 ^ 12 }
    ensures { result ≡ extension 12 n }
{
    if n < 0x800 { n } else { n + 0xffff_f000 }
}

/// The immediate of an I-type word, -2048 to 2047.
#[inline]
#[tactic(auto, unfolding(crate::specs::Immediate::imm_i))]
pub fn imm_i(w: u32) -> u32
    ensures value { result ≡ imm_i w }
    ensures immediate { IsImmediate format_i result }
{
    extended_12(bits(w, 20, 12))
}

/// The immediate of an S-type word, -2048 to 2047.
#[inline]
#[tactic(auto, unfolding(crate::specs::Immediate::imm_s))]
pub fn imm_s(w: u32) -> u32
    ensures value { result ≡ imm_s w }
    ensures immediate { IsImmediate format_s result }
{
    extended_12(bits(w, 7, 5) + (bits(w, 25, 7) << 5))
}

/// The distance of a B-type word, an even number from -4096 to 4094.
#[inline]
#[tactic(auto, unfolding(crate::specs::Immediate::imm_b))]
pub fn imm_b(w: u32) -> u32
    ensures value { result ≡ imm_b w }
    ensures immediate { IsImmediate format_b result }
{
    let low = (bits(w, 8, 4) << 1) + (bits(w, 25, 6) << 5) + (bits(w, 7, 1) << 11);
    if bits(w, 31, 1) == 0 {
        low
    } else {
        low + 0xffff_f000
    }
}

/// The upper 20 bits of a U-type word, the low 12 bits zero.
#[inline]
#[tactic(auto, unfolding(crate::specs::Immediate::imm_u))]
pub fn imm_u(w: u32) -> u32
    ensures value { result ≡ imm_u w }
    ensures immediate { IsImmediate format_u result }
{
    bits(w, 12, 20) << 12
}

/// The distance of a J-type word, an even number from -1,048,576 to 1,048,574.
#[inline]
#[tactic(auto, unfolding(crate::specs::Immediate::imm_j))]
pub fn imm_j(w: u32) -> u32
    ensures value { result ≡ imm_j w }
    ensures immediate { IsImmediate format_j result }
{
    let low = (bits(w, 21, 10) << 1) + (bits(w, 20, 1) << 11) + (bits(w, 12, 8) << 12);
    if bits(w, 31, 1) == 0 {
        low
    } else {
        low + 0xfff0_0000
    }
}

/// The word with its I immediate replaced by `v`, of which bits 11 to 0 count.
#[inline]
#[tactic(auto, unfolding(crate::specs::Immediate::put_i, crate::specs::Immediate::imm_i))]
pub fn set_i(w: u32, v: u32) -> u32
    ensures value { result ≡ put_i w v }
    ensures others { cleared format_i result ≡ cleared format_i w }
    ensures back { IsImmediate format_i v → imm_i result ≡ v }
{
    bits(w, 0, 20) + (bits(v, 0, 12) << 20)
}

/// The word with its S immediate replaced by `v`, of which bits 11 to 0 count.
#[inline]
#[tactic(auto, unfolding(crate::specs::Immediate::put_s, crate::specs::Immediate::imm_s))]
pub fn set_s(w: u32, v: u32) -> u32
    ensures value { result ≡ put_s w v }
    ensures others { cleared format_s result ≡ cleared format_s w }
    ensures back { IsImmediate format_s v → imm_s result ≡ v }
{
    bits(w, 0, 7) + (bits(w, 12, 13) << 12) + (bits(v, 0, 5) << 7) + (bits(v, 5, 7) << 25)
}

/// The word with its B immediate replaced by `v`, of which bits 12 to 1 count.
#[inline]
#[tactic(auto, unfolding(crate::specs::Immediate::put_b, crate::specs::Immediate::imm_b))]
pub fn set_b(w: u32, v: u32) -> u32
    ensures value { result ≡ put_b w v }
    ensures others { cleared format_b result ≡ cleared format_b w }
    ensures back { IsImmediate format_b v → imm_b result ≡ v }
{
    let rest = bits(w, 0, 7) + (bits(w, 12, 13) << 12);
    let low = (bits(v, 11, 1) << 7) + (bits(v, 1, 4) << 8);
    rest + low + (bits(v, 5, 6) << 25) + (bits(v, 12, 1) << 31)
}

/// The word with its U immediate replaced by `v`, of which bits 31 to 12 count.
#[inline]
#[tactic(auto, unfolding(crate::specs::Immediate::put_u, crate::specs::Immediate::imm_u))]
pub fn set_u(w: u32, v: u32) -> u32
    ensures value { result ≡ put_u w v }
    ensures others { cleared format_u result ≡ cleared format_u w }
    ensures back { IsImmediate format_u v → imm_u result ≡ v }
{
    bits(w, 0, 12) + (bits(v, 12, 20) << 12)
}

/// The word with its J immediate replaced by `v`, of which bits 20 to 1 count.
#[inline]
#[tactic(auto, unfolding(crate::specs::Immediate::put_j, crate::specs::Immediate::imm_j))]
pub fn set_j(w: u32, v: u32) -> u32
    ensures value { result ≡ put_j w v }
    ensures others { cleared format_j result ≡ cleared format_j w }
    ensures back { IsImmediate format_j v → imm_j result ≡ v }
{
    let low = bits(w, 0, 12) + (bits(v, 12, 8) << 12);
    low + (bits(v, 11, 1) << 20) + (bits(v, 1, 10) << 21) + (bits(v, 20, 1) << 31)
}
