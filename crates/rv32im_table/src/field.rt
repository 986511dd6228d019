//! The fixed fields of an instruction word.

ghost use Rattle.std.specs.Prelude.{◌≡◌, ◌<◌};
ghost use Rattle.rv32im_table.specs.Field.{bits as bits_of, opcode, rd, funct3, rs1, rs2, shamt, funct7};

/// `width` bits of `n`, from bit `from` up.
#[inline]
pub fn bits(n: u32, from: u32, width: u32) -> u32
    requires from { from < 32 }
    requires width { width < 32 }
    ensures { result ≡ bits_of n from width }
{
    (n >> from) % (1 << width)
}

#[inline]
#[tactic(auto, unfolding(crate::specs::Field::opcode))]
pub fn opcode(word: u32) -> u32
    ensures { result ≡ opcode word }
{
    bits(word, 0, 7)
}

#[inline]
#[tactic(auto, unfolding(crate::specs::Field::rd))]
pub fn rd(word: u32) -> u8
    ensures value { result ≡ rd word }
    ensures fits { result < 32 }
{
    bits(word, 7, 5) as u8
}

#[inline]
#[tactic(auto, unfolding(crate::specs::Field::funct3))]
pub fn funct3(word: u32) -> u32
    ensures { result ≡ funct3 word }
{
    bits(word, 12, 3)
}

#[inline]
#[tactic(auto, unfolding(crate::specs::Field::rs1))]
pub fn rs1(word: u32) -> u8
    ensures value { result ≡ rs1 word }
    ensures fits { result < 32 }
{
    bits(word, 15, 5) as u8
}

#[inline]
#[tactic(auto, unfolding(crate::specs::Field::rs2))]
pub fn rs2(word: u32) -> u8
    ensures value { result ≡ rs2 word }
    ensures fits { result < 32 }
{
    bits(word, 20, 5) as u8
}

/// The amount of a shift by an immediate.
#[inline]
#[tactic(auto, unfolding(crate::specs::Field::shamt))]
pub fn shamt(word: u32) -> u32
    ensures value { result ≡ shamt word }
    ensures fits { result < 32 }
{
    bits(word, 20, 5)
}

#[inline]
#[tactic(auto, unfolding(crate::specs::Field::funct7))]
pub fn funct7(word: u32) -> u32
    ensures { result ≡ funct7 word }
{
    bits(word, 25, 7)
}
