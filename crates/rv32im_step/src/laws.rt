//! Laws over the definitions. They hold for all registers and memories, and no code runs.

ghost use Rattle.rv32im_step.specs.Laws.{BytesRemain, UnwritableRemains};

/// What an instruction that is carried out leaves as it was.
pub fn bytes_law()
    ensures there { BytesRemain }
    ensures unwritable { UnwritableRemains }
{}
