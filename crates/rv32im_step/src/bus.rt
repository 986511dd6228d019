//! What a step asks of memory.

ghost use Rattle.std.specs.Prelude.{◌≡◌, ◌⊎◌, ℕ, ◌^◌, ◌<◌, Bool, List, [], ◌++◌, Err, Ok, IfOk, IfSome, MatchResult};
ghost use Rattle.rv32im_table.specs.Instr.{FieldsFit};
ghost use Rattle.rv32im_step.specs.Asked.{Asked, reads, writes};
ghost use Rattle.byte_words.specs.ByteMap.{Bytes};
ghost use Rattle.rv32im_step.specs.Memory.{fetch_of, load_of, store_of, loaded, stored};
ghost use Rattle.rv32im_step.specs.Meaning.{decoded_at};

use byte_words::Access;
use rv32im_table::Instr;

/// Memory as a step sees it: a map of bytes, some of which may be written. An access goes to all its
/// bytes at once, of any alignment, little-endian: RISC-V unprivileged ISA, "Memory" and "Load and Store
/// Instructions". It is refused exactly where one of its bytes isn't in the map, or is written and may
/// not be, or where its range passes 2^32. The last is a rule of this project: the ISA's address space
/// is circular.
///
/// `did` relates a bus to what it is after a list of accesses, which tells of each whether it was carried
/// out. A call makes the one access that it names, and no other, so a bus may count or watch them.
pub trait Bus {
    ghost byte: { Self → Bytes };

    ghost writable: { Self → ℕ → Bool };

    ghost did: { Self → List Asked → Self → Type 0 };

    /// The instruction word at `pc`.
    fn fetch(&mut self, pc: u32) -> Result<u32, Access>
        ensures answer { result ≡ loaded (byte self.old) (fetch_of pc) }
        ensures bytes { byte self.new ≡ byte self.old }
        ensures writable { writable self.new ≡ writable self.old }
        ensures did { did self.old (reads (byte self.old) (fetch_of pc)) self.new };

    /// The instruction at `pc`, fetched by one access as a word is. None where the word there is none.
    fn instr(&mut self, pc: u32) -> Result<Option<Instr>, Access>
        ensures answer { result ≡ decoded_at (byte self.old) (fetch_of pc) }
        ensures fields { IfOk result (λ instr. IfSome instr FieldsFit) }
        ensures bytes { byte self.new ≡ byte self.old }
        ensures writable { writable self.new ≡ writable self.old }
        ensures did { did self.old (reads (byte self.old) (fetch_of pc)) self.new };

    /// The number of `len` bytes from `addr` on, its sign not extended. `len` is 1, 2 or 4.
    fn load(&mut self, pc: u32, addr: u32, len: u32) -> Result<u32, Access>
        requires { (len ≡ 1) ⊎ (len ≡ 2) ⊎ (len ≡ 4) }
        ensures answer { result ≡ loaded (byte self.old) (load_of pc addr len) }
        ensures fits { IfOk result (λ n. n < 256 ^ len) }
        ensures bytes { byte self.new ≡ byte self.old }
        ensures writable { writable self.new ≡ writable self.old }
        ensures did { did self.old (reads (byte self.old) (load_of pc addr len)) self.new };

    /// Writes the lowest `len` bytes of `value` from `addr` on. `len` is 1, 2 or 4.
    fn store(&mut self, pc: u32, addr: u32, len: u32, value: u32) -> Result<(), Access>
        requires { (len ≡ 1) ⊎ (len ≡ 2) ⊎ (len ≡ 4) }
        ensures answer { MatchResult result
            (λ _. stored (byte self.old) (writable self.old) (store_of pc addr len) value ≡ Ok (byte self.new))
            (λ access. (stored (byte self.old) (writable self.old) (store_of pc addr len) value ≡ Err access)
            × (byte self.new ≡ byte self.old)) }
        ensures writable { writable self.new ≡ writable self.old }
        ensures did { did self.old (writes (byte self.old) (writable self.old) (store_of pc addr len) value) self.new };

    ghost did_none: { (a : Self) → did a [] a };

    ghost did_more: { (a b c : Self) (xs ys : List Asked) → did a xs b → did b ys c → did a (xs ++ ys) c };
}
