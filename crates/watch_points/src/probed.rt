//! A bus that keeps the last data access near what is watched.

ghost use Rattle.std.specs.Prelude.{◌≡◌, true};
ghost use Rattle.watch_points.specs.Points.{is_data};
ghost use Rattle.watch_points.specs.Near.{seen_one, seen_all, seen_on, end_one, end_all, end_on};

use crate::near::Near;
use rv32im_step::{Access, AccessKind, Bus};
use rv32im_table::Instr;

/// A bus over another one that keeps the last load or store that it carried out near what is watched, and then lets no more
/// instructions follow. Each answer and effect is the other one's.
#[derive(Drop)]
pub struct Probed<'a, B> {
    pub(crate) bus: &'a mut B,
    pub(crate) near: Near,
    pub(crate) seen: Option<Access>,
    /// How many instructions may be carried out in all: 0 from the first such access on, so that a loop asks one number alone.
    pub(crate) end: u32,
}

impl<B> Probed<'_, B> {
    /// Keeps a data access that was carried out near.
    #[inline]
    fn see(&mut self, access: Access, done: bool)
        requires data { is_data access.kind ≡ true }
        ensures { self.new ≡ record self.old {
          seen = seen_one self.old.near self.old.seen (record { access = access; done = done });
          end = end_one self.old.near self.old.end (record { access = access; done = done });
        } }
    {
        if done && self.near.has(access.addr) {
            self.seen = Some(access);
            self.end = 0;
        }
    }
}

impl<B: Bus> Bus for Probed<'_, B> {
    ghost use Rattle.std.specs.Prelude.{◌≡◌};
    ghost use Rattle.std.proofs.Common.{refl, ◌∙◌};

    ghost byte = { λ s. B.byte s.bus.now };

    ghost writable = { λ s. B.writable s.bus.now };

    ghost did = { λ s xs t. B.did s.bus.now xs t.bus.now × (t.bus.ghost_name ≡ s.bus.ghost_name) × (t.near ≡ s.near) × (t.seen ≡ seen_all s.near s.seen xs) × (t.end ≡ end_all s.near s.end xs) };

    ghost did_none = { λ a. (B.did_none a.bus.now, refl, refl, refl, refl) };

    ghost did_more = { λ a b c xs ys p q. (B.did_more a.bus.now b.bus.now c.bus.now xs ys p.0 q.0, q.1 ∙ p.1, q.2 ∙ p.2, seen_on a.near b.near a.seen b.seen c.seen xs ys p.2 p.3 q.3, end_on a.near b.near a.end b.end c.end xs ys p.2 p.4 q.4) };

    #[inline]
    fn fetch(&mut self, pc: u32) -> Result<u32, Access> {
        self.bus.fetch(pc)
    }

    #[inline]
    fn instr(&mut self, pc: u32) -> Result<Option<Instr>, Access> {
        self.bus.instr(pc)
    }

    #[inline]
    fn load(&mut self, pc: u32, addr: u32, len: u32) -> Result<u32, Access> {
        let answer = self.bus.load(pc, addr, len);
        self.see(
            Access {
                pc,
                addr,
                len,
                kind: AccessKind::Load,
            },
            answer.is_ok(),
        );
        answer
    }

    #[inline]
    fn store(&mut self, pc: u32, addr: u32, len: u32, value: u32) -> Result<(), Access> {
        let answer = self.bus.store(pc, addr, len, value);
        self.see(
            Access {
                pc,
                addr,
                len,
                kind: AccessKind::Store,
            },
            answer.is_ok(),
        );
        answer
    }
}
