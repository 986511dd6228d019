//! Groups: the entries that change one number, counted.

ghost use Rattle.std.specs.Prelude.{◌≡◌, ◌+◌, ◌^◌, ◌<◌, if◌then◌else◌};
ghost use Rattle.psabi_relocs.specs.declared.row.Row.TheVariants.{Group};
ghost use Rattle.psabi_relocs.specs.declared.row.Width.{Width};
ghost use Rattle.psabi_relocs.specs.Row.{is_same};
ghost use Rattle.psabi_relocs.specs.Group.{no_sum, stepped, row_step};
ghost use Rattle.psabi_relocs.specs.Sums.{no_sums, sum_of};

use crate::row::{Step, Width};

/// How many moving symbols a group adds and subtracts.
#[derive(Clone, Copy)]
pub struct Sum {
    pub plus: u32,
    pub minus: u32,
}

/// The sums of the groups at one place, one for each width.
#[derive(Clone, Copy)]
pub struct Sums {
    pub bits8: Sum,
    pub bits16: Sum,
    pub bits32: Sum,
    pub bits6: Sum,
    pub uleb128: Sum,
}

impl Sum {
    /// The sum of no entries.
    fn none() -> Sum
        ensures { result ≡ no_sum }
    {
        Sum { plus: 0, minus: 0 }
    }

    /// The sum after a step with a symbol. A set forgets what was before.
    fn stepped(self, step: Step, moves: bool) -> Sum
        requires plus { self.plus + 1 < 2 ^ 32 }
        requires minus { self.minus + 1 < 2 ^ 32 }
        ensures { result ≡ stepped step moves self }
    {
        let Sum { plus, minus } = self;
        let count = u32::from(moves);
        match step {
            Step::Add => Sum {
                plus: plus + count,
                minus,
            },
            Step::Sub => Sum {
                plus,
                minus: minus + count,
            },
            Step::Set => Sum {
                plus: count,
                minus: 0,
            },
        }
    }
}

impl Sums {
    /// The sums of no entries.
    pub fn none() -> Sums
        ensures { result ≡ no_sums }
    {
        Sums {
            bits8: Sum::none(),
            bits16: Sum::none(),
            bits32: Sum::none(),
            bits6: Sum::none(),
            uleb128: Sum::none(),
        }
    }

    /// The sum of one width.
    pub fn sum(&self, width: Width) -> Sum
        ensures { result ≡ sum_of width self.now }
    {
        match width {
            Width::Bits8 => self.bits8,
            Width::Bits16 => self.bits16,
            Width::Bits32 => self.bits32,
            Width::Bits6 => self.bits6,
            Width::Uleb128 => self.uleb128,
        }
    }

    /// The sums with another one of one width.
    fn with(self, width: Width, sum: Sum) -> Sums
        ensures { (other : Width) → sum_of other result ≡ (if is_same width other then sum else sum_of other self) }
    {
        match width {
            Width::Bits8 => Sums { bits8: sum, ..self },
            Width::Bits16 => Sums {
                bits16: sum,
                ..self
            },
            Width::Bits32 => Sums {
                bits32: sum,
                ..self
            },
            Width::Bits6 => Sums { bits6: sum, ..self },
            Width::Uleb128 => Sums {
                uleb128: sum,
                ..self
            },
        }
    }

    /// The sums after an entry's step with its symbol.
    pub fn stepped(self, width: Width, step: Step, moves: bool) -> Sums
        requires plus { (sum_of width self).plus + 1 < 2 ^ 32 }
        requires minus { (sum_of width self).minus + 1 < 2 ^ 32 }
        ensures { (other : Width) → sum_of other result ≡ row_step other (Group width step) moves (sum_of other self) }
    {
        self.with(width, self.sum(width).stepped(step, moves))
    }
}
