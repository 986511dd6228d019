//! Where an address may stand among ascending ones.

ghost use Rattle.std.specs.Prelude.{◌≡◌, length};

use std::alloc::{AllocError, Global};

/// A mark is set for so many addresses.
const PER_MARK: usize = 8;
/// The bits of an address.
const ADDRESS_BITS: u32 = 32;

/// Marks in equal distances, and how many addresses are below each. What they say is a guess: who looks up an address tests
/// it, and no clause rests on it.
#[derive(Drop)]
pub struct Marks {
    /// The first mark.
    first: u32,
    /// The distance of two marks is 2 to this power.
    shift: u32,
    /// By the number of a mark, how many addresses are below it.
    counts: Vec<u32>,
}

/// The power of 2 in whose steps at most `most` are in `span`.
fn shift_for(span: u32, most: usize) -> u32 {
    for shift in 0..ADDRESS_BITS {
        if span.wrapping_shr(shift) as usize <= most {
            return shift;
        }
    }
    ADDRESS_BITS - 1
}

/// Gives each mark at least the count of the one before it.
fn fill_up(counts: &mut [u32])
    ensures { length counts.new ≡ length counts.old }
{
    for mark in 1..counts.len() {
        counts[mark] = counts[mark].max(counts[mark - 1]);
    }
}

impl Marks {
    /// Marks for `addresses` addresses from `first` to `last`, none of which is counted.
    fn new(alloc: Global, first: u32, last: u32, addresses: usize) -> Result<Marks, AllocError> {
        let span = last.saturating_sub(first);
        let shift = shift_for(span, addresses / PER_MARK);
        let marks = span.wrapping_shr(shift) as usize + 2;
        let counts = vec![in alloc; 0; marks]?;
        Ok(Marks {
            first,
            shift,
            counts,
        })
    }

    /// The number of the last mark up to an address.
    fn number(&self, address: u32) -> u32 {
        address.wrapping_sub(self.first).wrapping_shr(self.shift)
    }

    /// Counts an address as the last one below the mark behind it. `index` is its number among all.
    fn count(&mut self, address: u32, index: usize) {
        let behind = self.number(address) as usize + 1;
        if behind < self.counts.len() {
            self.counts[behind] = u32::try_from(index).unwrap_or(u32::MAX).saturating_add(1);
        }
    }

    /// How many addresses are below a mark, as far as it is known.
    fn below(&self, mark: usize) -> usize {
        match self.counts.get(mark) {
            Some(count) => *count as usize,
            None => 0,
        }
    }

    /// The marks of notes whose addresses ascend.
    pub fn of<T: Copy>(alloc: Global, notes: &[(u32, T)]) -> Result<Marks, AllocError> {
        let (first, last) = match notes {
            [first, .., last] => (first.0, last.0),
            _ => (0, 0),
        };
        let mut marks = Marks::new(alloc, first, last, notes.len())?;
        for index in 0..notes.len() {
            marks.count(notes[index].0, index);
        }
        fill_up(&mut marks.counts);
        Ok(marks)
    }

    /// The numbers between which the first note is that isn't below the address, as far as it is known.
    pub fn around(&self, address: u32) -> (usize, usize) {
        let mark = self.number(address) as usize;
        (self.below(mark), self.below(mark + 1))
    }
}
