//! What was noted first at each address.

ghost use Rattle.std.specs.Prelude.{◌≡◌, ℕ, ◌<◌, ◌≤◌, ◌==◌, ◌++◌, [], ◌∷◌, length, slice_index_or, if◌then◌else◌, true, None, Some, IfOk, OnOk};
ghost use Rattle.std.specs.Option.{option_or};
ghost use Rattle.psabi_relocs.specs.Firsts.{first_at, head_at, IsAround};

use crate::marks::Marks;
use std::alloc::AllocError;
use std::marker::Model;

/// By address, what was noted there first. Contracts see the pairs of an address and what was noted.
#[derive(Drop)]
pub struct Firsts<T> {
    notes: Vec<(u32, T)>,
    /// Where to look for an address.
    marks: Marks,
}

impl<T> Model for Firsts<T> {
    ghost use Rattle.std.specs.Prelude.{ℕ, List};
    ghost use Rattle.std.specs.List.Sorted.{IsNonDecreasingBy};

    ghost Value = { List (ℕ × T) };

    ghost view = { λ s. s.notes.items };

    ghost invariant = { λ s. IsNonDecreasingBy (λ n. n.0) s.notes.items };
}

/// Notes something at an address, behind what was noted so far.
pub fn note<T: Copy>(notes: &mut Vec<(u32, T)>, address: u32, what: T) -> Result<(), AllocError>
    ensures { OnOk result ((q : ℕ) →
        first_at notes.new.items q ≡ option_or (first_at notes.old.items q) (if address == q then Some what else None)) }
{
    notes.push((address, what))?;
    Ok(())
}

/// What the first note says, if it is at the address.
fn head_at<T: Copy>(notes: &[(u32, T)], address: u32) -> Option<T>
    ensures { result ≡ head_at notes.now address }
{
    match notes {
        [(at, what), ..] if *at == address => Some(*what),
        _ => None,
    }
}

/// Whether the notes before `from` are below the address, and those from `to` on aren't. The addresses ascend.
fn is_around<T: Copy>(notes: &[(u32, T)], from: usize, to: usize, address: u32) -> bool
    ensures { result ≡ true → IsAround notes.now from to address }
{
    from <= to
        && to <= notes.len()
        && (from == 0 || notes[from - 1].0 < address)
        && (to == notes.len() || address <= notes[to].0)
}

impl<T: Copy> Firsts<T> {
    /// What was noted first at each address. Notes at one address keep their order; where all ascend, nothing is sorted.
    pub fn of(mut notes: Vec<(u32, T)>) -> Result<Firsts<T>, AllocError>
        ensures { IfOk result (λ firsts. (q : ℕ) → first_at firsts q ≡ first_at notes.items q) }
    {
        if !notes.is_sorted_by_key(|note| note.0) {
            notes.sort_by_key(|note| note.0)?;
        }
        let marks = Marks::of(*notes.allocator(), &notes)?;
        Ok(Firsts { notes, marks })
    }

    /// Numbers of notes between which the first one is that isn't below the address: those that the marks say, if they are
    /// right, and else all.
    fn around(&self, address: u32) -> (usize, usize)
        ensures { IsAround self.now result.0 result.1 address }
    {
        let (from, to) = self.marks.around(address);
        if is_around(&self.notes, from, to, address) {
            (from, to)
        } else {
            (0, self.notes.len())
        }
    }

    /// What was noted first at the address. The time is at most the logarithm of the number of notes; where addresses lie
    /// evenly, it doesn't depend on it.
    pub fn get(&self, address: u32) -> Option<T>
        ensures { result ≡ first_at self.now address }
    {
        let (from, to) = self.around(address);
        let (_, behind) = self.notes.split_at(from);
        let (near, _) = behind.split_at(to - from);
        let below = near.partition_point(|note| note.0 < address);
        head_at(behind.split_at(below).1, address)
    }
}
