//! How many faults there are of each symbol.

ghost use Rattle.std.specs.Prelude.{◌≡◌, ℕ, ◌+◌, ◌^◌, ◌<◌, ◌≤◌, ◌==◌, not, map, length, count_by, IfOk, OnOk};
ghost use Rattle.std.specs.List.{AllByRecursion, list_any};
ghost use Rattle.std.specs.List.Sorted.{IsNonDecreasingBy, IsPermutation, IsStableByKey};
ghost use Rattle.std.specs.Ordering.{nat_cmp};
ghost use Rattle.fault_texts.specs.Counts.{order_of, each_once, count_in, by_count, counts_of, counts_before};

use std::alloc::{AllocError, Global};

/// How many numbers a word has.
const WORDS: u128 = 1 << 32;

/// A symbol of a table, or none where its index is 0, and a section.
#[derive(Clone, Copy)]
pub struct Subject {
    pub section: u32,
    pub table: u32,
    pub symbol: u32,
}

/// How many faults a subject has.
#[derive(Clone, Copy)]
pub struct Count {
    pub subject: Subject,
    pub count: u64,
}

impl Subject {
    /// A number by which subjects ascend: by section, table and symbol.
    fn order(&self) -> u128
        ensures { result ≡ order_of self.now }
    {
        (u128::from(self.section) * WORDS + u128::from(self.table)) * WORDS
            + u128::from(self.symbol)
    }
}

/// How often a subject is among ascending ones.
fn count_among(subjects: &[Subject], subject: Subject) -> u64
    requires { IsNonDecreasingBy order_of subjects.now }
    ensures { result ≡ count_by (λ other. order_of other == order_of subject) subjects.now }
{
    let order = subject.order();
    let from = subjects.partition_point(|other| other.order() < order);
    let to = subjects.partition_point(|other| other.order() <= order);
    (to - from) as u64
}

/// Whether a subject isn't among those before it. They ascend.
fn is_new(before: &[Subject], subject: Subject) -> bool
    requires ascending { IsNonDecreasingBy order_of before.now }
    requires subject { AllByRecursion (λ other. order_of other ≤ order_of subject) before.now }
    ensures { result ≡ not (list_any (λ other. order_of other == order_of subject) before.now) }
{
    match before.last() {
        Some(last) => last.order() != subject.order(),
        None => true,
    }
}

/// Adds one of ascending subjects with how often it is among them, if it isn't among those before it.
fn add_subject(
    counts: &mut Vec<Count>,
    subjects: &[Subject],
    index: usize,
) -> Result<(), AllocError>
    requires ascending { IsNonDecreasingBy order_of subjects.now }
    requires index { index < length subjects.now }
    ensures { OnOk result (counts.old.items ≡ counts_before subjects.now index → counts.new.items ≡ counts_before subjects.now (index + 1)) }
{
    let subject = subjects[index];
    if is_new(subjects.split_at(index).0, subject) {
        counts.push(Count {
            subject,
            count: count_among(subjects, subject),
        })?;
    }
    Ok(())
}

/// Each of ascending subjects once, with how often it is among them.
fn counts_along(alloc: Global, subjects: &[Subject]) -> Result<Vec<Count>, AllocError>
    requires { IsNonDecreasingBy order_of subjects.now }
    ensures { IfOk result (λ counts. counts.items ≡ map (count_in subjects.now) (each_once subjects.now)) }
{
    let mut counts = Vec::with_capacity(alloc, subjects.len())?;
    for index in 0..subjects.len() {
        add_subject(&mut counts, subjects, index)?;
    }
    Ok(counts)
}

/// Subjects in ascending order.
fn ascending(mut subjects: Vec<Subject>) -> Result<Vec<Subject>, AllocError>
    ensures ascending { IfOk result (λ sorted. IsNonDecreasingBy order_of sorted.items) }
    ensures same { IfOk result (λ sorted. IsPermutation subjects.items sorted.items) }
    ensures stable { IfOk result (λ sorted. IsStableByKey order_of nat_cmp subjects.items sorted.items) }
{
    subjects.sort_by_key(|subject| subject.order())?;
    Ok(subjects)
}

/// Counts by descending number; those of one number stay in their order.
fn by_count(mut counts: Vec<Count>) -> Result<Vec<Count>, AllocError>
    ensures { IfOk result (λ sorted. (n : ℕ) → n < 2 ^ 64 → AllByRecursion (λ count. count.count ≤ n) counts.items → sorted.items ≡ by_count n counts.items) }
{
    counts.sort_by_key(|count| u64::MAX - count.count)?;
    Ok(counts)
}

/// Each of the subjects once, with how often it is among them: by descending number, and then by section, table and symbol.
#[tactic(auto, unfolding(crate::specs::Counts::counts_of))]
pub fn counts_of(alloc: Global, subjects: Vec<Subject>) -> Result<Vec<Count>, AllocError>
    ensures { IfOk result (λ counts. counts.items ≡ counts_of subjects.items) }
{
    let sorted = ascending(subjects)?;
    let counts = counts_along(alloc, &sorted)?;
    let listed = by_count(counts)?;
    Ok(listed)
}
