//! How far a program comes at a time.

/// How far the program came: behind so many events and items, or refuted behind so many events.
#[derive(Clone, Copy)]
pub(crate) enum Step {
    Goes { done: u32, used: usize },
    Refuted { done: u32 },
}
