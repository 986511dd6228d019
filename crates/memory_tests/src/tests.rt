//! One part of memory at a time, from free pages to a program that runs.

mod accesses;
mod bytes;
mod loads;
mod regions;
mod runs;
mod spaces;
