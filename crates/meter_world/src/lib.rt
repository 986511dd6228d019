//! What a meter tells of a run: stacks, breaks, and memory.
//!
//! What may stand here: the steps of a run, what they ask of memory, how deep stacks and how high breaks came along them, and laws of
//! these. What may not: any code that runs a program, and how a meter is told as text.
#![tactic(auto)]

mod laws;

pub use laws::meter_law;
