//! One RV32IM instruction over the registers and a bus.
//!
//! Here stands what one instruction does, and what it asks of memory. No system calls, no processes, and
//! no memory but the plain one of `ByteBus`.
#![tactic(auto)]

mod bus;
mod byte_bus;
mod hart;
mod integer;
mod laws;
mod memory;
mod multiply;
mod regs;
mod stop;
mod transfer;

pub use bus::Bus;
pub use byte_bus::{ByteBus, step_in};
pub use byte_words::{Access, AccessKind};
pub use hart::{step, step_at};
pub use laws::bytes_law;
pub use regs::{RegisterFile, Regs};
pub use stop::Stop;
