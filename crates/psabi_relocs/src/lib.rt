//! What the relocations mean that a linker has kept: the classes of symbols, the rows of the RISC-V psABI's
//! table, how entries belong together, and each entry's effect on an image or its first fault.
//!
//! What may not stand here: the flat format, an order of faults between entries, or any output.
#![tactic(auto)]

mod around;
mod bytes;
mod class;
mod effect;
mod fault;
mod field;
mod firsts;
mod group;
mod high;
mod judged;
mod judgement;
mod kept;
mod laws;
mod marks;
mod meant;
mod names;
mod pairs;
mod reloc;
mod row;
mod shape;
mod slot;
mod spans;
mod stored;
mod types;

pub use around::Around;
pub use class::{Class, class_of};
pub use effect::Effect;
pub use fault::RelocFault;
pub use judgement::{Checked, check, spans_at};
pub use laws::differences_law;
pub use meant::{Meant, meant_by};
pub use names::kind_name;
pub use pairs::Pairs;
pub use reloc::{Reloc, reloc_at};
pub use row::{Row, Shape, Step, Width};
pub use spans::{Span, Spans};
pub use stored::StoredSections;
