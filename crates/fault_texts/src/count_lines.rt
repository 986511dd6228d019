//! The lines of counts by place and by symbol.

ghost use Rattle.std.specs.Prelude.{◌≡◌, ◌++◌, IfOk};
ghost use Rattle.std.specs.List.{flat_map};
ghost use Rattle.fault_texts.specs.InFile.{IsSubject, AreCounted};
ghost use Rattle.fault_texts.specs.Listing.{in_line, to_line};

use crate::counts::Count;
use crate::lines::push_number;
use crate::symbols::{push_home, push_section, push_symbol};
use elf32_reader::Elf;
use std::alloc::AllocError;

/// The line of a symbol around places of a section.
fn push_in_line(text: &mut Vec<u8>, elf: &Elf<'_>, count: Count) -> Result<(), AllocError>
    requires { IsSubject elf.now count.subject }
    ensures { IfOk result (λ _. text.new.items ≡ text.old.items ++ in_line elf.now count) }
{
    let subject = count.subject;
    text.extend_from_slice(b"count in ")?;
    push_symbol(text, elf, subject.table, subject.symbol)?;
    text.extend_from_slice(b" of ")?;
    push_section(text, elf, subject.section)?;
    push_number(text, b" ", count.count)?;
    text.push(b'\n')?;
    Ok(())
}

/// The line of a symbol that is meant.
fn push_to_line(text: &mut Vec<u8>, elf: &Elf<'_>, count: Count) -> Result<(), AllocError>
    requires { IsSubject elf.now count.subject }
    ensures { IfOk result (λ _. text.new.items ≡ text.old.items ++ to_line elf.now count) }
{
    let subject = count.subject;
    text.extend_from_slice(b"count to ")?;
    push_symbol(text, elf, subject.table, subject.symbol)?;
    text.extend_from_slice(b" of ")?;
    push_home(text, elf, subject.table, subject.symbol)?;
    push_number(text, b" ", count.count)?;
    text.push(b'\n')?;
    Ok(())
}

/// The lines of symbols around places.
pub fn push_in_lines(text: &mut Vec<u8>, elf: &Elf<'_>, counts: &[Count]) -> Result<(), AllocError>
    requires { AreCounted elf.now counts.now }
    ensures { IfOk result (λ _. text.new.items ≡ text.old.items ++ flat_map (in_line elf.now) counts.now) }
{
    for count in counts {
        push_in_line(text, elf, *count)?;
    }
    Ok(())
}

/// The lines of symbols that are meant.
pub fn push_to_lines(text: &mut Vec<u8>, elf: &Elf<'_>, counts: &[Count]) -> Result<(), AllocError>
    requires { AreCounted elf.now counts.now }
    ensures { IfOk result (λ _. text.new.items ≡ text.old.items ++ flat_map (to_line elf.now) counts.now) }
{
    for count in counts {
        push_to_line(text, elf, *count)?;
    }
    Ok(())
}
