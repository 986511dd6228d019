//! A file that is written section by section.

ghost use Rattle.std.specs.Prelude.{◌≡◌, ◌+◌, ◌^◌, ◌<◌, [], ◌∷◌, ◌++◌, length, IfOk, OnOk};
ghost use Rattle.std.specs.List.{flat_map};
ghost use Rattle.elf_maker.specs.Spelling.{header_text, section_text, file_text, null_section, placed, Adds};

use crate::numbers::{push_halves, push_words};
use elf32_reader::Section;
use std::alloc::{AllocError, Global};

/// The bytes of a file header.
const HEADER_LEN: u32 = 52;
/// The bytes of a section header, e_shentsize.
const SECTION_HEADER_LEN: u16 = 40;
/// e_ident: the magic number, ELFCLASS32, ELFDATA2LSB and EV_CURRENT.
const IDENT: [u8; 16] = [0x7f, b'E', b'L', b'F', 1, 1, 1, 0, 0, 0, 0, 0, 0, 0, 0, 0];

const ET_EXEC: u16 = 2;

const EM_RISCV: u16 = 243;

const EV_CURRENT: u32 = 1;

/// The sections so far. Their contents stand one after the other behind the file header.
#[derive(Drop)]
pub struct Writer {
    sections: Vec<Section>,
    body: Vec<u8>,
}

impl Writer {
    /// A file with section 0 alone.
    pub fn new(alloc: Global) -> Result<Writer, AllocError>
        ensures sections { IfOk result (λ writer. writer.sections.items ≡ null_section ∷ []) }
        ensures body { IfOk result (λ writer. writer.body.items ≡ []) }
    {
        let mut sections = Vec::new(alloc);
        sections.push(Section {
            name: 0,
            kind: 0,
            flags: 0,
            addr: 0,
            offset: 0,
            size: 0,
            link: 0,
            info: 0,
            addralign: 0,
            entsize: 0,
        })?;
        Ok(Writer {
            sections,
            body: Vec::new(alloc),
        })
    }

    /// Adds a section, whose offset becomes that of its content.
    pub fn push(&mut self, section: Section, content: &[u8]) -> Result<(), AllocError>
        requires { length self.old.body.items < 2 ^ 31 }
        ensures { OnOk result (Adds self.old self.new (record { header = section; bytes = content.now } ∷ [])) }
    {
        let offset = HEADER_LEN + self.body.len() as u32;
        self.sections.push(Section { offset, ..section })?;
        self.body.extend_from_slice(content)?;
        Ok(())
    }

    /// The bytes of the file, with the section headers at the end.
    #[tactic(auto, unfolding(crate::specs::Spelling::file_text))]
    pub fn finish(&self, alloc: Global, entry: u32) -> Result<Vec<u8>, AllocError>
        requires count { length self.now.sections.items < 2 ^ 16 }
        requires body { length self.now.body.items < 2 ^ 31 }
        ensures { IfOk result (λ file. file.items ≡ file_text entry self.now.sections.items self.now.body.items) }
    {
        let table = HEADER_LEN + self.body.len() as u32;
        let mut out = Vec::new(alloc);
        push_header(&mut out, entry, table, self.sections.len() as u16)?;
        out.extend_from_slice(&self.body)?;
        push_sections(&mut out, &self.sections)?;
        Ok(out)
    }
}

/// The file header, with the offset of the section headers and their count.
#[tactic(auto, unfolding(crate::specs::Spelling::header_text))]
fn push_header(out: &mut Vec<u8>, entry: u32, table: u32, count: u16) -> Result<(), AllocError>
    ensures { OnOk result (out.new.items ≡ out.old.items ++ header_text entry table count) }
{
    out.extend_from_slice(&IDENT)?;
    push_halves(out, &[ET_EXEC, EM_RISCV])?;
    push_words(out, &[EV_CURRENT, entry, 0, table, 0])?;
    push_halves(
        out,
        &[HEADER_LEN as u16, 0, 0, SECTION_HEADER_LEN, count, 0],
    )
}

fn push_sections(out: &mut Vec<u8>, sections: &[Section]) -> Result<(), AllocError>
    ensures { OnOk result (out.new.items ≡ out.old.items ++ flat_map section_text sections.now) }
{
    for section in sections {
        push_section(out, section)?;
    }
    Ok(())
}

#[tactic(auto, unfolding(crate::specs::Spelling::section_text))]
fn push_section(out: &mut Vec<u8>, section: &Section) -> Result<(), AllocError>
    ensures { OnOk result (out.new.items ≡ out.old.items ++ section_text section.now) }
{
    push_words(
        out,
        &[
            section.name,
            section.kind,
            section.flags,
            section.addr,
            section.offset,
            section.size,
            section.link,
            section.info,
            section.addralign,
            section.entsize,
        ],
    )
}
