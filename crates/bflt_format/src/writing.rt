//! Writing a flat file.

ghost use Rattle.std.specs.Prelude.{◌≡◌, ◌+◌, ◌*◌, ◌≤◌, ◌++◌, length, drop, IfOk, OnOk};
ghost use Rattle.bflt_format.specs.Spelling.{spell, header_words, words_text};

use crate::flat::Flat;
use crate::header::{LEN, MAGIC, REVISION};
use byteorder::{BigEndian, ByteOrder};
use std::alloc::AllocError;

impl Flat {
    /// The bytes of the file: header, body, and the records right behind it. The build date and the
    /// fillers are 0.
    #[tactic(auto, unfolding(crate::specs::Spelling::spell))]
    pub fn write(&self) -> Result<Vec<u8>, AllocError>
        ensures { IfOk result (λ v. v.items ≡ spell self.now) }
    {
        let body = self.body();
        let len = LEN as usize + body.len() + 4 * self.records.len();
        let mut out = vec![in *self.file.allocator(); 0u8; len]?;
        fill(out.as_mut_slice(), &self.header(), body, &self.records);
        Ok(out)
    }

    /// The same bytes. Text and data stay where they are, so it takes memory for the records alone.
    #[tactic(auto, unfolding(crate::specs::Spelling::spell))]
    pub fn into_bytes(self) -> Result<Vec<u8>, AllocError>
        ensures { IfOk result (λ v. v.items ≡ spell self) }
    {
        let header = self.header();
        let Flat {
            mut file,
            records,
            ..
        } = self;
        put_header(&header, &mut file);
        push_words(&mut file, &records)?;
        Ok(file)
    }

    /// The sixteen words of the header that `write` writes.
    pub fn header(&self) -> [u32; 16]
        ensures { result ≡ header_words self.now }
    {
        let data_start = LEN + self.text;
        let data_end = data_start + self.data_len;
        let bss_end = data_end + self.bss;
        let count = self.records.len() as u32;
        [
            MAGIC, REVISION, self.entry, data_start, data_end, bss_end, self.stack, data_end,
            count, self.flags, 0, 0, 0, 0, 0, 0,
        ]
    }
}

/// Writes the three parts one after the other.
fn fill(out: &mut [u8], header: &[u32], body: &[u8], records: &[u32])
    requires { length out.old ≡ 4 * length header.now + length body.now + 4 * length records.now }
    ensures { out.new ≡ words_text header.now ++ (body.now ++ words_text records.now) }
{
    let (head, rest) = out.split_at_mut(4 * header.len());
    let (middle, tail) = rest.split_at_mut(body.len());
    BigEndian::write_u32_into(header, head);
    middle.copy_from_slice(body);
    BigEndian::write_u32_into(records, tail);
}

/// Writes the header into the room for it.
fn put_header(header: &[u32], file: &mut [u8])
    requires { 4 * length header.now ≤ length file.old }
    ensures { file.new ≡ words_text header.now ++ drop (4 * length header.now) file.old }
{
    let (front, _) = file.split_at_mut(4 * header.len());
    BigEndian::write_u32_into(header, front);
}

/// Writes words behind a file, as four bytes each, the highest first.
fn push_words(file: &mut Vec<u8>, words: &[u32]) -> Result<(), AllocError>
    ensures { OnOk result (file.new.items ≡ file.old.items ++ words_text words.now) }
{
    let end = file.len();
    file.resize(end + 4 * words.len(), 0)?;
    BigEndian::write_u32_into(words, &mut file[end..]);
    Ok(())
}
