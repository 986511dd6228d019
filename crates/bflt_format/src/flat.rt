//! A flat file's values.

ghost use Rattle.std.specs.Prelude.{◌≡◌, ◌+◌, ◌≤◌, length, Some, None};
ghost use Rattle.bflt_format.specs.Numbers.{big_at};
ghost use Rattle.bflt_format.specs.Values.{ram_values};
ghost use Rattle.bflt_format.specs.Spelling.{spell, Spells};
ghost use Rattle.bflt_format.specs.Header.{flat_values};
ghost use Rattle.bflt_format.specs.Flat.{behind_header};
ghost use Rattle.bflt_format.specs.Fault.{flat_fault};

use crate::header::LEN;
use byte_words::big_word;
use std::marker::Model;

/// What a flat file of version 4 says, with none of its faults.
#[derive(Drop)]
pub struct Flat {
    pub(crate) entry: u32,
    pub(crate) text: u32,
    pub(crate) data_len: u32,
    pub(crate) bss: u32,
    pub(crate) stack: u32,
    pub(crate) flags: u32,
    /// Room for the header, and behind it the bytes of text and data: so that the file can be written in this place.
    pub(crate) file: Vec<u8>,
    pub(crate) records: Vec<u32>,
}

impl Model for Flat {
    ghost use Rattle.bflt_format.specs.Values.{Values};
    ghost use Rattle.bflt_format.specs.Spelling.{Spells};

    ghost Value = { Values };

    ghost use Rattle.bflt_format.specs.Flat.{values_of};

    ghost view = { values_of };

    ghost invariant = { λ s. Spells (values_of s) };
}

impl Flat {
    /// The flat file of these values, with the flags 1 (RAM).
    ///
    /// `file` has 64 bytes of room for the header, and behind them the bytes of text and data. `entry` counts from its start,
    /// `records` from the first byte of text.
    pub fn of(
        entry: u32,
        text: u32,
        data_len: u32,
        bss: u32,
        stack: u32,
        file: Vec<u8>,
        records: Vec<u32>,
    ) -> Flat
        requires no_fault { flat_fault (spell (ram_values entry text data_len bss stack (behind_header file.items) records.items)) ≡ None }
        requires values { let f = ram_values entry text data_len bss stack (behind_header file.items) records.items in flat_values (spell f) ≡ f }
        ensures { result ≡ ram_values entry text data_len bss stack (behind_header file.items) records.items }
    {
        Flat {
            entry,
            text,
            data_len,
            bss,
            stack,
            flags: 1,
            file,
            records,
        }
    }

    /// Where the program starts, counted from the start of the file: the first byte of text is 64.
    pub fn entry(&self) -> u32
        ensures value { result ≡ self.now.entry }
        ensures spells { Spells self.now }
    {
        self.entry
    }

    /// The bytes of text; a multiple of 32.
    pub fn text(&self) -> u32
        ensures value { result ≡ self.now.text }
        ensures spells { Spells self.now }
    {
        self.text
    }

    /// The bytes of data.
    pub fn data_len(&self) -> u32
        ensures value { result ≡ self.now.data_len }
        ensures spells { Spells self.now }
    {
        self.data_len
    }

    /// The bytes of bss.
    pub fn bss(&self) -> u32
        ensures value { result ≡ self.now.bss }
        ensures spells { Spells self.now }
    {
        self.bss
    }

    /// The bytes of stack, as the header has them.
    pub fn stack(&self) -> u32
        ensures value { result ≡ self.now.stack }
        ensures spells { Spells self.now }
    {
        self.stack
    }

    /// 1 (RAM) or 17 (RAM and KTRACE).
    pub fn flags(&self) -> u32
        ensures value { result ≡ self.now.flags }
        ensures spells { Spells self.now }
    {
        self.flags
    }

    /// The bytes of text and data; the words at the records are big-endian.
    pub fn body(&self) -> &[u8]
        ensures value { result.now ≡ self.now.body }
        ensures spells { Spells self.now }
    {
        &self.file[LEN as usize..]
    }

    /// The places of the words that are relocated, counted from the start of the body, in the order
    /// of the file.
    pub fn records(&self) -> &[u32]
        ensures value { result.now ≡ self.now.records }
        ensures spells { Spells self.now }
    {
        &self.records
    }

    /// The big-endian word of text and data at a place, counted from the start of the body: at a
    /// record's place the number of its target.
    pub fn word_at(&self, place: u32) -> u32
        requires { place + 4 ≤ length self.now.body }
        ensures { result ≡ big_at self.now.body place }
    {
        big_word(self.body(), place as usize)
    }
}
