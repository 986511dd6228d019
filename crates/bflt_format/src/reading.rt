//! Reading a flat file.

ghost use Rattle.std.specs.Prelude.{◌≡◌, ◌-◌, ◌⊎◌, Some, None, take, drop, MatchResult};
ghost use Rattle.bflt_format.specs.Header.{data_end, flat_values};
ghost use Rattle.bflt_format.specs.Fault.{IsHeader, flat_fault};

use crate::fault::FlatFault;
use crate::flat::Flat;
use crate::header::{
    BSS_END, DATA_END, DATA_START, ENTRY, FLAGS, LEN, STACK_SIZE, header_fault_of,
};
use crate::records::{record_fault_of, records_of};
use byte_words::big_word;
use std::alloc::Global;

impl Flat {
    /// Reads a flat file, or says its first fault. The records may stand in any order, and keep it;
    /// bytes between the data and the records and behind the records, the build date and the
    /// fillers are not looked at.
    #[tactic(auto, using(crate::proofs::Headers::is_header), unfolding(crate::specs::Fault::flat_fault, crate::specs::Header::flat_values))]
    pub fn read(alloc: Global, bytes: &[u8]) -> Result<Flat, FlatFault>
        ensures { MatchResult result
            (λ flat. (flat_fault bytes.now ≡ None) × (flat ≡ flat_values bytes.now))
            (λ fault. (fault ≡ FlatFault.Memory) ⊎ (flat_fault bytes.now ≡ Some fault)) }
    {
        if let Some(fault) = header_fault_of(bytes) {
            return Err(fault);
        }
        let data_start = big_word(bytes, DATA_START);
        let data_end = big_word(bytes, DATA_END);
        let bss_end = big_word(bytes, BSS_END);
        let records = records_of(alloc, bytes)?;
        let body = &bytes[LEN as usize..data_end as usize];
        if let Some(fault) = record_fault_of(alloc, bss_end - LEN, body, &records)? {
            return Err(fault);
        }
        Ok(Flat {
            entry: big_word(bytes, ENTRY),
            text: data_start - LEN,
            data_len: data_end - data_start,
            bss: bss_end - data_end,
            stack: big_word(bytes, STACK_SIZE),
            flags: big_word(bytes, FLAGS),
            file: Vec::from_slice(alloc, &bytes[..data_end as usize])?,
            records,
        })
    }
}
