//! A host in memory.
ghost use Rattle.std.specs.Prelude.{◌≡◌, ◌≤◌, ◌<◌, ◌⊎◌, [], map, length, vec_len, vec_capacity, string_bytes, option_map, IfOk, OnOk, OnErr};
ghost use Rattle.std.specs.FinMap as fin;
ghost use Rattle.host_io.specs.Calls.{no_calls, with_failing};
ghost use Rattle.host_io.specs.Faults.{HasCause};
ghost use Rattle.host_io.specs.Host.{LoadTold, StoreTold};
ghost use Rattle.host_io.specs.MemHost.{files_of, told_of, load_found, load_answer, store_answer, after_load, after_store};
ghost use Rattle.host_io.specs.declared.host.Loaded.{Loaded};
ghost use Rattle.host_io.specs.declared.host.HostError.TheVariants as answer;

use crate::calls::Calls;
use crate::host::{Host, HostError, Loaded};
use std::alloc::{AllocError, Global};
use std::collections::BTreeMap;
use std::marker::Model;

/// Files in an ordered map, which the host tells.
#[derive(Drop)]
pub struct MemHost {
    alloc: Global,
    files: BTreeMap<String, Vec<u8>>,
    asked: Vec<String>,
    calls: Calls,
}

impl Model for MemHost {
    ghost use Rattle.std.specs.Prelude.{map, string_bytes};
    ghost use Rattle.host_io.specs.MemHost.{HostState, host_state_code, files_of};

    ghost Value = { HostState };

    ghost coded = { host_state_code };

    ghost view = { λ h. record { files = files_of h.files.entries; asked = map string_bytes h.asked.items; calls = h.calls } };
}

/// Copies these bytes into an empty buffer, if they are at most `limit`.
fn read_bytes(bytes: &[u8], limit: u32, into: &mut Vec<u8>) -> Result<Loaded, HostError>
    requires { into.old.items ≡ [] }
    ensures { ((result ≡ Err answer.Memory) × (into.new.items ≡ []))
        ⊎ ((result, into.new.items) ≡ load_found (Some bytes.now) limit) }
{
    if bytes.len() > limit as usize {
        return Ok(Loaded::TooLong);
    }
    into.extend_from_slice(bytes)?;
    Ok(Loaded::All)
}

/// Reads the file of this name, of at most `limit` bytes, into an empty buffer.
fn read_file(
    files: &BTreeMap<String, Vec<u8>>,
    name: &str,
    limit: u32,
    into: &mut Vec<u8>,
) -> Result<Loaded, HostError>
    requires { into.old.items ≡ [] }
    ensures { ((result ≡ Err answer.Memory) × (into.new.items ≡ []))
        ⊎ ((result, into.new.items) ≡ load_found (fin.get (files_of files.now.entries) name.now) limit) }
{
    match files.get(name) {
        None => Err(HostError::Failed),
        Some(file) => read_bytes(file.as_slice(), limit, into),
    }
}

/// Puts these bytes at this name, or changes nothing.
fn put_file(
    alloc: Global,
    files: &mut BTreeMap<String, Vec<u8>>,
    name: &str,
    bytes: &[u8],
) -> Result<(), AllocError>
    ensures ok { OnOk result (files_of files.new.entries ≡ fin.insert (files_of files.old.entries) name.now bytes.now) }
    ensures err { OnErr result (files.new.entries ≡ files.old.entries) }
{
    let key = String::from_str(alloc, name)?;
    let file = Vec::from_slice(alloc, bytes)?;
    files.insert(key, file)?;
    Ok(())
}

/// A copy of this name, with room for it in the list.
fn room_for(alloc: Global, asked: &mut Vec<String>, name: &str) -> Result<String, AllocError>
    ensures name { IfOk result (λ copy. string_bytes copy ≡ name.now) }
    ensures room { OnOk result (vec_len asked.new < vec_capacity asked.new) }
    ensures same { asked.new.items ≡ asked.old.items }
{
    asked.reserve(1)?;
    String::from_str(alloc, name)
}

impl MemHost {
    pub fn new(alloc: Global) -> Result<MemHost, AllocError>
        ensures { IfOk result (λ host. host ≡ record { files = fin.empty; asked = []; calls = no_calls }) }
    {
        Ok(MemHost {
            alloc,
            files: BTreeMap::new(alloc),
            asked: Vec::new(alloc),
            calls: Calls::new(alloc),
        })
    }

    /// Puts a file of these bytes at this name, in place of the one that was there. It is no call of
    /// the host: it has no number, and asks for no name.
    pub fn put(&mut self, name: &str, bytes: &[u8]) -> Result<(), AllocError>
        ensures ok { OnOk result (self.new ≡ record self.old { files = fin.insert self.old.files name.now bytes.now }) }
        ensures err { OnErr result (self.new ≡ self.old) }
    {
        put_file(self.alloc, &mut self.files, name, bytes)
    }

    /// The bytes of the file of this name, if it is there.
    pub fn get(&self, name: &str) -> Option<&[u8]>
        ensures { option_map (λ file. file.now) result ≡ fin.get self.now.files name.now }
    {
        match self.files.get(name) {
            Some(file) => Some(file.as_slice()),
            None => None,
        }
    }

    /// The names asked so far, by loads and stores, in order.
    pub fn asked(&self) -> &[String]
        ensures { map string_bytes result.now ≡ self.now.asked }
    {
        self.asked.as_slice()
    }

    /// Makes the call of this number fail. Loads and stores count together, from 0.
    pub fn fail_at(&mut self, call: u32) -> Result<(), AllocError>
        ensures ok { OnOk result (self.new ≡ record self.old { calls = with_failing self.old.calls call }) }
        ensures err { OnErr result (self.new ≡ self.old) }
    {
        self.calls.fail_at(call)
    }
}

impl Host for MemHost {
    ghost told = { told_of };

    ghost faults = { λ h. h.calls.faults };

    fn load(
        &mut self,
        alloc: Global,
        name: &str,
        limit: u32,
        into: &mut Vec<u8>,
    ) -> Result<Loaded, HostError>
        ensures answer { ((result ≡ Err answer.Memory) × (into.new.items ≡ []))
            ⊎ ((result, into.new.items) ≡ load_answer self.old name.now limit) }
        ensures after { self.new ≡ after_load self.old name.now result }
        ensures told { LoadTold (told_of self.old) (told_of self.new) name.now limit into.new.items result }
        ensures limit { length into.new.items ≤ limit }
        ensures too_long { result ≡ Ok Loaded.TooLong → into.new.items ≡ [] }
        ensures err { OnErr result (into.new.items ≡ []) }
        ensures cause { HasCause answer.Failed self.old.calls.faults self.new.calls.faults result }
    {
        into.clear();
        let copy = room_for(alloc, &mut self.asked, name)?;
        let outcome = if self.calls.is_failing() {
            Err(HostError::Failed)
        } else {
            read_file(&self.files, name, limit, into)
        };
        if let Err(HostError::Memory) = outcome {
            return outcome;
        }
        self.asked.push(copy).unwrap();
        self.calls.count();
        if outcome.is_err() {
            self.calls.fault();
        }
        outcome
    }

    fn store(&mut self, alloc: Global, name: &str, bytes: &[u8]) -> Result<(), HostError>
        ensures answer { (result ≡ Err answer.Memory) ⊎ (result ≡ store_answer self.old) }
        ensures after { self.new ≡ after_store self.old name.now bytes.now result }
        ensures told { StoreTold (told_of self.old) (told_of self.new) name.now bytes.now result }
        ensures cause { HasCause answer.Failed self.old.calls.faults self.new.calls.faults result }
    {
        let copy = room_for(alloc, &mut self.asked, name)?;
        let fails = self.calls.is_failing();
        if !fails {
            put_file(alloc, &mut self.files, name, bytes)?;
        }
        self.asked.push(copy).unwrap();
        self.calls.count();
        if fails {
            self.calls.fault();
            return Err(HostError::Failed);
        }
        Ok(())
    }
}
