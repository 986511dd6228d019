//! The strings that an execve read.

ghost use Rattle.std.specs.Prelude.{◌≡◌, true, false, length, IfOk, MatchOption};
ghost use Rattle.call_log.specs.Sent.{has_zero};
ghost use Rattle.call_log.specs.Strings.{before_zero, behind_zero, strings_in, strings_of, program_strings};
ghost use Rattle.call_bytes.specs.StringsOf.{list_value, program_value};

use crate::string_lists::{ProgramStrings, StringList};
use byte_words::word;
use std::alloc::{AllocError, Global};

/// What stands before the first zero, and what stands behind it.
pub fn at_zero(bytes: &[u8]) -> Option<(&[u8], &[u8])>
    ensures { MatchOption result (has_zero bytes.now ≡ false) (λ p. (has_zero bytes.now ≡ true) × (p.0.now ≡ before_zero bytes.now) × (p.1.now ≡ behind_zero bytes.now)) }
{
    for (i, byte) in bytes.iter().enumerate() {
        if *byte == 0 {
            return Some((bytes.split_at(i).0, bytes.split_at(i + 1).1));
        }
    }
    None
}

/// The strings of a list, each one behind its pointer, up to the pointer that is zero. None where the reading stopped before.
fn strings_in<'a>(alloc: Global, bytes: &'a [u8]) -> Result<Option<StringList<'a>>, AllocError>
    ensures { IfOk result (λ list. list_value list ≡ strings_in (length bytes.now) bytes.now) }
{
    let mut strings = Vec::new(alloc);
    let mut rest = bytes;
    while rest.len() >= 4 {
        let pointer = word(rest, 0);
        let behind = rest.split_at(4).1;
        if pointer == 0 {
            return Ok(Some(StringList { strings, behind }));
        }
        let Some((string, more)) = at_zero(behind) else {
            return Ok(None);
        };
        strings.push(Vec::from_slice(alloc, string)?)?;
        rest = more;
    }
    Ok(None)
}

/// The strings of the list at an address. There is none at 0.
fn strings_of<'a>(
    alloc: Global,
    at: u32,
    bytes: &'a [u8],
) -> Result<Option<StringList<'a>>, AllocError>
    ensures { IfOk result (λ list. list_value list ≡ strings_of at bytes.now) }
{
    if at == 0 {
        return Ok(Some(StringList {
            strings: Vec::new(alloc),
            behind: bytes,
        }));
    }
    strings_in(alloc, bytes)
}

/// What stands behind the path.
fn behind_path(sent: &[u8]) -> &[u8]
    ensures { result.now ≡ behind_zero sent.now }
{
    match at_zero(sent) {
        Some((_, behind)) => behind,
        None => &[],
    }
}

/// The arguments and the environment among the bytes that an execve read, by the addresses of both lists. None where those
/// are more than the most bytes, so that the reading stopped.
pub fn program_strings(
    alloc: Global,
    sent: &[u8],
    args: u32,
    env: u32,
) -> Result<Option<ProgramStrings>, AllocError>
    ensures { IfOk result (λ strings. program_value strings ≡ program_strings sent.now args env) }
{
    let Some(args) = strings_of(alloc, args, behind_path(sent))? else {
        return Ok(None);
    };
    let Some(env) = strings_of(alloc, env, args.behind)? else {
        return Ok(None);
    };
    Ok(Some(ProgramStrings {
        args: args.strings,
        env: env.strings,
    }))
}
