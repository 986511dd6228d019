//! The text of items.

ghost use Rattle.std.specs.Prelude.{◌≡◌, ◌++◌, map, IfOk, codes};
ghost use Rattle.std.specs.List.{flat_map};
ghost use Rattle.call_log.specs.Programs.{paths_of as texts_of};
ghost use Rattle.call_log.specs.Lines.{word_digits};
ghost use Rattle.items_text.specs.Values.{item_value, items_value};
ghost use Rattle.items_text.specs.Lines.{space_line, arg_line, env_line, call_head, item_line, text_of};

use crate::items::{Item, Items};
use call_log::{push_call_head, push_decimal, push_got, push_sent, push_word};
use std::alloc::{AllocError, Global};

/// The text of these items: a line for the space, one for each argument, each string of the environment and each call, and
/// `end`, each with its newline.
#[tactic(auto, unfolding(crate::specs::Lines::text_of))]
pub fn items_text(alloc: Global, items: &Items) -> Result<Vec<u8>, AllocError>
    ensures { IfOk result (λ text. text.items ≡ text_of (items_value items.now)) }
{
    let mut text = space_line(alloc, items.stack, items.base, items.pid, items.events)?;
    push_args(&mut text, &items.args)?;
    push_env(&mut text, &items.env)?;
    push_list(&mut text, &items.list)?;
    text.extend_from_slice(b"end\n")?;
    Ok(text)
}

/// `space stack S base 0xBLOCK pid PID events N`
pub(crate) fn space_line(
    alloc: Global,
    stack: u32,
    base: u32,
    pid: u32,
    events: u64,
) -> Result<Vec<u8>, AllocError>
    ensures { IfOk result (λ text. text.items ≡ space_line stack base pid events) }
{
    let mut text = Vec::new(alloc);
    push_space_line(&mut text, stack, base, pid, events)?;
    Ok(text)
}

fn push_space_line(
    text: &mut Vec<u8>,
    stack: u32,
    base: u32,
    pid: u32,
    events: u64,
) -> Result<(), AllocError>
    ensures { IfOk result (λ _. text.new.items ≡ text.old.items ++ space_line stack base pid events) }
{
    text.extend_from_slice(b"space stack ")?;
    push_decimal(text, u64::from(stack))?;
    text.extend_from_slice(b" base 0x")?;
    push_word(text, base)?;
    text.extend_from_slice(b" pid ")?;
    push_decimal(text, u64::from(pid))?;
    text.extend_from_slice(b" events ")?;
    push_decimal(text, events)?;
    text.push(b'\n')?;
    Ok(())
}

fn push_args(text: &mut Vec<u8>, args: &[Vec<u8>]) -> Result<(), AllocError>
    ensures { IfOk result (λ _. text.new.items ≡ text.old.items ++ flat_map arg_line (texts_of args.now)) }
{
    for arg in args {
        push_arg_line(text, arg)?;
    }
    Ok(())
}

/// `arg HEX`
fn push_arg_line(text: &mut Vec<u8>, bytes: &[u8]) -> Result<(), AllocError>
    ensures { IfOk result (λ _. text.new.items ≡ text.old.items ++ arg_line bytes.now) }
{
    text.extend_from_slice(b"arg ")?;
    push_sent(text, bytes)?;
    text.push(b'\n')?;
    Ok(())
}

fn push_env(text: &mut Vec<u8>, env: &[Vec<u8>]) -> Result<(), AllocError>
    ensures { IfOk result (λ _. text.new.items ≡ text.old.items ++ flat_map env_line (texts_of env.now)) }
{
    for string in env {
        push_env_line(text, string)?;
    }
    Ok(())
}

/// `env HEX`
fn push_env_line(text: &mut Vec<u8>, bytes: &[u8]) -> Result<(), AllocError>
    ensures { IfOk result (λ _. text.new.items ≡ text.old.items ++ env_line bytes.now) }
{
    text.extend_from_slice(b"env ")?;
    push_sent(text, bytes)?;
    text.push(b'\n')?;
    Ok(())
}

fn push_list(text: &mut Vec<u8>, list: &[Item]) -> Result<(), AllocError>
    ensures { IfOk result (λ _. text.new.items ≡ text.old.items ++ flat_map item_line (map item_value list.now)) }
{
    for item in list {
        push_item(text, item)?;
    }
    Ok(())
}

/// The line of a call in a run's report, with ` brought HEX` behind it.
fn push_item(text: &mut Vec<u8>, item: &Item) -> Result<(), AllocError>
    ensures { IfOk result (λ _. text.new.items ≡ text.old.items ++ item_line (item_value item.now)) }
{
    let entry = &item.entry;
    push_call_head(text, entry.pid, entry.call, &entry.args, entry.reply)?;
    push_sent(text, &entry.sent)?;
    text.extend_from_slice(b" got")?;
    push_got(text, &entry.got)?;
    text.extend_from_slice(b" brought ")?;
    push_sent(text, &item.brought)?;
    text.push(b'\n')?;
    Ok(())
}

/// `call PID NUMBER A0 A1 A2 A3 A4 A5 = REPLY sent `
pub(crate) fn call_head(
    alloc: Global,
    pid: u32,
    call: u32,
    args: &[u32],
    reply: u32,
) -> Result<Vec<u8>, AllocError>
    ensures { IfOk result (λ text. text.items ≡ call_head pid call args.now reply) }
{
    let mut text = Vec::new(alloc);
    push_call_head(&mut text, pid, call, args, reply)?;
    Ok(text)
}

/// `ADDR:`
pub(crate) fn addr_text(alloc: Global, addr: u32) -> Result<Vec<u8>, AllocError>
    ensures { IfOk result (λ text. text.items ≡ word_digits addr ++ codes ":") }
{
    let mut text = Vec::with_capacity(alloc, 9)?;
    push_word(&mut text, addr)?;
    text.push(b':')?;
    Ok(text)
}
