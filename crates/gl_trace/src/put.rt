//! Entries, written.
ghost use Rattle.std.specs.Prelude.{◌≡◌, ◌++◌, [], ◌∷◌, OnOk, OnErr, IsOkUnless, codes};
ghost use Rattle.gl_base.specs.Decimal.{decimal};
ghost use Rattle.gl_trace.specs.EntryText.{entry_text, HasText};
ghost use Rattle.gl_trace.specs.TextWord.{text_word};
ghost use Rattle.gl_trace.specs.CallText.{call_words};
ghost use Rattle.gl_trace.specs.ReplyText.{ready_text, reply_text};
ghost use Rattle.gl_trace.specs.Words.{before};

use crate::put_call::put_call;
use crate::words::{put_number, put_text_word};
use gl_base::{Errno, put_decimal};
use gl_core::{Core, Reply};
use gl_world::Entry;

/// Appends the text of an entry with its index, counted from 0, as `3 1 close 3 -> ok`; no line's end. The entry has to have
/// a text, as each entry of a legal history has (`laws::legal_entries_have_texts`). The form is this project's choice. Only
/// being out of memory is an error, and then `out` is as it was.
pub fn put_entry(index: u32, entry: &Entry<Core>, out: &mut Vec<u8>) -> Result<(), Errno>
    requires { HasText entry.now }
    ensures ok { OnOk result (out.new.items ≡ out.old.items ++ entry_text index entry.now) }
    ensures err { OnErr result (out.new.items ≡ out.old.items) }
    ensures memory_alone { IsOkUnless result Errno.NoMemory }
{
    let mut text = Vec::new(*out.allocator());
    put_text_of(index, entry, &mut text)?;
    out.extend_from_slice(&text)?;
    Ok(())
}

/// Appends the text of an entry.
fn put_text_of(index: u32, entry: &Entry<Core>, out: &mut Vec<u8>) -> Result<(), Errno>
    ensures ok { OnOk result (out.new.items ≡ out.old.items ++ entry_text index entry.now) }
    ensures memory_alone { IsOkUnless result Errno.NoMemory }
{
    put_front(index, entry.actor, out)?;
    put_call(&entry.call, out)?;
    put_result(&entry.reply, out)
}

/// Appends the index of an entry and its actor.
fn put_front(index: u32, actor: u8, out: &mut Vec<u8>) -> Result<(), Errno>
    ensures ok { OnOk result (out.new.items ≡ out.old.items ++ before (decimal index ∷ decimal actor ∷ []) []) }
    ensures memory_alone { IsOkUnless result Errno.NoMemory }
{
    put_number(u64::from(index), out)?;
    put_number(u64::from(actor), out)
}

/// Appends the arrow and a reply.
fn put_result(reply: &Reply, out: &mut Vec<u8>) -> Result<(), Errno>
    ensures ok { OnOk result (out.new.items ≡ out.old.items ++ (codes "-> " ++ reply_text reply.now)) }
    ensures memory_alone { IsOkUnless result Errno.NoMemory }
{
    out.extend_from_slice(b"-> ")?;
    put_reply(reply, out)
}

/// Appends the text of a reply.
fn put_reply(reply: &Reply, out: &mut Vec<u8>) -> Result<(), Errno>
    ensures ok { OnOk result (out.new.items ≡ out.old.items ++ reply_text reply.now) }
    ensures memory_alone { IsOkUnless result Errno.NoMemory }
{
    match reply {
        Reply::Done => put_all(b"ok", out),
        Reply::Number(number) => put_counted(b"ok ", *number, out),
        Reply::Go(number) => put_counted(b"go ", u64::from(*number), out),
        Reply::Found {
            place,
            offset,
            count,
        } => put_found(*place, *offset, *count, out),
        Reply::Text(text) => put_value(text.as_bytes(), out),
        Reply::Ready(bits) => put_all(ready_text(*bits).as_bytes(), out),
        Reply::Refused(errno) => put_all(errno.name().as_bytes(), out),
    }
}

fn put_all(text: &[u8], out: &mut Vec<u8>) -> Result<(), Errno>
    ensures ok { OnOk result (out.new.items ≡ out.old.items ++ text.now) }
    ensures memory_alone { IsOkUnless result Errno.NoMemory }
{
    out.extend_from_slice(text)?;
    Ok(())
}

/// Appends a text and a number.
fn put_counted(text: &[u8], number: u64, out: &mut Vec<u8>) -> Result<(), Errno>
    ensures ok { OnOk result (out.new.items ≡ out.old.items ++ (text.now ++ decimal number)) }
    ensures memory_alone { IsOkUnless result Errno.NoMemory }
{
    out.extend_from_slice(text)?;
    put_decimal(number, out)
}

/// Appends a value of the tree as an answer.
fn put_value(text: &[u8], out: &mut Vec<u8>) -> Result<(), Errno>
    ensures ok { OnOk result (out.new.items ≡ out.old.items ++ (codes "ok " ++ text_word text.now)) }
    ensures memory_alone { IsOkUnless result Errno.NoMemory }
{
    out.extend_from_slice(b"ok ")?;
    put_text_word(text, out)
}

/// Appends a line that was found as an answer.
fn put_found(place: u8, offset: u32, count: u32, out: &mut Vec<u8>) -> Result<(), Errno>
    ensures ok { OnOk result (out.new.items ≡ out.old.items ++ (codes "ok " ++ (decimal place ++ (32 ∷ (decimal offset ++ (32 ∷ decimal count)))))) }
    ensures memory_alone { IsOkUnless result Errno.NoMemory }
{
    out.extend_from_slice(b"ok ")?;
    put_number(u64::from(place), out)?;
    put_number(u64::from(offset), out)?;
    put_decimal(u64::from(count), out)
}

fn ready_text(bits: u8) -> &'static str
    ensures { result.now ≡ ready_text bits }
{
    match bits {
        0 => "poll -",
        1 => "poll IN",
        _ => "poll HUP ERR",
    }
}
