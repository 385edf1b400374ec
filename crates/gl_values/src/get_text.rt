//! The line that gpioget prints.
ghost use Rattle.gl_args.specs.Options.{options_in};
ghost use Rattle.std.specs.Prelude.{◌≡◌, ◌++◌, codes, if◌then◌else◌, IfOk, OnOk, IsOkUnless};
ghost use Rattle.gl_lines.specs.Texts.{line};
ghost use Rattle.gl_values.specs.GetText.{separator, has_value, value_text, values_text};

use gl_args::Opts;
use gl_base::{ByteList, Errno, Name, has_bit};
use gl_lines::put_quoted;
use std::alloc::Global;

/// The values of gpioget's lines, separated by blanks.
pub(crate) fn values_line(alloc: Global, opts: &Opts, bits: u64) -> Result<ByteList, Errno>
    ensures ok { IfOk result (λ text. text ≡ line (values_text (options_in opts.now) bits 0 opts.now.lines.items)) }
    ensures memory_alone { IsOkUnless result Errno.NoMemory }
{
    let mut text = ByteList::new(alloc);
    for (i, line) in opts.lines.iter().enumerate() {
        put_separator(i, &mut text)?;
        put_value(opts, &line.0, has_value(bits, i), &mut text)?;
    }
    text.push_all(b"\n")?;
    Ok(text)
}

/// A blank before each but the first.
fn put_separator(i: usize, text: &mut ByteList) -> Result<(), Errno>
    ensures ok { OnOk result (text.new ≡ text.old ++ separator i) }
    ensures memory_alone { IsOkUnless result Errno.NoMemory }
{
    if i > 0 {
        text.push_all(b" ")?;
    }
    Ok(())
}

/// Whether the line at a place is active.
fn has_value(bits: u64, i: usize) -> bool
    ensures { result ≡ has_value bits i }
{
    i < 64 && has_bit(bits, i as u32)
}

fn put_value(opts: &Opts, word: &Name, active: bool, text: &mut ByteList) -> Result<(), Errno>
    ensures ok { OnOk result (text.new ≡ text.old ++ value_text (options_in opts.now) word.now active) }
    ensures memory_alone { IsOkUnless result Errno.NoMemory }
{
    if opts.numeric {
        return text.push_all(digit(active));
    }
    put_quoted(opts.unquoted, word.as_bytes(), text)?;
    text.push_all(state(active))
}

fn digit(active: bool) -> &'static [u8]
    ensures { result.now ≡ (if active then codes "1" else codes "0") }
{
    if active { b"1" } else { b"0" }
}

fn state(active: bool) -> &'static [u8]
    ensures { result.now ≡ (if active then codes "=active" else codes "=inactive") }
{
    if active { b"=active" } else { b"=inactive" }
}
