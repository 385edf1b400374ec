//! Words that are appended, each with a blank after it.
ghost use Rattle.std.specs.Prelude.{◌≡◌, ◌++◌, [], ◌∷◌, ◌<◌, ◌^◌, OnOk, IsOkUnless, codes};
ghost use Rattle.std.specs.List.{list_all};
ghost use Rattle.gl_base.specs.BytesText.{pair, hex_digit, bytes_text};
ghost use Rattle.gl_base.specs.Decimal.{decimal};
ghost use Rattle.gl_trace.specs.TextWord.{is_plain_byte, is_plain, pairs_text, text_word};
ghost use Rattle.gl_trace.specs.Words.{before, hex4, hex8, hex16, hex_word, long_hex_word};

use gl_base::{Errno, put_bytes, put_decimal};

/// Appends a word and a blank.
pub(crate) fn put_word(word: &[u8], out: &mut Vec<u8>) -> Result<(), Errno>
    ensures ok { OnOk result (out.new.items ≡ out.old.items ++ before (word.now ∷ []) []) }
    ensures memory_alone { IsOkUnless result Errno.NoMemory }
{
    out.extend_from_slice(word)?;
    out.push(b' ')?;
    Ok(())
}

/// Appends a number in decimal and a blank.
pub(crate) fn put_number(number: u64, out: &mut Vec<u8>) -> Result<(), Errno>
    ensures ok { OnOk result (out.new.items ≡ out.old.items ++ before (decimal number ∷ []) []) }
    ensures memory_alone { IsOkUnless result Errno.NoMemory }
{
    put_decimal(number, out)?;
    out.push(b' ')?;
    Ok(())
}

/// Appends the word of a text and a blank.
pub(crate) fn put_text(text: &[u8], out: &mut Vec<u8>) -> Result<(), Errno>
    ensures ok { OnOk result (out.new.items ≡ out.old.items ++ before (text_word text.now ∷ []) []) }
    ensures memory_alone { IsOkUnless result Errno.NoMemory }
{
    put_text_word(text, out)?;
    out.push(b' ')?;
    Ok(())
}

/// Appends bytes in their one spelling, and a blank.
pub(crate) fn put_buffer(bytes: &[u8], out: &mut Vec<u8>) -> Result<(), Errno>
    ensures ok { OnOk result (out.new.items ≡ out.old.items ++ before (bytes_text bytes.now ∷ []) []) }
    ensures memory_alone { IsOkUnless result Errno.NoMemory }
{
    put_bytes(bytes, out)?;
    out.push(b' ')?;
    Ok(())
}

/// Appends the word of a text: as it is, or `\` and its pairs.
pub(crate) fn put_text_word(text: &[u8], out: &mut Vec<u8>) -> Result<(), Errno>
    ensures ok { OnOk result (out.new.items ≡ out.old.items ++ text_word text.now) }
    ensures memory_alone { IsOkUnless result Errno.NoMemory }
{
    if is_plain(text) {
        out.extend_from_slice(text)?;
        return Ok(());
    }
    out.push(b'\\')?;
    put_pairs(text, out)
}

/// Whether a text is written as it is.
pub(crate) fn is_plain(text: &[u8]) -> bool
    ensures { result ≡ is_plain text.now }
{
    !text.is_empty() && text != b"-".as_slice() && are_plain_bytes(text)
}

fn are_plain_bytes(text: &[u8]) -> bool
    ensures { result ≡ list_all is_plain_byte text.now }
{
    text.iter()
        .all(|byte| 33 <= *byte && *byte <= 126 && *byte != b'\\')
}

/// Appends bytes as lower-case pairs.
fn put_pairs(bytes: &[u8], out: &mut Vec<u8>) -> Result<(), Errno>
    ensures ok { OnOk result (out.new.items ≡ out.old.items ++ pairs_text bytes.now) }
    ensures memory_alone { IsOkUnless result Errno.NoMemory }
{
    let mut rest = bytes;
    while let [byte, after @ ..] = rest {
        put_pair(*byte, out)?;
        rest = after;
    }
    Ok(())
}

/// Appends the pair of a byte.
fn put_pair(byte: u8, out: &mut Vec<u8>) -> Result<(), Errno>
    ensures ok { OnOk result (out.new.items ≡ out.old.items ++ pair byte) }
    ensures memory_alone { IsOkUnless result Errno.NoMemory }
{
    out.extend_from_slice(&[hex_digit(byte / 16), hex_digit(byte % 16)])?;
    Ok(())
}

/// The lower-case digit of a number below 16.
pub(crate) fn hex_digit(n: u8) -> u8
    requires { n < 16 }
    ensures { result ≡ hex_digit n }
{
    if n < 10 {
        return n + b'0';
    }
    n + (b'a' - 10)
}

/// Appends four lower-case hexadecimal digits.
fn put_hex4(number: u16, out: &mut Vec<u8>) -> Result<(), Errno>
    ensures ok { OnOk result (out.new.items ≡ out.old.items ++ hex4 number) }
    ensures memory_alone { IsOkUnless result Errno.NoMemory }
{
    put_pair((number / 256) as u8, out)?;
    put_pair((number % 256) as u8, out)
}

/// Appends eight.
fn put_hex8(number: u32, out: &mut Vec<u8>) -> Result<(), Errno>
    ensures ok { OnOk result (out.new.items ≡ out.old.items ++ hex8 number) }
    ensures memory_alone { IsOkUnless result Errno.NoMemory }
{
    put_hex4((number / 65536) as u16, out)?;
    put_hex4((number % 65536) as u16, out)
}

/// Appends sixteen.
fn put_hex16(number: u64, out: &mut Vec<u8>) -> Result<(), Errno>
    ensures ok { OnOk result (out.new.items ≡ out.old.items ++ hex16 number) }
    ensures memory_alone { IsOkUnless result Errno.NoMemory }
{
    put_hex8((number / 0x1_0000_0000) as u32, out)?;
    put_hex8((number % 0x1_0000_0000) as u32, out)
}

/// Appends `0x`, eight digits and a blank.
pub(crate) fn put_hex(number: u32, out: &mut Vec<u8>) -> Result<(), Errno>
    ensures ok { OnOk result (out.new.items ≡ out.old.items ++ before (hex_word number ∷ []) []) }
    ensures memory_alone { IsOkUnless result Errno.NoMemory }
{
    out.extend_from_slice(b"0x")?;
    put_hex8(number, out)?;
    out.push(b' ')?;
    Ok(())
}

/// Appends `0x`, sixteen digits and a blank.
pub(crate) fn put_long_hex(number: u64, out: &mut Vec<u8>) -> Result<(), Errno>
    ensures ok { OnOk result (out.new.items ≡ out.old.items ++ before (long_hex_word number ∷ []) []) }
    ensures memory_alone { IsOkUnless result Errno.NoMemory }
{
    out.extend_from_slice(b"0x")?;
    put_hex16(number, out)?;
    out.push(b' ')?;
    Ok(())
}
