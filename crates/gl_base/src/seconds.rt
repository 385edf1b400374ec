//! Numbers in columns, and times in seconds.
ghost use Rattle.std.specs.Prelude.{◌≡◌, ◌++◌, replicate, OnOk, OnErr, IsOkUnless};
ghost use Rattle.gl_base.specs.Decimal.{decimal};
ghost use Rattle.gl_base.specs.Seconds.{right_justified, seconds_text};

use crate::decimal::put_decimal;
use crate::errno::Errno;

/// How many nanoseconds a second has.
const NANOSECONDS: u64 = 1_000_000_000;

/// How many digits of a second are written.
const FRACTION_DIGITS: usize = 9;

/// Appends a time of so many nanoseconds in seconds: the seconds, a point and nine digits. Where memory is
/// wanted, `out` is as it was.
pub fn put_seconds(ns: u64, out: &mut Vec<u8>) -> Result<(), Errno>
    ensures ok { OnOk result (out.new.items ≡ out.old.items ++ seconds_text ns) }
    ensures err { OnErr result (out.new.items ≡ out.old.items) }
    ensures memory_alone { IsOkUnless result Errno.NoMemory }
{
    let mut text = Vec::new(*out.allocator());
    put_decimal(ns / NANOSECONDS, &mut text)?;
    text.push(b'.')?;
    put_right_justified(FRACTION_DIGITS, b'0', ns % NANOSECONDS, &mut text)?;
    out.extend_from_slice(&text)?;
    Ok(())
}

/// Appends a number's digits, right-justified in so many columns: before a shorter number the byte `fill`
/// stands, and a longer one is written whole. Where memory is wanted, `out` is as it was.
pub fn put_right_justified(
    columns: usize,
    fill: u8,
    value: u64,
    out: &mut Vec<u8>,
) -> Result<(), Errno>
    ensures ok { OnOk result (out.new.items ≡ out.old.items ++ right_justified columns fill (decimal value)) }
    ensures err { OnErr result (out.new.items ≡ out.old.items) }
    ensures memory_alone { IsOkUnless result Errno.NoMemory }
{
    let mut digits = Vec::new(*out.allocator());
    put_decimal(value, &mut digits)?;
    let mut text = Vec::new(*out.allocator());
    put_repeated(columns.saturating_sub(digits.len()), fill, &mut text)?;
    text.extend_from_slice(&digits)?;
    out.extend_from_slice(&text)?;
    Ok(())
}

/// Appends a byte so many times. Where memory is wanted, some of them may have been appended.
pub fn put_repeated(count: usize, byte: u8, out: &mut Vec<u8>) -> Result<(), Errno>
    ensures ok { OnOk result (out.new.items ≡ out.old.items ++ replicate count byte) }
    ensures memory_alone { IsOkUnless result Errno.NoMemory }
{
    for _i in 0..count {
        out.push(byte)?;
    }
    Ok(())
}
