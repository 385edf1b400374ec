//! The slots of statements.

ghost use Rattle.std.specs.Prelude.{◌≡◌, ◌<◌, ◌+◌, map, suc, IfSome, length};
ghost use Rattle.gl_asking.specs.Rows.{row_file};
ghost use Rattle.gl_served.specs.declared.limits.TheConstants.{PAIRS};
ghost use Rattle.gl_served.specs.Slots.{first_free, is_taken, lowest_free, pair_behind, within_pairs};

use crate::limits::PAIRS;
use gl_asking::FileRow;

/// The pair of slots of the statement after so many others: one of its own, or, where there is none, the lowest in which no file is open.
pub fn pair_behind(count: u32, rows: &[FileRow]) -> Option<u32>
    ensures pair { result ≡ pair_behind count (map row_file rows.now) }
    ensures within { IfSome result (λ pair. pair < PAIRS) }
{
    if count < PAIRS {
        return Some(count);
    }
    lowest_free(rows)
}

/// The lowest pair in which no file is open.
fn lowest_free(rows: &[FileRow]) -> Option<u32>
    ensures pair { result ≡ lowest_free (map row_file rows.now) }
    ensures within { IfSome result (λ pair. pair < PAIRS) }
{
    within_pairs(first_free(rows))
}

/// A pair whose slots have 32 bits.
fn within_pairs(pair: Option<u64>) -> Option<u32>
    ensures pair { result ≡ within_pairs pair }
    ensures within { IfSome result (λ pair. pair < PAIRS) }
{
    match pair {
        Some(pair) => {
            if pair < u64::from(PAIRS) {
                Some(pair as u32)
            } else {
                None
            }
        }
        None => None,
    }
}

/// The first of one pair more than there are files in which none is open.
fn first_free(rows: &[FileRow]) -> Option<u64>
    ensures { result ≡ first_free (suc (length (map row_file rows.now))) 0 (map row_file rows.now) }
{
    for pair in 0..rows.len() + 1 {
        if !is_taken(pair as u64, rows) {
            return Some(pair as u64);
        }
    }
    None
}

/// Whether a file is open in one of the slots of a pair.
fn is_taken(pair: u64, rows: &[FileRow]) -> bool
    requires { pair < 18446744073709551615 }
    ensures { result ≡ is_taken pair (map row_file rows.now) }
{
    for row in rows {
        if u64::from(row.slot() / 2) == pair + 1 {
            return true;
        }
    }
    false
}
