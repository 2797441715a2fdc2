//! Numbers with decimals, in billionths: a time in seconds in nanoseconds, a width in pixels.
ghost use Rattle.std.specs.Prelude.{◌≡◌};
ghost use Rattle.cfi_commands.specs.Billionths.{billionths_of, in_billionths};

use cfi_flame::decimal::decimal_from;

/// The decimals of a number that has none.
const ZEROS: &[u8] = b"000000000";

/// Parses a number with at most nine decimals behind a dot, and returns its billionths. `None` for
/// other texts, and where these aren't below 2^64.
pub fn billionths_of(text: &str) -> Option<u64>
    ensures { result ≡ billionths_of text.now }
{
    match text.split_once('.') {
        Some((whole, decimals)) => in_billionths(whole.as_bytes(), decimals.as_bytes()),
        None => in_billionths(text.as_bytes(), b""),
    }
}

/// Returns the billionths of a number with these digits.
fn in_billionths(whole: &[u8], decimals: &[u8]) -> Option<u64>
    ensures { result ≡ in_billionths whole.now decimals.now }
{
    if whole.is_empty() || decimals.len() > 9 {
        return None;
    }
    let units = decimal_from(0, whole)?;
    let tenths = decimal_from(units, decimals)?;
    decimal_from(tenths, ZEROS.split_at(decimals.len()).1)
}
