//! Numbers in the words of the command line.
ghost use Rattle.std.specs.Prelude.{◌≡◌, option_map};
ghost use Rattle.std.specs.Char.{is_ascii_digit, is_ascii_hexdigit};
ghost use Rattle.std.specs.List.{list_all};
ghost use Rattle.cfi_programs.specs.Numbers.{after_prefix, decimal_number, hexadecimal_number};
ghost use Rattle.cfi_programs.specs.Numbers.{number};

/// Returns what comes after `start` in a word that begins with it.
pub fn after_prefix<'w>(word: &'w str, start: &str) -> Option<&'w str>
    ensures { option_map (λ rest. rest.now) result ≡ after_prefix start.now word.now }
{
    word.strip_prefix(start)
}

/// Parses a number: `0x` and 1 to 16 hexadecimal digits of either case, or 1 to 20 decimal digits
/// of a value below 2^64. A leading zero is a decimal digit. `None` for other words.
pub fn number_in(word: &str) -> Option<u64>
    ensures { result ≡ number word.now }
{
    match after_prefix(word, "0x") {
        Some(digits) => hexadecimal(digits),
        None => decimal(word),
    }
}

/// Parses 1 to 16 hexadecimal digits; `None` for other words.
fn hexadecimal(digits: &str) -> Option<u64>
    ensures { result ≡ hexadecimal_number digits.now }
{
    if digits.is_empty() || digits.len() > 16 || !all_hexadecimal(digits.as_bytes()) {
        return None;
    }
    u64::from_str_radix(digits, 16).ok()
}

/// Parses 1 to 20 decimal digits of a value below 2^64; `None` for other words.
fn decimal(digits: &str) -> Option<u64>
    ensures { result ≡ decimal_number digits.now }
{
    if digits.is_empty() || digits.len() > 20 || !all_decimal(digits.as_bytes()) {
        return None;
    }
    u64::from_str_radix(digits, 10).ok()
}

/// Returns whether each byte is a hexadecimal digit.
fn all_hexadecimal(digits: &[u8]) -> bool
    ensures { result ≡ list_all is_ascii_hexdigit digits.now }
{
    digits.iter().all(|digit| digit.is_ascii_hexdigit())
}

/// Returns whether each byte is a decimal digit.
fn all_decimal(digits: &[u8]) -> bool
    ensures { result ≡ list_all is_ascii_digit digits.now }
{
    digits.iter().all(|digit| digit.is_ascii_digit())
}
