//! The times of `--time`.
ghost use Rattle.std.specs.Prelude.{◌≡◌};
ghost use Rattle.cfi_commands.specs.Times.{side_of, times_of};

use crate::billionths::billionths_of;

/// Two times in nanoseconds, of which each may be left out.
#[derive(Clone, Copy, Debug)]
pub struct Times {
    /// The first nanosecond.
    pub from: Option<u64>,
    /// The last nanosecond.
    pub until: Option<u64>,
}

/// No times.
pub const ANY_TIME: Times = Times {
    from: None,
    until: None,
};

/// Parses `FROM,UNTIL`, of which each may be empty: seconds, and behind a dot at most nine
/// decimals. `None` for other texts, and where a time isn't below 2^64 nanoseconds.
pub fn times_of(text: &str) -> Option<Times>
    ensures { result ≡ times_of text.now }
{
    let (from, until) = text.split_once(',')?;
    Some(Times {
        from: side_of(from)?,
        until: side_of(until)?,
    })
}

/// Parses a time, if there is one, and returns its nanoseconds.
fn side_of(text: &str) -> Option<Option<u64>>
    ensures { result ≡ side_of text.now }
{
    if text.is_empty() {
        return Some(None);
    }
    Some(Some(billionths_of(text)?))
}
