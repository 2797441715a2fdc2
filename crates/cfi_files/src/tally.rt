//! The count of what a check of several files found.
ghost use Rattle.std.specs.Prelude.{◌≡◌, length};
ghost use Rattle.std.specs.List.{count_by};
ghost use Rattle.cfi_files.specs.Findings.{greatest_status, has_table, is_faithful, tally_object};
ghost use Rattle.cfi_text.specs.Texts.{Puts};

use crate::check::Finding;
use cfi_text::style::Format;
use cfi_text::text::Text;

/// What a check of several files found.
#[derive(Clone, Copy)]
pub struct Tally {
    /// How many files were checked.
    pub files: usize,
    /// How many of them have a table.
    pub tables: usize,
    /// How many of these are faithful.
    pub faithful: usize,
}

/// Counts what was found.
pub fn count_findings(findings: &[Finding]) -> Tally
    ensures files { result.files ≡ length findings.now }
    ensures tables { result.tables ≡ count_by has_table findings.now }
    ensures faithful { result.faithful ≡ count_by is_faithful findings.now }
{
    Tally {
        files: findings.len(),
        tables: findings
            .iter()
            .filter(|finding| finding.has_table())
            .count(),
        faithful: findings
            .iter()
            .filter(|finding| finding.is_faithful())
            .count(),
    }
}

/// Returns the greatest status of what was found.
pub fn greatest_status(findings: &[Finding]) -> u8
    ensures { result ≡ greatest_status findings.now }
{
    let mut greatest = 0u8;
    for finding in findings {
        greatest = greatest.max(finding.status());
    }
    greatest
}

/// Appends the line of what was counted.
pub fn put_tally(text: &mut Text, format: Format, tally: Tally) {
    match format {
        Format::Text => {
            text.number(tally.files);
            text.put(b" files, ");
            text.number(tally.tables);
            text.put(b" tables, ");
            text.number(tally.faithful);
            text.put(b" faithful\n");
        }
        Format::Json => put_tally_object(text, tally),
    }
}

/// Appends what was counted, as an object on a line.
fn put_tally_object(text: &mut Text, tally: Tally)
    ensures { Puts (tally_object tally.files tally.tables tally.faithful) text.old text.new }
{
    text.put(b"{\"files\":");
    text.json_number(tally.files as u64);
    text.put(b",\"tables\":");
    text.json_number(tally.tables as u64);
    text.put(b",\"faithful\":");
    text.json_number(tally.faithful as u64);
    text.put(b"}\n");
}
