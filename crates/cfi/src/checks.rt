//! The checks of several files, one after the other.
use cfi_commands::{System, Target, open_named};
use cfi_files::{CheckStyle, Finding, check_file, count_findings, greatest_status, put_tally};
use cfi_text::text::Text;
use std::io;
use std::io::Write;

/// The number of files above which the progress of a check is shown.
const MANY: usize = 20;

/// Checks the files in their order, prints their lines and how many there are, and returns the
/// greatest status. A file that can't be opened has its line on standard error, where progress is
/// shown if there are many.
///
/// Fails where the output can't be written, or memory for what was found is refused.
pub(crate) fn print_checked<S: System, W: Write>(
    system: &S,
    style: CheckStyle,
    targets: &[Target],
    output: &mut W,
) -> io::Result<u8> {
    let shows_progress = targets.len() > MANY;
    let mut findings = Vec::new(system.alloc());
    for target in targets {
        if shows_progress {
            show_progress(system, findings.len() + 1, targets.len(), target);
        }
        findings.push(check_target(system, style, target, output)?)?;
    }
    if shows_progress {
        system.clear_progress();
    }
    let mut text = Text::new(system.alloc());
    put_tally(&mut text, style.format, count_findings(findings.as_slice()));
    text.write_to(output)?;
    Ok(greatest_status(findings.as_slice()))
}

/// Says which of several files is checked.
fn show_progress<S: System>(system: &S, number: usize, files: usize, target: &Target) {
    match target {
        Target::Named(name) => system.show_progress(number, files, name.as_str()),
        Target::Found(path) => system.show_progress(number, files, path.as_str()),
        Target::Unread => {}
    }
}

/// Checks one file, and returns what was found. One that was found in a folder and isn't an ELF
/// file has no line.
fn check_target<S: System, W: Write>(
    system: &S,
    style: CheckStyle,
    target: &Target,
    output: &mut W,
) -> io::Result<Finding> {
    match target {
        Target::Named(name) => check_named(system, style, name.as_str(), output),
        Target::Found(path) => {
            let style = CheckStyle {
                elf_alone: true,
                ..style
            };
            check_named(system, style, path.as_str(), output)
        }
        Target::Unread => Ok(Finding::Unreadable),
    }
}

/// Checks the file of this name, and returns what was found.
fn check_named<S: System, W: Write>(
    system: &S,
    style: CheckStyle,
    file: &str,
    output: &mut W,
) -> io::Result<Finding> {
    match open_named(system, file) {
        Some(mut input) => check_file(system.alloc(), style, file, &mut input, output),
        None => Ok(Finding::Unreadable),
    }
}
