//! What the words of a command say beside what clap reads in them.

/// The files that a check is of.
#[derive(Clone, Copy)]
pub enum FileArguments<'c> {
    /// These.
    Files(&'c [&'c str]),
    /// Those that the list at this path names, each name ended by a zero byte; `-` is standard
    /// input.
    List(&'c str),
}

/// What is wrong with words that clap takes.
#[derive(Clone, Copy)]
pub enum UsageError<'c> {
    /// There is no command, or one that the program doesn't have.
    NoCommand,
    /// No file to check is named.
    NoFiles,
    /// Files to check are named, and a list of such.
    TwoNamings,
    /// This text isn't two times.
    NoTimes(&'c str),
    /// This text isn't a width.
    NoWidth(&'c str),
}
