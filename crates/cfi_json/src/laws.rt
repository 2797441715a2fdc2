//! What is read from the text of a value, and from the objects that `cfi` prints.
ghost use Rattle.cfi_json.specs.Json.{ReadsBack};
ghost use Rattle.cfi_json.specs.FrameValues.{FramesReadBack};
ghost use Rattle.cfi_json.specs.SampleValues.{ProfilesReadBack, SamplesReadBack};
ghost use Rattle.cfi_json.specs.ThreadValues.{CoresReadBack, ThreadsReadBack};

/// The text of each value is read as that value. Does nothing when it runs.
pub fn json_reads_back()
    ensures { ReadsBack }
{}

/// The array of the frames of a stack is read as their values. Does nothing when it runs.
pub fn frames_read_back()
    ensures { FramesReadBack }
{}

/// The line of the stack of a sample is read as its value. Does nothing when it runs.
pub fn samples_read_back()
    ensures { SamplesReadBack }
{}

/// The line of the stack of a thread is read as its value. Does nothing when it runs.
pub fn threads_read_back()
    ensures { ThreadsReadBack }
{}

/// Each line of the stacks of a profile is read as the value of its stack. Does nothing when it
/// runs.
pub fn profiles_read_back()
    ensures { ProfilesReadBack }
{}

/// Each line of the threads of a core file is read as the value of its stack. Does nothing when it
/// runs.
pub fn cores_read_back()
    ensures { CoresReadBack }
{}
