//! What is mapped in a process, and the files of the profile.
ghost use Rattle.std.specs.Prelude.{◌≡◌, map, option_map};
ghost use Rattle.cfi_processes.specs.Sites.{file_of, mapped_at};
ghost use Rattle.cfi_processes.specs.KnownFiles.{known_view};
ghost use Rattle.cfi_mapped.specs.Mappings.{AreMappedInOrder};

use crate::profile_files::ProfileFile;
use cfi_mapped::mappings::MappedCode;

/// The process that the kernel's own code and its modules are mapped into, -1.
pub const KERNEL: u32 = u32::MAX;

/// What is mapped in a process, and the files of the profile.
#[derive(Clone, Copy)]
pub struct ProcessCode<'a, 'files, 'run> {
    /// What is mapped, in the order of addresses.
    pub mappings: &'a [MappedCode],
    /// The files, to which the mappings' `object` counts.
    pub files: &'files [ProfileFile<'run>],
}

impl<'a, 'files, 'run> ProcessCode<'a, 'files, 'run> {
    /// The mapping that has the address.
    pub(crate) fn mapped_at(&self, address: u64) -> Option<&'a MappedCode>
        requires { AreMappedInOrder 0 self.now.mappings.now }
        ensures { option_map (λ mapped. mapped.now) result
            ≡ mapped_at self.now.mappings.now address }
    {
        let index = self
            .mappings
            .partition_point(|mapped| mapped.end <= address);
        let mapped = self.mappings.get(index)?;
        if mapped.start <= address {
            Some(mapped)
        } else {
            None
        }
    }

    /// The file that is mapped.
    pub(crate) fn file_of(&self, mapped: &MappedCode) -> Option<&'files ProfileFile<'run>>
        ensures { option_map (λ file. known_view file.now) result
            ≡ file_of (map known_view self.now.files.now) mapped.now }
    {
        self.files.get(mapped.object?)
    }
}
