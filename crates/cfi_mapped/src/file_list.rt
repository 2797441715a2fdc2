//! Files, each once, in the order in which they were put into a list.

use crate::wanted::WantedFile;
use std::alloc::{AllocError, Global};
use std::collections::BTreeSet;
use std::marker::Model;

/// By what files are told apart: the name, the build and the process.
type FileKey<'run> = (&'run [u8], Option<&'run [u8]>, Option<u32>);

/// Files, each once, in the order in which they were put there. Whether one is there is found by
/// halving.
#[derive(Drop)]
pub struct FileList<'run> {
    list: Vec<WantedFile<'run>>,
    known: BTreeSet<FileKey<'run>>,
}

impl<'run> Model for FileList<'run> {
    ghost use Rattle.std.specs.Prelude.{List};
    ghost use Rattle.cfi_mapped.specs.declared.wanted.WantedFile.{WantedFile};
    ghost use Rattle.cfi_mapped.specs.FileLists.{AreKnown};

    ghost Value = { List WantedFile };

    ghost view = { λ files. files.list.items };

    ghost invariant = { λ files. AreKnown files.known files.list.items };
}

impl<'run> FileList<'run> {
    ghost use Rattle.std.specs.Prelude.{◌≡◌, [], OnOk, Some, map, option_map};
    ghost use Rattle.cfi_mapped.specs.Wanted.{wanted_view};
    ghost use Rattle.cfi_mapped.specs.WantedFiles.{with_file};

    /// Returns a list of no files. Does not allocate.
    pub fn new(alloc: Global) -> Self
        ensures { result ≡ [] }
    {
        FileList {
            list: Vec::new(alloc),
            known: BTreeSet::new(alloc),
        }
    }

    /// Appends a file, unless it is there. Fails where memory is refused.
    pub fn push(&mut self, file: Option<WantedFile<'run>>) -> Result<(), AllocError>
        ensures { OnOk result (map wanted_view self.new
            ≡ with_file (map wanted_view self.old) (option_map wanted_view file.entry)) }
    {
        match file {
            Some(file) => self.put(file),
            None => Ok(()),
        }
    }

    /// Appends a file, unless it is there.
    fn put(&mut self, file: WantedFile<'run>) -> Result<(), AllocError>
        ensures { OnOk result (map wanted_view self.new
            ≡ with_file (map wanted_view self.old) (Some (wanted_view file.entry))) }
    {
        self.list.reserve(1)?;
        if !self.known.insert((file.name, file.build_id, file.process))? {
            return Ok(());
        }
        self.list.push(file)?;
        Ok(())
    }

    /// Returns the files.
    pub fn into_list(self) -> Vec<WantedFile<'run>>
        ensures { result.items ≡ self.entry }
    {
        let FileList { list, .. } = self;
        list
    }
}
