//! An opener that says nothing.
ghost use Rattle.std.specs.Prelude.{⊤};

use cfi_mapped::opener::Opener;
use cfi_mapped::wanted::LinkFolder;

/// Opens what another opener does, and says nothing: for files that are opened again, of which that
/// one has said what there was to say.
#[derive(Drop)]
pub(crate) struct QuietOpener<'a, O: Opener> {
    pub(crate) opener: &'a O,
}

impl<O: Opener> Opener for QuietOpener<'_, O> {
    type File = O::File;

    ghost may_open = { λ quiet place opened. O.may_open quiet.opener.now place opened };

    ghost has_said = { λ _ _. ⊤ };

    fn open(&self, name: &[u8]) -> Option<O::File> {
        self.opener.find(name)
    }

    fn find(&self, name: &[u8]) -> Option<O::File> {
        self.opener.find(name)
    }

    fn open_copy(&self, build: &[u8]) -> Option<O::File> {
        self.opener.open_copy(build)
    }

    fn open_debug(&self, build: &[u8]) -> Option<O::File> {
        self.opener.open_debug(build)
    }

    fn open_linked(&self, folder: LinkFolder, name: &[u8], link: &[u8]) -> Option<O::File> {
        self.opener.open_linked(folder, name, link)
    }

    fn open_kernel_symbols(&self) -> Option<O::File> {
        self.opener.open_kernel_symbols()
    }

    fn open_code_map(&self, process: u32) -> Option<O::File> {
        self.opener.open_code_map(process)
    }

    fn tell_missing(&self, _name: &[u8]) {}

    fn tell_without_stacks(&self) {}

    fn tell_lost(&self, _records: u64, _samples: u64) {}

    ghost same_bytes = { λ file. O.same_bytes file };
}
