//! What a certificate that explains a recording extracts from it.

ghost use Rattle.std.specs.Prelude.{◌≡◌};

use a429_link::FileBytes;
use std::marker::Model;

/// The files that have crossed, in their order. Contracts see them as a list.
#[derive(Debug, Drop)]
pub struct Verified {
    files: Vec<FileBytes>,
}

impl Model for Verified {
    ghost use Rattle.std.specs.Prelude.{List};
    ghost use Rattle.a429_link.specs.declared.file.FileBytes.{FileBytes};

    ghost Value = { List FileBytes };

    ghost view = { λ v. v.files.items };
}

impl Verified {
    /// These files, which a link has delivered.
    pub fn new(files: Vec<FileBytes>) -> Verified
        ensures { result ≡ files.items }
    {
        Verified { files }
    }

    /// The files, lent.
    pub fn files(&self) -> &[FileBytes]
        ensures { result.now ≡ self.now }
    {
        self.files.as_slice()
    }

    /// The files, handed over.
    pub fn into_files(self) -> Vec<FileBytes>
        ensures { result.items ≡ self }
    {
        let Verified { files } = self;
        files
    }
}
