//! The files that a sink delivers.

ghost use Rattle.std.specs.Prelude.{◌≡◌, [], OnOk, OnErr};
ghost use Rattle.a429_link.specs.Sink.{put, emptied};

use crate::file::{Bytes, FileBytes};
use std::alloc::{AllocError, Global};
use std::marker::Model;
use std::mem;

/// The files that are whole, and the bytes of one that is not.
#[derive(Drop)]
pub(crate) struct Received {
    files: Vec<FileBytes>,
    open_bytes: Vec<u8>,
}

impl Model for Received {
    ghost use Rattle.a429_link.specs.Sink as model;

    ghost Value = { model.Received };

    ghost view = { λ s. record { files = s.files.items; open_bytes = s.open_bytes.items } };
}

impl Received {
    pub(crate) fn new(alloc: Global) -> Received
        ensures { result ≡ record { files = []; open_bytes = [] } }
    {
        Received {
            files: Vec::new(alloc),
            open_bytes: Vec::new(alloc),
        }
    }

    /// Puts the bytes of a link data unit after those of its file. The final one closes the file, under
    /// this number.
    pub(crate) fn put(
        &mut self,
        alloc: Global,
        number: u8,
        bytes: &[u8],
        is_final: bool,
    ) -> Result<(), AllocError>
        ensures done { OnOk result (self.new ≡ put number bytes.now is_final self.old) }
        ensures unchanged { OnErr result (self.new ≡ self.old) }
    {
        self.files.try_reserve(1)?;
        self.open_bytes.extend_from_slice(bytes)?;
        if is_final {
            let bytes = Bytes::new(mem::replace(&mut self.open_bytes, Vec::new(alloc)));
            self.files.push_reserved(FileBytes { number, bytes });
        }
        Ok(())
    }

    /// The same, of a link data unit that begins a file: the bytes of one that is not whole are dropped.
    pub(crate) fn put_first(
        &mut self,
        alloc: Global,
        number: u8,
        bytes: &[u8],
        is_final: bool,
    ) -> Result<(), AllocError>
        ensures done { OnOk result (self.new ≡ put number bytes.now is_final (emptied self.old)) }
        ensures unchanged { OnErr result (self.new ≡ self.old) }
    {
        let open_bytes = mem::replace(&mut self.open_bytes, Vec::new(alloc));
        let done = self.put(alloc, number, bytes, is_final);
        if done.is_err() {
            self.open_bytes = open_bytes;
        }
        done
    }

    pub(crate) fn files(&self) -> &[FileBytes]
        ensures { result.now ≡ self.now.files }
    {
        self.files.as_slice()
    }

    /// Hands the files out.
    pub(crate) fn take_files(&mut self, alloc: Global) -> Vec<FileBytes>
        ensures files { result.items ≡ self.old.files }
        ensures rest { self.new ≡ record (self.old) { files = [] } }
    {
        mem::replace(&mut self.files, Vec::new(alloc))
    }
}
