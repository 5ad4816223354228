//! What is put into the buffers of the caller.

ghost use Rattle.std.specs.Prelude.{◌≡◌, ◌≤◌, List, length, take, map, IfOk};
ghost use Rattle.std.specs.List.{flat_map};
ghost use Rattle.a429_c.specs.Buffers.{Holds, size_of, sizes_of, bytes_of};

use crate::fault::Fault;
use crate::found::FileSize;
use a429_link::FileBytes;
use std::alloc::Global;

/// Puts bytes to the front of a buffer, if it has room for them. How many they are.
pub fn put_bytes(bytes: &[u8], buffer: &mut [u8]) -> usize
    ensures { Holds buffer.new result bytes.now }
{
    if bytes.len() <= buffer.len() {
        buffer[..bytes.len()].copy_from_slice(bytes);
    }
    bytes.len()
}

/// Puts the numbers and lengths of files to the front of a buffer, if it has room for them. How many they are.
pub fn put_sizes(files: &[FileBytes], buffer: &mut [FileSize]) -> usize
    ensures { Holds buffer.new result (sizes_of files.now) }
{
    if files.len() <= buffer.len() {
        put_each(files, buffer);
    }
    files.len()
}

// The same, where it has room for them.
fn put_each(files: &[FileBytes], buffer: &mut [FileSize])
    requires { length files.now ≤ length buffer.old }
    ensures sizes { take (length files.now) buffer.new ≡ sizes_of files.now }
    ensures room { length buffer.new ≡ length buffer.old }
{
    for i in 0..files.len() {
        buffer[i] = size_of(&files[i]);
    }
}

// The number and the length of a file.
fn size_of(file: &FileBytes) -> FileSize
    ensures { result ≡ size_of file.now }
{
    FileSize {
        length: file.bytes.as_slice().len(),
        number: file.number,
    }
}

/// The bytes of files, one after the other.
pub fn joined(alloc: Global, files: &[FileBytes]) -> Result<Vec<u8>, Fault>
    ensures { IfOk result (λ bytes. bytes.items ≡ bytes_of files.now) }
{
    let mut bytes = Vec::new(alloc);
    for file in files {
        bytes.extend_from_slice(file.bytes.as_slice())?;
    }
    Ok(bytes)
}
