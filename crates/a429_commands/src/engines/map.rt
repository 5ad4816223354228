//! Reads the bytes of a map.

ghost use Rattle.std.specs.Prelude.{IfOk, IfErr};
ghost use Rattle.a429_commands.specs.Map.{IsMapOf, IsMapFault};

use crate::fault::RunFault;
use a429_import::{Map, MapFault, read_map};
use std::alloc::Global;
use std::str;

/// The map that the bytes are the text of. Bytes that are no text are no TOML.
pub(crate) fn map_of(alloc: Global, bytes: &[u8]) -> Result<Map, RunFault>
    ensures ok { IfOk result (IsMapOf bytes.now) }
    ensures err { IfErr result (IsMapFault bytes.now) }
{
    let Ok(text) = str::from_utf8(bytes) else {
        return Err(RunFault::Map(MapFault::NotToml));
    };
    match read_map(alloc, text) {
        Ok(map) => Ok(map),
        Err(MapFault::OutOfMemory) => Err(RunFault::Memory),
        Err(fault) => Err(RunFault::Map(fault)),
    }
}
