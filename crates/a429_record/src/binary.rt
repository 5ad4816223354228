//! The bytes of an entry in a binary recording.

ghost use Rattle.std.specs.Prelude.{◌≡◌, ◌≤◌, ◌↔◌, length, take, drop, IsTrue};
ghost use Rattle.a429_record.specs.Binary.{magic, big_endian, entry_bytes, piece_entry, entry_piece};

use crate::entry::Entry;
use crate::row::bus_of;
use a429_word::Word;
use byteorder::{BigEndian, ByteOrder};

/// What a binary recording begins with (profile).
pub const MAGIC: [u8; 8] = *b"A429REC1";

/// How many bytes an entry has (profile).
pub const ENTRY_BYTES: usize = 13;

// The place of its bus.
const BUS: usize = 8;

// The place of its word.
const WORD: usize = 9;

/// Whether the bytes are those that a binary recording begins with, or the first of them.
pub fn begins_magic(bytes: &[u8]) -> bool
    requires { length bytes.now ≤ 8 }
    ensures { IsTrue result ↔ (bytes.now ≡ take (length bytes.now) magic) }
{
    bytes == &MAGIC[..bytes.len()]
}

/// The entry of a piece, where it has as many bytes as an entry and names a bus.
pub fn entry_of_piece(piece: &[u8]) -> Option<Entry>
    ensures { result ≡ piece_entry piece.now }
{
    if piece.len() != ENTRY_BYTES {
        return None;
    }
    let bus = bus_of(&piece[BUS..WORD])?;
    Some(Entry {
        time: piece_time(piece),
        bus,
        word: piece_word(piece),
    })
}

// The time of a piece.
fn piece_time(piece: &[u8]) -> u64
    requires { length piece.now ≡ entry_bytes }
    ensures { result ≡ big_endian (take 8 piece.now) }
{
    BigEndian::read_u64(piece)
}

// Its word.
fn piece_word(piece: &[u8]) -> Word
    requires { length piece.now ≡ entry_bytes }
    ensures { result ≡ big_endian (drop 9 piece.now) }
{
    Word::from_u32(BigEndian::read_u32(&piece[WORD..]))
}

/// The bytes of an entry.
pub fn piece_of(entry: Entry) -> [u8; ENTRY_BYTES]
    ensures { result ≡ entry_piece entry }
{
    let mut piece = [0; ENTRY_BYTES];
    BigEndian::write_u64(&mut piece, entry.time);
    piece[BUS] = entry.bus.letter().as_bytes()[0];
    BigEndian::write_u32(&mut piece[WORD..], entry.word.to_u32());
    piece
}
