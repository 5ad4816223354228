//! A recording of two transfers of the same file, and its pieces in memory. More of them are on the page `scripts/cases/history.md`.

use crate::calls::sample;
use a429_profile::Profile;
use a429_record::EntryReader;
use a429_sink::{MemoryPieces, Piece, PieceSummary, put_pieces};
use a429_word::Tally;
use std::alloc::Global;

// File 1 of one byte, and after an answer that nobody asked for the same again.
const RECORDING: &str = "time,bus,word
0,A,41410323
0,B,C24103A3
0,A,60010123
0,A,12004123
0,A,71A3F523
0,B,450101A3
0,B,C24103A3
0,A,41410323
0,B,C24103A3
0,A,60010123
0,A,12004123
0,A,71A3F523
0,B,450101A3
";

// Whether a piece has so many entries and the file of the byte 41, and this is said of it.
fn has_file(piece: &Piece, said: &PieceSummary, entries: usize) -> bool {
    piece.entries.len() == entries
        && said.entries == entries
        && !said.begun_before
        && said.units.is_empty()
        && has_byte(piece)
        && matches!(said.files.as_slice(), [size] if size.number == 1 && size.bytes == 1)
}

fn has_byte(piece: &Piece) -> bool {
    matches!(piece.files.as_slice(), [file] if file.number == 1 && file.bytes.as_slice() == b"A".as_slice())
}

// Whether there are two such pieces, the first of which stops at the answer.
fn are_the_two(pieces: &[Piece], said: &[PieceSummary]) -> bool {
    match (pieces, said) {
        ([first, second], [of_first, of_second]) => {
            has_file(first, of_first, 7)
                && has_file(second, of_second, 6)
                && matches!(&of_first.stop, Some(stop) if stop.entry == 6)
                && of_second.stop.is_none()
        }
        _ => false,
    }
}

// Whether they are put in memory.
fn are_put(alloc: Global, profile: &Profile) -> bool {
    let mut pieces = MemoryPieces::new(alloc);
    let rec = Tally::new(RECORDING.as_bytes(), u64::MAX);
    let mut reader = EntryReader::of_most(alloc, rec, usize::MAX);
    match put_pieces(alloc, profile, &mut reader, &mut pieces) {
        Ok(said) => are_the_two(pieces.pieces(), said.as_slice()),
        Err(_) => false,
    }
}

#[test]
fn pieces_in_memory(rt: HostRuntime) {
    let profile = sample(&rt);
    assert!(rt; are_put(rt.alloc(), &profile));
}
