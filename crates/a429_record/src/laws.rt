//! Laws of the definitions that the contracts of this crate cite.

ghost use Rattle.std.specs.Prelude.{◌≡◌, ◌≤◌, ◌<◌, ◌^◌, ℕ, List};
ghost use Rattle.csv.specs.Writing.{row_text, default_writer};
ghost use Rattle.a429_record.specs.declared.entry.Entry.{Entry};
ghost use Rattle.a429_record.specs.Binary.{IsBinary, IsText, binary_form};
ghost use Rattle.a429_record.specs.Recording.{stands_for, stands_within, whole, most_entries, IsRecordable, IsTooMany};
ghost use Rattle.a429_record.specs.declared.fault.ReadFault.{ReadFault};
ghost use Rattle.a429_record.specs.WholeRecordings.{IsWholeText, IsWholeBinary, AreEntries};
ghost use Rattle.a429_record.specs.FaultyRecordings.{StopAfter, IsFaultyText, IsFaultyBinary};
ghost use Rattle.a429_record.specs.Writing.{header_fields, entry_fields, header_text, line_text, written_form};

use crate::entry::MOST_ENTRIES;

/// The number of entries that the code allows is the one of the definitions.
pub fn the_most_entries()
    ensures { MOST_ENTRIES ≡ most_entries }
{}

/// Where there are not too many entries for a limit, bytes stand for the same under a larger one.
pub fn larger_limits()
    ensures { (most more : ℕ) (bytes : List ℕ) → most ≤ more → (IsTooMany (stands_within most bytes) → ⊥) → stands_within more bytes ≡ stands_within most bytes }
{}

/// The bytes of a text recording stand for entries without a fault exactly where they are the header and
/// the rows of the entries, at most 1,000,000, whose times never fall.
pub fn whole_texts()
    ensures there { (bytes : List ℕ) (es : List Entry) → IsText bytes → IsWholeText bytes es → stands_for bytes ≡ whole es }
    ensures only { (bytes : List ℕ) (es : List Entry) → IsText bytes → stands_for bytes ≡ whole es → IsWholeText bytes es }
{}

/// Those of a binary recording do exactly where they are its first eight bytes and the pieces of such entries.
pub fn whole_binaries()
    ensures there { (bytes : List ℕ) (es : List Entry) → IsWholeBinary bytes es → stands_for bytes ≡ whole es }
    ensures only { (bytes : List ℕ) (es : List Entry) → IsBinary bytes → stands_for bytes ≡ whole es → IsWholeBinary bytes es }
{}

/// The bytes of a text recording stand for entries and then a fault exactly where the header is missing, or
/// where after it and the rows of these entries comes a row that is one too many, is no entry, or has a time
/// below the one before.
pub fn texts_with_a_fault()
    ensures there { (bytes : List ℕ) (es : List Entry) (f : ReadFault) → IsText bytes → IsFaultyText bytes es f → StopAfter bytes es f }
    ensures only { (bytes : List ℕ) (es : List Entry) (f : ReadFault) → IsText bytes → StopAfter bytes es f → IsFaultyText bytes es f }
{}

/// Those of a binary recording do exactly where such a piece comes after the pieces of these entries. A piece
/// that is cut is no entry either.
pub fn binaries_with_a_fault()
    ensures there { (bytes : List ℕ) (es : List Entry) (f : ReadFault) → IsFaultyBinary bytes es f → StopAfter bytes es f }
    ensures only { (bytes : List ℕ) (es : List Entry) (f : ReadFault) → IsBinary bytes → StopAfter bytes es f → IsFaultyBinary bytes es f }
{}

/// The text that is written of entries that a recording may hold stands for them.
pub fn written_is_read_back()
    ensures { (es : List Entry) → AreEntries es → IsRecordable es → stands_for (written_form es) ≡ whole es }
{}

/// The binary recording that is written of such entries does too.
pub fn packed_is_read_back()
    ensures { (es : List Entry) → AreEntries es → IsRecordable es → stands_for (binary_form es) ≡ whole es }
{}

/// The lines are those that `csv` writes of the same fields: none of them needs quotes.
pub fn lines_are_those_of_csv()
    ensures header { row_text default_writer header_fields ≡ header_text }
    ensures entry { (e : Entry) → e.time < 2 ^ 64 → row_text default_writer (entry_fields e) ≡ line_text e }
{}
