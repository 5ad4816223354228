//! Laws of the definitions that the contracts of this crate cite.

ghost use Rattle.std.specs.Prelude.{◌≡◌, ℕ, ◌+◌, ◌<◌, ◌^◌, List, length, None, true, false};
ghost use Rattle.a429_record.specs.Recording.{NeverFalls, recording_lines};
ghost use Rattle.a429_import.specs.declared.counts.Counts.{Counts};
ghost use Rattle.a429_import.specs.declared.lot.Lot.{Lot};
ghost use Rattle.a429_import.specs.declared.map.Map.{Map};
ghost use Rattle.a429_import.specs.Counts.{AreCounts};
ghost use Rattle.a429_import.specs.Import.{at_start, entries_of, imported};
ghost use Rattle.a429_import.specs.Standard.{Keeps, standard_map};
ghost use Rattle.a429_import.specs.Words.{HaveRowWords};
ghost use Rattle.a429_record.specs.declared.entry.Entry.{Entry};
ghost use Rattle.a429_record.specs.WholeRecordings.{AreEntries};
ghost use Rattle.a429_record.specs.Writing.{written_form};
ghost use Rattle.a429_import.specs.declared.parity.ParityBit.TheVariants as bit_32;
ghost use Rattle.a429_word.specs.Word.{number_at, label_of, HasOddParity};
ghost use Rattle.a429_import.specs.declared.bits.Bits.{Bits};
ghost use Rattle.a429_import.specs.declared.parity.Verdict.{Verdict};
ghost use Rattle.a429_import.specs.declared.parity.Verdict.TheVariants as verdict;
ghost use Rattle.a429_import.specs.Bits.{AreInWord, placed};
ghost use Rattle.a429_import.specs.Parity.{judged};

/// A number put at some bits is the number of these bits, where they are not reversed.
pub fn a_number_is_read_back()
    ensures { (b : Bits) (n : ℕ) → AreInWord b → b.reversed ≡ false → n < 2 ^ b.count → number_at (placed b n) b.low b.count ≡ n }
{}

/// A number at bits 1 to 8 that are reversed is the label.
pub fn a_label_is_read_back()
    ensures { (n : ℕ) → n < 2 ^ 8 → label_of (placed (record { low = 1; count = 8; reversed = true }) n) ≡ n }
{}

/// Bit 32 is made so that a word that was good has odd parity; the other bits stay, whatever is said of it.
pub fn bit_32_says_so()
    ensures good { (w : ℕ) → HasOddParity (judged verdict.Good w) }
    ensures stays { (v : Verdict) (w : ℕ) → number_at (judged v w) 1 31 ≡ number_at w 1 31 }
{}

/// Each line is counted once, and each entry is on one line of the bus pair.
pub fn counts_add_up()
    ensures lines { (n : Counts) (lots : List Lot) → AreCounts n lots
        → n.entries + n.skipped + n.empty + n.comments + n.headings + n.passed_rows + n.of_passed_channels + n.repeats ≡ n.lines }
    ensures entries { (n : Counts) (lots : List Lot) → AreCounts n lots → n.on_a + n.on_b ≡ n.entries }
{}

/// Where an export has no fault, each of its lines becomes something.
pub fn each_line_counts()
    ensures { (m : Map) (bytes : List ℕ) → (imported m bytes).fault ≡ None → length (imported m bytes).lots ≡ length (recording_lines bytes) }
{}

/// The times of the entries never fall, by any map.
pub fn times_never_fall()
    ensures { (m : Map) (bytes : List ℕ) → NeverFalls 0 (entries_of (imported m bytes).lots) }
{}

/// Where bit 32 is the one that was received, and no bits are turned, the words of the entries are those that the parts of their rows make, in
/// the order of the rows.
pub fn words_only_change_where_said()
    ensures { (m : Map) (bytes : List ℕ) → m.parity ≡ bit_32.Received → m.turning ≡ record { bytes = false; label = false }
        → HaveRowWords m (at_start m) (recording_lines bytes) (imported m bytes).lots }
{}

/// By the map of the standard form a recording that this program writes is imported as the same entries.
pub fn a_standard_recording_is_kept()
    ensures { (es : List Entry) → AreEntries es → NeverFalls 0 es → Keeps es (imported standard_map (written_form es)) }
{}
