//! Laws of the definitions that the contracts of this crate cite.

ghost use Rattle.std.specs.Prelude.{◌≡◌, ◌≤◌, ◌++◌, ℕ, List, [], length, Option, Some, false};
ghost use Rattle.std.specs.List.{AllByRecursion};
ghost use Rattle.a429_profile.specs.Profile.{Contents, IsProfile};
ghost use Rattle.a429_link.specs.declared.file.FileBytes.{FileBytes};
ghost use Rattle.a429_link.specs.declared.seen.Seen.{Seen};
ghost use Rattle.a429_link.specs.Run.{delivered};
ghost use Rattle.a429_cert.specs.declared.fault.CertFault.{CertFault};
ghost use Rattle.a429_cert.specs.declared.line.CertLine.{CertLine};
ghost use Rattle.a429_cert.specs.Line.{spelling, IsLine, IsHeld, SpellsLine, Reads};
ghost use Rattle.a429_cert.specs.declared.version.Version.TheVariants.{One, Two};
ghost use Rattle.a429_cert.specs.Version.{headed, gives_up};
ghost use Rattle.a429_cert.specs.CutLines.{cut};
ghost use Rattle.a429_cert.specs.Explained.{Explains, Explanation, AreInSomeRun, items_of};
ghost use Rattle.a429_cert.specs.Series.{AreAdded, HasJoined, IsOneRun, Joins, Part, SeriesValue, joined, no_parts};
ghost use Rattle.a429_record.specs.Recording.{Recording};
ghost use Rattle.a429_cert.specs.Fault.{IsFirstCertFault, SaysLine};

/// A line has one spelling, and no two lines have the same.
pub fn a_line_has_one_spelling()
    ensures text { (v w : List ℕ) (l : CertLine) → SpellsLine v l → SpellsLine w l → v ≡ w }
    ensures line { (text : List ℕ) (l m : CertLine) → SpellsLine text l → SpellsLine text m → l ≡ m }
{}

/// What `write_line` appends of a line, `read_line` reads as that line.
pub fn written_is_read_back()
    ensures { (l : CertLine) (read : Option CertLine) → IsLine l → IsHeld l → Reads (spelling l) read → read ≡ Some l }
{}

/// What `read_line` reads as a line, `write_line` appends of it.
pub fn read_is_written_back()
    ensures { (text : List ℕ) (l : CertLine) → Reads text (Some l) → IsLine l × (spelling l ≡ text) }
{}

/// A line has no control characters, so no line feed, and at most 2,287 bytes.
pub fn lines_are_short_ascii()
    ensures ascii { (l : CertLine) → IsLine l → IsHeld l → AllByRecursion (λ b. (32 ≤ b) × (b ≤ 126)) (spelling l) }
    ensures short { (l : CertLine) → IsLine l → IsHeld l → length (spelling l) ≤ 2287 }
{}

/// What `read_line` reads as a line has at most 2,287 bytes, so a `LineReader` cuts no line of a certificate that
/// explains a recording.
pub fn lines_are_not_cut()
    ensures read { (text : List ℕ) (l : CertLine) → Reads text (Some l) → length text ≤ 2287 }
    ensures line { (line : Option (List ℕ)) (l : CertLine) → SaysLine line l → cut line ≡ line }
{}

/// What explains a recording has no fault, so `verify` refuses it only when out of memory.
pub fn what_explains_has_no_fault()
    ensures { (p : Contents) (text : List ℕ) (e : Explanation p text) (f : CertFault) → ¬ IsFirstCertFault p text e.items f }
{}

/// What a certificate of version 1 explains, it explains by a run that gives no file up, and the same lines under the
/// first line of version 2 explain it by that run.
pub fn version_2_explains_what_version_1_does()
    ensures same { (p : Contents) (rest : List ℕ) (e : Explanation p (headed One rest)) → Explains p (headed Two rest) e.items e.first e.steps }
    ensures kept { (p : Contents) (rest : List ℕ) (e : Explanation p (headed One rest)) → gives_up e.steps ≡ false }
{}

/// What a certificate explains, some run records: exactly these words, and it delivers the files that the certificate's
/// steps do. That every run which records them delivers the same is `every_run` of `verify`.
pub fn what_explains_is_a_run()
    ensures { (p : Contents) (text : List ℕ) (e : Explanation p text) → AreInSomeRun p e.items (delivered p e.first e.steps) }
{}

/// Parts that a `Series` has taken, one after the other, are one run: some run records exactly what is recorded in all of
/// them, and each run that does delivers exactly the files that the series answers, each one that its source offered.
pub fn parts_are_one_run()
    ensures { (p : Contents) → IsProfile p → (parts : List Part) (s : SeriesValue) → AreAdded (no_parts p) parts s → IsOneRun p (joined parts) s.files }
{}

/// The same for a caller that adds part after part: what holds before the first part, what each part adds, and what it says.
pub fn each_part_goes_on()
    ensures none { (p : Contents) → HasJoined (no_parts p) [] [] }
    ensures more { (old new : SeriesValue) (text : List ℕ) (r : Recording) (items : List Seen) (files : List FileBytes) → HasJoined old items files
        → (j : Joins old (Some text) (Some r) new) → HasJoined new (items ++ items_of r.entries) (files ++ j.files) }
    ensures run { (s : SeriesValue) (items : List Seen) (files : List FileBytes) → IsProfile s.profile → HasJoined s items files
        → IsOneRun s.profile items s.files }
{}
