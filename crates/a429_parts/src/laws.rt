//! What may be left out of a recording, and what its parts are.

ghost use Rattle.std.specs.Prelude.{◌≡◌, ◌++◌, ℕ, List, drop, take};
ghost use Rattle.a429_profile.specs.Profile.{Contents};
ghost use Rattle.a429_link.specs.declared.seen.Seen.{Seen};
ghost use Rattle.a429_link.specs.Run.{RunOf, delivered_by, trace};
ghost use Rattle.a429_record.specs.declared.entry.Entry.{Entry};
ghost use Rattle.a429_link.specs.Trace.{files_of};
ghost use Rattle.a429_cert.specs.Explained.{items_of};
ghost use Rattle.a429_parts.specs.Kept.{IsWithoutFree, HasRun, kept};
ghost use Rattle.a429_parts.specs.Cutting.{IsPlace};
ghost use Rattle.a429_parts.specs.Alone.{IsRunAlone};

/// Leaving free words out of a recording changes neither whether there is a run that records it nor the files
/// that such a run delivers. With the law that all runs of one recording deliver the same files: the files of
/// every run stay the same.
pub fn free_words_change_nothing()
    ensures left_out { (p : Contents) (r : RunOf p) (items : List Seen) → IsWithoutFree p.codes (trace r.steps) items → HasRun p items (delivered_by r) }
    ensures put_in { (p : Contents) (r : RunOf p) (items : List Seen) → IsWithoutFree p.codes items (trace r.steps) → HasRun p items (delivered_by r) }
{}

/// Where only the entries are kept whose words have the label that the transfer has on their bus, free words
/// alone are left out.
pub fn only_free_words_are_left_out()
    ensures { (p : Contents) (entries : List Entry) → IsWithoutFree p.codes (items_of entries) (items_of (kept p.codes entries)) }
{}

/// Where a run records a recording, each part of it is recorded by a run of its own: the words up to any place, and the words
/// from a place where `cut` may cut up to any later one. The files that the part delivers are those by which the files of
/// the recording grow. So where a part has no run, the whole recording has none.
pub fn each_part_has_a_run()
    ensures first { (p : Contents) (r : RunOf p) (part behind : List Seen) → trace r.steps ≡ part ++ behind → HasRun p part (files_of p part) }
    ensures next { (p : Contents) (r : RunOf p) (n : ℕ) (part behind : List Seen) → IsPlace p (trace r.steps) n → drop n (trace r.steps) ≡ part ++ behind → IsRunAlone p (take n (trace r.steps)) part }
{}
