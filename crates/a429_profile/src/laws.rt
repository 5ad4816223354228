//! Laws of the definitions that the contracts of this crate cite.

ghost use Rattle.std.specs.Prelude.{ℕ, ◌≤◌, All, length, nat_eq};
ghost use Rattle.std.specs.List.{filter, IsDistinct};
ghost use Rattle.a429_profile.specs.Profile.{Contents, IsProfile, is_for, AreInRange};
ghost use Rattle.a429_profile.specs.Clash.{all_types, all_codes, HasDistinctBits, IsNoAddress};
ghost use Rattle.a429_profile.specs.Shown.{IsShown, ShowSame};
ghost use Rattle.a429_profile.specs.declared.shown.Shown.{Shown};

/// At most one entry of a profile is for words of one label and SDI.
pub fn a_word_has_one_entry()
    ensures { (c : Contents) (label sdi : ℕ) → IsProfile c → length (filter (is_for label sdi) c.labels) ≤ 1 }
{}

/// The types of a profile differ from one another and from the ignored ones, and so do its codes and
/// its codes of partial words.
pub fn no_number_is_given_twice()
    ensures types { (c : Contents) → IsProfile c → IsDistinct nat_eq (all_types c.codes) }
    ensures codes { (c : Contents) → IsProfile c → IsDistinct nat_eq (all_codes c.codes) }
    ensures partial_codes { (c : Contents) → IsProfile c → IsDistinct nat_eq c.codes.partial_codes }
{}

/// Nothing in the label table clashes: no entry has an address label of the transfer, and none names a
/// bit twice. That no two entries are for the same words is law `a_word_has_one_entry`.
pub fn nothing_clashes()
    ensures addresses { (c : Contents) → IsProfile c → All (IsNoAddress c.codes) c.labels }
    ensures bits { (c : Contents) → IsProfile c → All (λ e. HasDistinctBits e.kind) c.labels }
{}

/// Each number of a profile lies in its range, and so does each number and text of its label table.
pub fn each_number_lies_in_its_range()
    ensures { (c : Contents) → IsProfile c → AreInRange c }
{}

/// By one profile one thing is shown of a word: the same entry, and the same status, place, number with its decimals,
/// or data field.
pub fn a_word_shows_one_thing()
    ensures { (p : Contents) (w : ℕ) (s t : Shown) → IsShown p w s → IsShown p w t → ShowSame s t }
{}
