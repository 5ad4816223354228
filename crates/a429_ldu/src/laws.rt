//! Laws of the definitions that the contracts of this crate cite.

ghost use Rattle.std.specs.Prelude.{◌≡◌, ◌↔◌, ◌≤◌, ◌<◌, ◌+◌, ◌*◌, ◌-◌, ◌^◌, ℕ, List, Some, length, IsTrue, true};
ghost use Rattle.std.specs.List.{concat};
ghost use Rattle.a429_word.specs.declared.bus.Bus.{Bus};
ghost use Rattle.a429_profile.specs.declared.codes.Codes.{Codes};
ghost use Rattle.a429_profile.specs.declared.codes.Check.{Check};
ghost use Rattle.a429_profile.specs.Profile.{Contents, IsProfile};
ghost use Rattle.a429_ldu.specs.declared.forms.Form.{Form};
ghost use Rattle.a429_ldu.specs.declared.sight.Sight.TheVariants as sight;
ghost use Rattle.a429_ldu.specs.Form.{IsForm, IsFree, IsTransferForm, IsInRange, bus_of, word_number, is_free, form_of};
ghost use Rattle.a429_ldu.specs.Sight.{sight_of};
ghost use Rattle.a429_ldu.specs.Carried.{CarryBytes, bytes_carried};
ghost use Rattle.a429_ldu.specs.CheckWord.{check_of, agrees, check_by_register};
ghost use Rattle.a429_ldu.specs.declared.fault.LduFault.{LduFault};
ghost use Rattle.a429_ldu.specs.Ldu.{LduValue, most_data_words, most_unit_bytes, HasUnitBytes, IsLdu, IsFirstLduFault, bytes_of};
ghost use Rattle.a429_ldu.specs.Cut.{most_units, room, pieces, HaveSizes};

use crate::cutting::MOST_UNITS;
use crate::ldu::{MOST_DATA_WORDS, MOST_UNIT_BYTES};

/// The word of a form is seen as this form on the form's bus, and so is not free, for each profile.
pub fn a_form_is_read_back()
    ensures seen { (p : Contents) (x : Form) → IsProfile p → IsInRange x
        → sight_of p.codes (bus_of x) (word_number p.codes x) ≡ sight.Form x }
    ensures form { (p : Contents) (x : Form) → IsProfile p → IsInRange x → IsForm p.codes (bus_of x) (word_number p.codes x) x }
    ensures kept { (p : Contents) (x : Form) → IsProfile p → IsInRange x → ¬ IsFree p.codes (bus_of x) (word_number p.codes x) }
{}

/// A word has one form on a bus.
pub fn a_word_has_one_form()
    ensures { (p : Contents) (b : Bus) (w : ℕ) (x y : Form) → IsProfile p → IsForm p.codes b w x → IsForm p.codes b w y → x ≡ y }
{}

/// A form has one word.
pub fn a_form_has_one_word()
    ensures { (c : Codes) (b : Bus) (v w : ℕ) (x : Form) → IsForm c b v x → IsForm c b w x → v ≡ w }
{}

/// What code computes of a word is what the table of forms says.
pub fn forms_are_computed()
    ensures free { (c : Codes) (b : Bus) (w : ℕ) → IsTrue (is_free c b w) ↔ IsFree c b w }
    ensures form { (p : Contents) (b : Bus) (w : ℕ) (x : Form) → IsProfile p
        → (form_of p.codes b w ≡ Some x) ↔ IsTransferForm p.codes b w x }
{}

/// The bytes that code computes are those that the words carry, and words carry one list of bytes.
pub fn bytes_are_computed()
    ensures carried { (p : Contents) (ws bs : List ℕ) → IsProfile p → (bytes_carried p.codes ws ≡ Some bs) ↔ CarryBytes p.codes ws bs }
    ensures one { (p : Contents) (ws xs ys : List ℕ) → IsProfile p → CarryBytes p.codes ws xs → CarryBytes p.codes ws ys → xs ≡ ys }
{}

/// The limits in the code are those of the definitions, and a unit of 255 words has room for `MOST_UNIT_BYTES`
/// bytes.
pub fn limits_are_those_of_the_definitions()
    ensures words { MOST_DATA_WORDS ≡ most_data_words }
    ensures bytes { MOST_UNIT_BYTES ≡ most_unit_bytes }
    ensures units { MOST_UNITS ≡ most_units }
    ensures room { room (most_data_words + 2) ≡ most_unit_bytes }
{}

/// A link data unit has 1 to 632 bytes.
pub fn units_have_few_bytes()
    ensures { (p : Contents) (u : LduValue) → IsProfile p → IsLdu p u → HasUnitBytes (bytes_of p.codes u) }
{}

/// A link data unit has no fault, and words that make none have at most one first fault. So `Ldu::new` returns a
/// fault exactly where there is one.
pub fn a_unit_has_no_fault()
    ensures none { (p : Contents) (u : LduValue) (f : LduFault) → IsProfile p → IsLdu p u → ¬ IsFirstLduFault p u.check u.words f }
    ensures one { (p : Contents) (k : ℕ) (ws : List ℕ) (f g : LduFault) → IsFirstLduFault p k ws f → IsFirstLduFault p k ws g → f ≡ g }
{}

/// The check word of a link data unit agrees with its bytes.
pub fn a_unit_agrees()
    ensures { (p : Contents) (u : LduValue) → IsProfile p → IsLdu p u → agrees p.check (bytes_of p.codes u) u.check ≡ true }
{}

/// A register that takes bit after bit ends with the check word.
pub fn a_register_divides()
    ensures { (k : Check) (bytes : List ℕ) → k.poly < 2 ^ 16 → k.init < 2 ^ 16 → check_by_register k bytes ≡ check_of k bytes }
{}

/// The pieces of a file are the file, and each but the last takes as many bytes as there is room for,
/// which is the most that the semi-octets of full words make.
pub fn pieces_are_the_file()
    ensures whole { (n size : ℕ) (bs : List ℕ) → 1 ≤ size → 1 ≤ length bs → length bs ≤ n * size → concat (pieces n size bs) ≡ bs }
    ensures sizes { (n size : ℕ) (bs : List ℕ) → 1 ≤ size → 1 ≤ length bs → length bs ≤ n * size → HaveSizes size (pieces n size bs) }
    ensures room { (max_words n : ℕ) → (n ≤ room max_words) ↔ (2 * n ≤ 5 * (max_words - 2)) }
{}
