//! What no run records.

ghost use Rattle.std.specs.Prelude.{ℕ, List};
ghost use Rattle.a429_profile.specs.Profile.{Contents, IsProfile};
ghost use Rattle.a429_link.specs.declared.seen.Seen.{Seen};
ghost use Rattle.a429_explain.specs.declared.verdict.Reason.{Reason};
ghost use Rattle.a429_contradiction.specs.Contradiction.{ContradictsAt, HasNoRun};

use a429_link::laws::attempts::{
    a_start_word_may_come, a_whole_block_is_a_unit, all_data_words_carry_bytes,
    what_contradicts_is_impossible,
};

/// What contradicts the words before it, no run records after them.
pub fn what_contradicts_has_no_run()
    ensures { (p : Contents) (items : List Seen) (i : ℕ) (reason : Reason) → IsProfile p → ContradictsAt p items i reason → HasNoRun p items i }
{
    a_whole_block_is_a_unit();
    all_data_words_carry_bytes();
    a_start_word_may_come();
    what_contradicts_is_impossible();
}
