//! Laws of the definitions that the contracts of this crate cite.

ghost use Rattle.std.specs.Prelude.{◌≡◌, ℕ, List};
ghost use Rattle.a429_profile.specs.Profile.{Contents, IsProfile};
ghost use Rattle.a429_commands.specs.Make.{words_made, IsMadeOf, SaysRunOf, CanBeSent, AreDelivered};

/// What `run_make` writes of files is a recording, and the words that it says are those that some run
/// records: one that delivers all the files, the first under number 1. So it is with the words of any
/// files of which none is refused.
pub fn what_make_writes_is_a_run_of_all_the_files()
    ensures recording { (profile text : List ℕ) (files : List (List ℕ)) → IsMadeOf profile files text → SaysRunOf profile files text }
    ensures words { (p : Contents) (files : List (List ℕ)) → IsProfile p → CanBeSent files → AreDelivered p (words_made p files) files }
{}
