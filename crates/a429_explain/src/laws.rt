//! Laws of the definitions that the contracts of this crate cite.

ghost use Rattle.a429_profile.specs.Profile.{Contents, IsProfile};
ghost use Rattle.a429_link.specs.Clean.{clean_words};
ghost use Rattle.a429_explain.specs.WithoutLoss.{Crossing, CanCross, IsWithoutLoss};

/// What `clean_run` returns for files of which it refuses none is a recording without loss.
pub fn what_clean_run_gives_is_without_loss()
    ensures { (p : Contents) (x : Crossing) → IsProfile p → CanCross x → IsWithoutLoss p (clean_words p x.max_words x.first x.files) }
{}
