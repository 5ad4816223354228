//! A certificate that was judged, and what was sketched of its run.

ghost use Rattle.std.specs.Prelude.{◌≤◌};
ghost use Rattle.std.specs.Result.{ForOk};
ghost use Rattle.a429_view.specs.Sketch.{most_steps};

use crate::engines::text::Text;
use crate::engines::verdict::Judged;
use a429_view::{Sketch, put_no, put_picture};
use a429_word::Sheet;
use std::io::Write;

/// What `picture` writes: the steps of a run, or why its certificate is refused. There are no more steps than a picture
/// shows.
#[derive(Drop)]
pub(crate) struct Drawing {
    pub(crate) judged: Judged,
    pub(crate) sketch: Sketch,
    ghost few: { ForOk judged.answer (λ _. sketch.steps ≤ most_steps) },
}

impl Text for Drawing {
    ghost use Rattle.std.specs.Prelude.{◌≡◌};
    ghost use Rattle.a429_commands.specs.Picture.{drawing_text};
    ghost use Rattle.a429_commands.specs.Verdict.{status_of_answer};

    ghost says = { λ d status text. (status ≡ status_of_answer d.judged.answer) × (text ≡ drawing_text d.judged.profile.codes d.sketch d.judged.answer) };

    ghost begins = { λ d text. text ≡ drawing_text d.judged.profile.codes d.sketch d.judged.answer };

    fn put<W: Write>(&self, sheet: &mut Sheet<'_, W>) -> u8 {
        match &self.judged.answer {
            Ok(_) => {
                put_picture(sheet, &self.judged.profile, self.sketch.rows());
                0
            }
            Err(fault) => {
                put_no(sheet, *fault);
                2
            }
        }
    }
}
