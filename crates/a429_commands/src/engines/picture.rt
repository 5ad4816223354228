//! `a429 picture PROFILE REC CERT FROM TO`: the messages of a span of a transfer, as a picture.

ghost use Rattle.std.specs.Prelude.{◌≡◌, ◌||◌, ◌<◌, ◌≤◌, true, false, IfOk, IfErr, IsOkAnd, OnOk};
ghost use Rattle.std.specs.Result.{ForOk};
ghost use Rattle.a429_view.specs.Sketch.{most_steps};
ghost use Rattle.a429_word.specs.Tally.{has_failed};
ghost use Rattle.a429_commands.specs.Ends.{Ends};
ghost use Rattle.a429_commands.specs.Output.{output};
ghost use Rattle.a429_commands.specs.Verdict.{input, status_of_answer};
ghost use Rattle.a429_commands.specs.Picture.{drawing_text, of_picture, IsPicture, IsPictureFault};

use crate::engines::drawing::Drawing;
use crate::engines::text::write;
use crate::engines::verdict::{Judged, judge};
use crate::fault::RunFault;
use a429_cert::NoShelf;
use a429_record::EntryReader;
use a429_view::{Sketch, Span};
use a429_word::Tally;
use std::alloc::Global;
use std::io::{Read, Write};

/// Writes a picture of the run by which a certificate explains a recording, as SVG, and answers status 0: a row for
/// each step at which one of the entries of the span comes next, except those that only take a word or an answer. A
/// span of more than 2,000 steps is `TooLong`. Where the certificate is refused, the `NO` of `run_verify` is
/// written and nothing else, and the status is 2. `profile` is the bytes of its text. Nothing is written before
/// recording and certificate were read to their ends.
pub fn run_picture<R: Read, C: Read, W: Write>(
    alloc: Global,
    profile: &[u8],
    rec: &mut EntryReader<R>,
    cert: &mut Tally<C>,
    span: Span,
    out: &mut Tally<W>,
) -> Result<u8, RunFault>
    ensures { Ends (output W.contents out.old out.new) (of_picture (input profile.now C.remaining cert.old rec.old) span
        ((rec.new.failed || has_failed cert.new) ≡ true)) result }
{
    write(alloc, drawing_of(alloc, profile, rec, cert, span), out)
}

fn drawing_of<R: Read, C: Read>(
    alloc: Global,
    profile: &[u8],
    rec: &mut EntryReader<R>,
    cert: &mut Tally<C>,
    span: Span,
) -> Result<Drawing, RunFault>
    ensures ok { IfOk result (λ d. IsPicture (input profile.now C.remaining cert.old rec.old) span
        (status_of_answer d.judged.answer) (drawing_text d.judged.profile.codes d.sketch d.judged.answer)) }
    ensures works { OnOk result ((rec.new.failed || has_failed cert.new) ≡ false) }
    ensures err { IfErr result (IsPictureFault (input profile.now C.remaining cert.old rec.old) span
        ((rec.new.failed || has_failed cert.new) ≡ true)) }
{
    let mut sketch = Sketch::new(alloc, span);
    let judged = judge(alloc, profile, rec, cert, &mut NoShelf, &mut sketch)?;
    if is_too_long(&judged, &sketch) {
        drop(judged);
        return Err(RunFault::TooLong);
    }
    Ok(Drawing { judged, sketch })
}

// Whether more steps were sketched of a certificate that is accepted than a picture shows.
fn is_too_long(judged: &Judged, sketch: &Sketch) -> bool
    ensures yes { result ≡ true → IsOkAnd judged.now.answer (λ _. most_steps < sketch.now.steps) }
    ensures no { result ≡ false → ForOk judged.now.answer (λ _. sketch.now.steps ≤ most_steps) }
{
    match &judged.answer {
        Ok(_) => sketch.is_too_long(),
        Err(_) => false,
    }
}
