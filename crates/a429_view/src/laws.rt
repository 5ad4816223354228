//! Laws of the definitions that the contracts of this crate cite.

ghost use Rattle.std.specs.Prelude.{◌≡◌, ℕ, List};
ghost use Rattle.a429_cert.specs.Explained.{items_of};
ghost use Rattle.a429_link.specs.Observer.{AreAllowed, at_first};
ghost use Rattle.a429_link.specs.Run.{RunOf, delivered_by, trace};
ghost use Rattle.a429_link.specs.Trace.{files_of};
ghost use Rattle.a429_profile.specs.Profile.{Contents};
ghost use Rattle.a429_profile.specs.declared.codes.Codes.{Codes};
ghost use Rattle.a429_record.specs.declared.entry.Entry.{Entry};
ghost use Rattle.a429_view.specs.declared.mark.Span.{Span};
ghost use Rattle.a429_view.specs.declared.survey.Survey.{Survey};
ghost use Rattle.a429_view.specs.Show.{IsShowLine, AreShowLines};
ghost use Rattle.a429_view.specs.BlockFiles.{NameFiles, delivering_rows};
ghost use Rattle.a429_view.specs.Survey.{IsSurvey, survey_text, text_of};
ghost use Rattle.a429_view.specs.Crossings.{crossings, delivered_over, numbers, rows_explained, rows_over, ExplainedRun, HasAll, RunOver};

/// After each step of a run, the rows so far say `file N crosses` of exactly the files delivered so far, each once and
/// in order, where the span has all entries. The rows of the run by which a certificate explains a recording say it of
/// exactly the files that `verify` answers.
pub fn what_crosses_is_delivered()
    ensures run { (p : Contents) (entries : List Entry) (span : Span) (r : RunOver p entries) → HasAll span entries → crossings (rows_over span r) ≡ numbers (delivered_over r) }
    ensures yes { (p : Contents) (entries : List Entry) (span : Span) (e : ExplainedRun p entries) → HasAll span entries → crossings (rows_explained span e) ≡ numbers e.files }
{}

/// Of entries that are each allowed after those before them, the rows `acknowledged` whose link data unit is the last of its
/// file have, in order, the numbers of the files that the sink delivers: those of the line `ONLY` of a trace. Each run that
/// records these words delivers files of these numbers, in this order, and no others.
pub fn acknowledged_rows_name_the_files()
    ensures sink { (p : Contents) (es : List Entry) → AreAllowed p at_first (items_of es) → NameFiles (delivering_rows p es) (files_of p (items_of es)) }
    ensures run { (p : Contents) (es : List Entry) (r : RunOf p) → trace r.steps ≡ items_of es → NameFiles (delivering_rows p es) (delivered_by r) }
{}

/// The text of a survey is that of the entries that were counted: of any entries that have its counts.
pub fn a_survey_has_the_text_of_its_entries()
    ensures { (c : Codes) (s : Survey) (es : List Entry) → IsSurvey c s es → text_of s ≡ survey_text c es }
{}

/// An entry of a recording has one line of `show` by a profile, and the entries have one text.
pub fn what_is_shown_has_one_text()
    ensures line { (p : Contents) (e : Entry) (a b : List ℕ) → IsShowLine p e a → IsShowLine p e b → a ≡ b }
    ensures text { (p : Contents) (es : List Entry) (a b : List ℕ) → AreShowLines p es a → AreShowLines p es b → a ≡ b }
{}
