//! Laws of a sink by itself, whatever its source sends, and of recordings that begin anywhere in a run.

ghost use Rattle.std.specs.Prelude.{◌≡◌, ◌↔◌, ◌⊎◌, ◌++◌, ℕ, suc, List, [], ◌∷◌, Contains, Some, map, slice_get, take};
ghost use Rattle.a429_word.specs.declared.bus.Bus.TheVariants as bus;
ghost use Rattle.a429_profile.specs.Profile.{Contents, IsProfile};
ghost use Rattle.a429_ldu.specs.declared.forms.Form.{Form};
ghost use Rattle.a429_link.specs.declared.file.FileBytes.{FileBytes};
ghost use Rattle.a429_link.specs.declared.number.UnitNumber.{UnitNumber};
ghost use Rattle.a429_link.specs.declared.seen.Seen.{Seen};
ghost use Rattle.a429_link.specs.Allowed.{kind_of};
ghost use Rattle.a429_link.specs.Attempt.{HasNumber, latest};
ghost use Rattle.a429_link.specs.Group.{AcksOnly, ArePartsOfWhole, IsFurther, IsGroup, IsOneUnit};
ghost use Rattle.a429_link.specs.Implied.{sizes_of};
ghost use Rattle.a429_link.specs.Observer.{Allows, Observer, sink_of};
ghost use Rattle.a429_link.specs.Run.{BeginsARun, IsPartOfARun, RunOf, delivered_by, trace};
ghost use Rattle.a429_link.specs.Sink.{MayAnswer, Quiet, Sink, in_phase, without_files};
ghost use Rattle.a429_link.specs.Trace.{files_of, sink_after, sink_at_first};
ghost use Rattle.a429_sink.specs.Alone.{AreSinkAllowed, SinkAllows, IsSinkRefused, IsSinkRun, SinkKeeps, SinkKeepsFrom, SinkStep, sink_delivers, sink_end, sink_trace};
ghost use Rattle.a429_sink.specs.Anywhere.{AreLastOf, EndsWith, HasRequest, IsBadAnywhere, IsRefusedAnywhere, sure_files};
ghost use Rattle.a429_sink.specs.declared.file_units.FileUnits.{FileUnits};
ghost use Rattle.a429_sink.specs.History.{ArePieces, IsTold, Told, joined_pieces, sound_words, whole_units};
ghost use Rattle.a429_sink.specs.Lone.{capped, crosses, kept, listed};
ghost use Rattle.a429_sink.specs.Owed.{IsOwed, IsOwedBefore, kinds_owed, owed_by};
ghost use Rattle.a429_sink.specs.declared.owed.Owed.{Owed};
ghost use Rattle.a429_sink.specs.Somewhere.{IsRefusedBySinks};

// ---- a sink by itself

/// Some run of the sink by itself, beginning with any sink, records these words exactly where each word of bus B is allowed after
/// those before it.
pub fn a_sink_keeps_what_is_allowed()
    ensures { (p : Contents) (k : Sink) (items : List Seen) → IsProfile p → SinkKeepsFrom p k items ↔ AreSinkAllowed p k items }
{}

/// A word is refused after those before it, which some sink records, exactly where no sink records those and then this word.
pub fn the_first_refused_is_where_no_sink_goes_on()
    ensures { (p : Contents) (items : List Seen) (i : ℕ) → IsProfile p → SinkKeeps p (take i items) → IsSinkRefused p items i ↔ (SinkKeeps p (take (suc i) items) → ⊥) }
{}

/// Each run of the sink by itself delivers the files of the words that it records. It ends as these words say, or has left an answer
/// out and is quiet.
pub fn a_sink_delivers_what_is_recorded()
    ensures files { (p : Contents) (steps : List SinkStep) → IsProfile p → IsSinkRun p steps sink_at_first → sink_delivers p steps ≡ files_of p (sink_trace steps) }
    ensures state { (p : Contents) (steps : List SinkStep) (k : Sink) → IsProfile p → IsSinkRun p steps k → (sink_end p steps k ≡ sink_after p (sink_trace steps) k) ⊎ (sink_end p steps k ≡ in_phase Quiet (sink_after p (sink_trace steps) k)) }
{}

/// In each run of source and sink the sink keeps the rules.
pub fn the_sink_of_a_run_keeps()
    ensures { (p : Contents) (items : List Seen) → IsProfile p → BeginsARun p items → SinkKeeps p items }
{}

/// Of the conditions under which the observer allows a word, those on bus B are the sink's, and the sink has no others. Those on bus A
/// are the source's.
pub fn on_b_the_observer_judges_the_sink()
    ensures b { (p : Contents) (o : Observer) (i : Seen) → i.bus ≡ bus.B → Allows p o i ↔ SinkAllows p (sink_of o) i }
    ensures a { (p : Contents) (k : Sink) (i : Seen) → i.bus ≡ bus.A → SinkAllows p k i }
{}

/// A recording that begins anywhere: a word that is refused by what is known of the sink, no sink sends after the words before it,
/// whatever the sink was before them and whatever its source sends.
pub fn refused_by_sinks_is_impossible()
    ensures { (p : Contents) (items : List Seen) (i : ℕ) → IsProfile p → IsRefusedBySinks p items i → (k : Sink) → SinkKeepsFrom p k (take (suc i) items) → ⊥ }
{}

// ---- what a sink owes

/// What a sink owes is what it may give: an answer of a form exactly where it may give it, and where the form's kind is listed.
pub fn what_a_sink_owes_it_may_give()
    ensures gives { (k : Sink) (x : Form) → MayAnswer k.count k.phase x ↔ IsOwed (owed_by k) x }
    ensures listed { (o : Owed) (x : Form) → Contains (kinds_owed o) (kind_of x) ↔ IsOwed o x }
{}

/// Where a word is refused that was owed before the last request, some sink records the words up to that request, and then this word in
/// its place.
pub fn what_was_owed_could_have_come()
    ensures { (p : Contents) (items : List Seen) (i j : ℕ) (word : Seen) → IsProfile p → SinkKeeps p (take i items) → slice_get items i ≡ Some word → IsOwedBefore p items i j → SinkKeeps p (take j items ++ word ∷ []) }
{}

// ---- what is kept of a sink

/// What is kept of a sink by itself, word after word, is that sink without files that have crossed, and without a block that has more
/// data words than were asked for. It may have sent the same words. By a word that it may have recorded the file crosses that `crosses`
/// names, if any.
pub fn what_is_kept_is_the_sink()
    ensures sink { (p : Contents) (items : List Seen) → kept p items sink_at_first ≡ without_files (capped (sink_after p items sink_at_first)) }
    ensures allows { (p : Contents) (items : List Seen) (i : Seen) → SinkAllows p (kept p items sink_at_first) i ↔ SinkAllows p (sink_after p items sink_at_first) i }
    ensures crosses { (p : Contents) (items : List Seen) (i : Seen) → SinkAllows p (kept p items sink_at_first) i → sizes_of (files_of p (items ++ i ∷ [])) ≡ sizes_of (files_of p items) ++ listed (crosses p i (kept p items sink_at_first)) }
{}

// ---- a recording that begins anywhere in a run

/// If these are the last words that a run records, their sure files are the last files that it delivers, bytes and order. A file is
/// sure where the words acknowledge its link data units from the first to the final one. Of a recording that begins with the run all
/// files are sure.
pub fn sure_files_have_crossed()
    ensures last { (p : Contents) (r : RunOf p) (items : List Seen) → EndsWith r items → AreLastOf (sure_files p items) (delivered_by r) }
    ensures whole { (p : Contents) (r : RunOf p) → sure_files p (trace r.steps) ≡ delivered_by r }
{}

/// A word that is refused by an observer that knows nothing of what came before, no run records after the words before it, whatever
/// it recorded before them.
pub fn refused_anywhere_is_impossible()
    ensures { (p : Contents) (items : List Seen) (i : ℕ) → IsProfile p → IsRefusedAnywhere p items i → IsPartOfARun p (take (suc i) items) → ⊥ }
{}

/// From its first request on the attempts of the recording are those of the run. So what holds of attempts under one number, and of
/// later numbers, holds as in a recording that begins with the run.
pub fn one_number_is_one_unit_anywhere()
    ensures unit { (p : Contents) (n : UnitNumber) (before group : List Seen) → IsProfile p → IsPartOfARun p (before ++ group) → HasRequest p before → IsGroup p n before group → IsOneUnit p n before group }
    ensures parts { (p : Contents) (n : UnitNumber) (before group : List Seen) → IsProfile p → IsPartOfARun p (before ++ group) → HasRequest p before → IsGroup p n before group → ArePartsOfWhole p before group }
    ensures forward { (p : Contents) (n m : UnitNumber) (before group : List Seen) → IsProfile p → IsPartOfARun p (before ++ group) → HasRequest p before → HasNumber p n (latest p before) → HasNumber p m (latest p (before ++ group)) → AcksOnly p n group → (m ≡ n) ⊎ IsFurther n m }
{}

/// No run records the end word of a whole block that makes no link data unit, where the block's clear answer is in the recording;
/// nor a start word whose number may not come after a unit whose acknowledgement is in it.
pub fn bad_anywhere_is_impossible()
    ensures { (p : Contents) (items : List Seen) (i : ℕ) → IsProfile p → IsBadAnywhere p items i → IsPartOfARun p (take (suc i) items) → ⊥ }
{}

// ---- a recording in pieces

/// The pieces of a recording, joined, are the recording.
pub fn pieces_are_the_recording()
    ensures { (p : Contents) (items : List Seen) (pieces : List (List Seen)) → ArePieces p items pieces → joined_pieces pieces ≡ items }
{}

/// What is said of a piece. `sound`: of its words before the one at which it stops, none is refused. `stop`: no run records them and then
/// that word, whatever it recorded before them. `files`: in each run whose last words they are, the last files delivered are these.
pub fn what_is_said_of_a_piece()
    ensures sound { (p : Contents) (piece : List Seen) (t : Told) → IsTold p piece t → (k : ℕ) → IsRefusedAnywhere p (sound_words piece t.stop) k → ⊥ }
    ensures stop { (p : Contents) (piece : List Seen) (t : Told) (k : ℕ) → IsProfile p → IsTold p piece t → t.stop ≡ Some k → IsPartOfARun p (take (suc k) piece) → ⊥ }
    ensures files { (p : Contents) (piece : List Seen) (t : Told) (r : RunOf p) → IsTold p piece t → EndsWith r (sound_words piece t.stop) → AreLastOf t.files (delivered_by r) }
{}

/// The files that are sure are those of which all units are acknowledged, in order; the units of others are those of `open_units`.
pub fn whole_files_are_sure()
    ensures { (p : Contents) (items : List Seen) → map (λ (f : FileBytes). f.number) (sure_files p items) ≡ map (λ (u : FileUnits). u.file) (whole_units p items) }
{}
