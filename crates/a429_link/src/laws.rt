//! Laws of all runs, whatever is lost, times out, is left unanswered or given up on the way.

ghost use Rattle.std.specs.Prelude.{◌≡◌, ◌↔◌, ℕ, suc, List, take};
ghost use Rattle.a429_profile.specs.Profile.{Contents, IsProfile};
ghost use Rattle.a429_link.specs.declared.seen.Seen.{Seen};
ghost use Rattle.a429_link.specs.State.{start};
ghost use Rattle.a429_link.specs.Clean.{CarriesUnits, CleanRecording};
ghost use Rattle.a429_link.specs.Run.{IsRun, RunOf, end_of, trace, delivered, delivered_by, offered_by, settled_by, reached_by, IsSubsequenceOf, IsNear, IsBounded, BeginsARun};
ghost use Rattle.a429_link.specs.Observer.{IsRefused};
ghost use Rattle.a429_link.specs.Link.{Call, AreMade, applied, taken_and_waiting, left_with_taken};

pub mod attempts;
pub mod traces;

/// Two runs that record the same words deliver the same files, with whichever file numbers they begin.
pub fn one_trace_one_delivery()
    ensures { (p : Contents) (r s : RunOf p) → trace r.steps ≡ trace s.steps → delivered_by r ≡ delivered_by s }
{}

/// The files that a run delivers are some of those that its source offered, numbers and bytes, in their
/// order, also where check words are not compared.
pub fn delivered_was_offered()
    ensures { (p : Contents) (r : RunOf p) → IsSubsequenceOf (delivered_by r) (offered_by r) }
{}

/// The files that the source takes as acknowledged are some of those that are delivered, in their order.
pub fn settled_was_delivered()
    ensures { (p : Contents) (r : RunOf p) → IsSubsequenceOf (settled_by r) (delivered_by r) }
{}

/// A caller may take files while a run goes on: the files taken, in order, and then those that wait at the
/// end are the files that the run of the steps delivers. Taking files changes no step, and nothing else of
/// the state.
pub fn taken_then_delivered_is_the_runs()
    ensures files { (p : Contents) (first : ℕ) (calls : List Call) → taken_and_waiting p first calls ≡ delivered p first (applied calls) }
    ensures state { (p : Contents) (first : ℕ) (calls : List Call) → left_with_taken p first calls ≡ end_of p (applied calls) (start p first) }
    ensures run { (p : Contents) (first : ℕ) (calls : List Call) → AreMade p calls (start p first) ↔ IsRun p (applied calls) (start p first) }
{}

/// After each run at most 255 words to the sink are untaken or in its block, one answer is on its way,
/// an unfinished file has at most 161,160 bytes, and of a block that is still on its way source and sink
/// have sent and taken at most 254 words.
pub fn every_state_is_bounded()
    ensures { (p : Contents) (r : RunOf p) → IsBounded (reached_by r) }
{}

/// After each run the source's file is at most 128 past that of the link data unit accepted last.
pub fn the_source_is_near()
    ensures { (p : Contents) (r : RunOf p) → IsNear (reached_by r).sink.last (reached_by r).source.number }
{}

/// What the observer of the words before it refuses, no run records after them.
pub fn refused_is_impossible()
    ensures { (p : Contents) (items : List Seen) (i : ℕ) → IsProfile p → IsRefused p items i → BeginsARun p (take (suc i) items) → ⊥ }
{}

/// A recording that is, free words left out, the words of link data units that cross without loss is that
/// of a run which offers, delivers and settles their files.
pub fn a_clean_recording_is_a_run()
    ensures { (p : Contents) (r : CleanRecording p) → CarriesUnits p r.first r.units r.items }
{}
