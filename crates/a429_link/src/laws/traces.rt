//! Laws of what a recording says of its sink by itself, whatever its source did.

ghost use Rattle.std.specs.Prelude.{◌≡◌, ◌↔◌, ℕ, true, List, [], ◌∷◌, ◌++◌, Option, Some, None, IsSome, Contains};
ghost use Rattle.a429_profile.specs.Profile.{Contents, IsProfile};
ghost use Rattle.a429_link.specs.declared.seen.Seen.{Seen};
ghost use Rattle.a429_link.specs.Run.{RunOf, trace, delivered_by};
ghost use Rattle.a429_link.specs.Observer.{Observer, HasGrant, at_first, observed, sink_of};
ghost use Rattle.a429_link.specs.Sink.{Block, Number, OwesNak, Sink, nothing_received, is_good, takes_end, with_received};
ghost use Rattle.a429_link.specs.Trace.{files_of, sink_after, sink_at_first, sink_sees};
ghost use Rattle.a429_ldu.specs.declared.forms.Form.{Form};
ghost use Rattle.a429_ldu.specs.Form.{form_of};
ghost use Rattle.a429_link.specs.Observer.{AllowsForm};
ghost use Rattle.a429_link.specs.Implied.{crossings_of, does, implied, implied_at_first, sizes_of, with_counts};
ghost use Rattle.a429_link.specs.Why.{block_in, why_bad};
ghost use Rattle.a429_link.specs.Allowed.{AllowsKind, AllowsWordOf, Kind, kinds_allowed};

/// Each run that records these words delivers the files of a sink which takes each word of bus A, and gives
/// each answer of bus B, at the moment it is recorded: the observer with its files.
pub fn a_recording_has_its_files()
    ensures files { (p : Contents) (r : RunOf p) (items : List Seen) → trace r.steps ≡ items → delivered_by r ≡ files_of p items }
    ensures observer { (p : Contents) (items : List Seen) → sink_of (observed p items at_first) ≡ with_received nothing_received (sink_after p items sink_at_first) }
    ensures step { (p : Contents) (items : List Seen) (i : Seen) → (sink_after p (items ++ i ∷ []) sink_at_first).received ≡ (sink_sees p i.bus i.word (with_received (sink_after p items sink_at_first).received (sink_of (observed p items at_first)))).received }
{}

/// A block has a reason why it is not good exactly where it is not good. At an end word a sink which takes
/// the words of a block owes a negative answer exactly where there is a reason.
pub fn a_bad_block_has_a_reason()
    ensures good { (p : Contents) (last : Option Number) (count : ℕ) (b : Block) (check : ℕ) → (why_bad p last count (Some b) check ≡ None) ↔ (is_good p last count b check ≡ true) }
    ensures owed { (p : Contents) (k : Sink) (flags check : ℕ) → HasGrant k.phase → ((takes_end p flags check k).phase ≡ OwesNak) ↔ IsSome (why_bad p k.last k.count (block_in k.phase) check) }
{}

/// A kind is in the list of what is allowed exactly where some form of that kind is; and after recorded words
/// exactly where some word of that kind is.
pub fn listed_is_what_is_allowed()
    ensures form { (o : Observer) (k : Kind) → Contains (kinds_allowed o) k ↔ AllowsKind o k }
    ensures word { (p : Contents) (items : List Seen) (k : Kind) → IsProfile p → Contains (kinds_allowed (observed p items at_first)) k ↔ AllowsWordOf p (observed p items at_first) k }
{}

/// What is implied word after word is that sink with its files handed out, and what an observer counts. By an allowed word a
/// file crosses exactly where `does` names it, and by a word without a form none does.
pub fn what_is_implied_is_the_sink()
    ensures sink { (p : Contents) (items : List Seen) → implied p items implied_at_first ≡ with_counts (observed p items at_first) (sink_after p items sink_at_first) }
    ensures crosses { (p : Contents) (items : List Seen) (i : Seen) (x : Form) → form_of p.codes i.bus i.word ≡ Some x → AllowsForm (observed p items at_first) i.bus (Some x)
        → sizes_of (files_of p (items ++ i ∷ [])) ≡ sizes_of (files_of p items) ++ crossings_of (does p i.bus i.word x (implied p items implied_at_first).sink) }
    ensures stays { (p : Contents) (items : List Seen) (i : Seen) → form_of p.codes i.bus i.word ≡ None → files_of p (items ++ i ∷ []) ≡ files_of p items }
{}
