//! Laws of all runs, in terms of the attempts that a recording is made of.

ghost use Rattle.std.specs.Prelude.{◌≡◌, ◌↔◌, ◌⊎◌, ◌++◌, ℕ, suc, List, take};
ghost use Rattle.a429_profile.specs.Profile.{Contents, IsProfile};
ghost use Rattle.a429_ldu.specs.Ldu.{LduValue, IsLdu};
ghost use Rattle.a429_link.specs.declared.number.UnitNumber.{UnitNumber};
ghost use Rattle.a429_link.specs.declared.seen.Seen.{Seen};
ghost use Rattle.a429_link.specs.Run.{BeginsARun, IsPartOfARun};
ghost use Rattle.a429_link.specs.Observer.{AreAllowed, at_first};
ghost use Rattle.a429_link.specs.WholeBlock.{EndsWholeAt, EndsBadAt, IsHalfAt, NumberComesAt};
ghost use Rattle.a429_link.specs.Attempt.{HasNumber, latest};
ghost use Rattle.a429_link.specs.Assignment.{IsAssignable};
ghost use Rattle.a429_link.specs.Piece.{BeginsWithRequest, FollowsUnit};
ghost use Rattle.a429_link.specs.Contradiction.{IsOtherAt, IsWrongAt};
ghost use Rattle.a429_link.specs.Group.{AcksOnly, ArePartsOfWhole, IsFurther, IsGroup, IsOneUnit};

/// A recording begins a run exactly where the observer allows each word after those before it, and each attempt
/// can be assigned to a link data unit of the profile and a number, so that the request asks for the words of its
/// block, the recorded words are some of the block, in order, and what is acknowledged is that number. The
/// next attempt is to send the same unit, or one that the source comes to: by giving up files, at most 127 since an
/// acknowledgement was heard, or at the next number where the attempt before was acknowledged.
pub fn runs_record_what_can_be_assigned()
    ensures { (p : Contents) (items : List Seen) → IsProfile p → BeginsARun p items ↔ (AreAllowed p at_first items × IsAssignable p items) }
{}

/// A recording that begins with a request is a part of what some run records, whatever was recorded before it, exactly
/// where a run begins so, or where it goes on from a link data unit that was acknowledged last before it: the observer
/// allows each word after that acknowledgement, and the attempts can be assigned, so that the source sends that link
/// data unit again or comes from it to another one. Of the words before nothing else counts: that link data unit, its
/// number, and how many files were given up right before it.
pub fn a_piece_goes_on_from_a_unit()
    ensures { (p : Contents) (items : List Seen) → IsProfile p → BeginsWithRequest p items → IsPartOfARun p items ↔ (BeginsARun p items ⊎ FollowsUnit p items) }
{}

/// Where a run records a start word, as many data words as were asked for and an end word under one grant, they
/// are those of a link data unit of the profile. So no run ends a block whose data words carry no bytes, or whose
/// check word is not theirs where the profile compares check words.
pub fn a_whole_block_is_a_unit()
    ensures is { (p : Contents) (items : List Seen) (i : ℕ) (u : LduValue) → IsProfile p → BeginsARun p (take (suc i) items) → EndsWholeAt p items i u → IsLdu p u }
    ensures impossible { (p : Contents) (items : List Seen) (i : ℕ) → IsProfile p → EndsBadAt p items i → BeginsARun p (take (suc i) items) → ⊥ }
{}

/// Where a run records as many data words under one grant as were asked for, they carry bytes, whether or not the block's
/// start word and its end word are recorded. So no run records them where their semi-octets are odd in number.
pub fn all_data_words_carry_bytes()
    ensures { (p : Contents) (items : List Seen) (i : ℕ) → IsProfile p → IsHalfAt p items i → BeginsARun p (take (suc i) items) → ⊥ }
{}

/// Each start word that a run records has the number of the link data unit accepted last before it, or a number
/// in sequence with it: the next one of a file that is not whole, or the first of a file that is 1 to 128 past; or, where none
/// was accepted, the number of a file's first.
pub fn a_start_word_may_come()
    ensures { (p : Contents) (items : List Seen) (i : ℕ) → IsProfile p → BeginsARun p (take (suc i) items) → NumberComesAt p items i }
{}

/// Where two attempts of a run have start words of the same number, and between them no other number is acknowledged,
/// all attempts from the one to the other are to send one link data unit of the profile: each request asks for the
/// words of its block, and the words recorded after it are some of the block, in order. So where one of them is
/// recorded whole, the others are part of it.
pub fn one_number_is_one_unit()
    ensures unit { (p : Contents) (n : UnitNumber) (before group : List Seen) → IsProfile p → BeginsARun p (before ++ group) → IsGroup p n before group → IsOneUnit p n before group }
    ensures parts { (p : Contents) (n : UnitNumber) (before group : List Seen) → IsProfile p → BeginsARun p (before ++ group) → IsGroup p n before group → ArePartsOfWhole p before group }
{}

/// Numbers go forward: as long as no number but that of an attempt's start word is acknowledged, each later
/// start word has the same number, a later one of the same file, or one of a file that is 1 to 128 past.
pub fn numbers_go_forward()
    ensures { (p : Contents) (n m : UnitNumber) (before group : List Seen) → IsProfile p → BeginsARun p (before ++ group) → HasNumber p n (latest p before) → HasNumber p m (latest p (before ++ group)) → AcksOnly p n group → (m ≡ n) ⊎ IsFurther n m }
{}

/// No run contradicts what it has recorded of a link data unit: under the number of the latest start word it records no
/// other count, general format identifier or end word, and no words that are not some of the block, in order, where the
/// block was recorded whole; and after that start word it records none with a number that the source cannot have come to.
pub fn what_contradicts_is_impossible()
    ensures other { (p : Contents) (items : List Seen) (i : ℕ) → IsProfile p → IsOtherAt p items i → BeginsARun p (take (suc i) items) → ⊥ }
    ensures number { (p : Contents) (items : List Seen) (i : ℕ) → IsProfile p → IsWrongAt p items i → BeginsARun p (take (suc i) items) → ⊥ }
{}
