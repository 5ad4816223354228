//! Link data units of which each attempt was recorded with losses, under the sample profile; and each step to one, once.

ghost use Rattle.std.specs.Prelude.{◌≤◌};

use crate::agreement::none_differs_given_memory;
use crate::calls::{read, sample};
use crate::sample::{PROFILE, with};
use a429_ldu::{Form, Ldu, Semis, check_word, word_of};
use a429_merge::{
    Budget, EndWord, GroupPieces, Limit, Wanted, bits_for_check_word, completed, is_in_some,
    is_subsequence, lists_with, merge_in_one_order, merge_shortest, search_words, unit_of_pieces,
};
use a429_profile::{CheckTables, Profile};
use a429_word::Word;
use std::alloc::{AllocError, Global};
use std::test::Fail;

/// A link data unit of which each attempt recorded these data words, and an end word had this check word, where there
/// is one.
fn unit_with(
    alloc: Global,
    profile: &Profile,
    count: u8,
    check: Option<u16>,
    attempts: Vec<Vec<Word>>,
    budget: &mut Budget,
) -> Result<Option<Ldu>, AllocError>
    requires { 3 ≤ count }
{
    let end = match check {
        Some(check) => Some(EndWord { flags: 1, check }),
        None => None,
    };
    let pieces = GroupPieces {
        count,
        gfi: None,
        end,
        attempts,
    };
    unit_of_pieces(alloc, profile, &pieces, budget)
}

// The data words that carry these bytes, one byte each.
fn words_of(alloc: Global, profile: &Profile, bytes: &[u8]) -> Result<Vec<Word>, AllocError> {
    let mut words = Vec::new(alloc);
    for byte in bytes {
        if let Some(semis) = Semis::new(&[*byte & 15, *byte >> 4]) {
            words.push(word_of(profile, &Form::Part(semis)))?;
        }
    }
    Ok(words)
}

// How many words a unit has, the check word of an end word, if there is one, the bytes of the words that each attempt recorded, and
// whether such a unit is found.
type Case = (u8, Option<u16>, &'static [&'static str], bool);

// 906E is the check word of 123456789. In the last case but four each word was recorded once, and one order of 126 has the check
// word. A shortest sequence that has both abcbdab and bdcaba has nine words.
const CASES: [Case; 8] = [
    (11, Some(0x906E), &["12789", "123456789"], true),
    (11, Some(0x906F), &["123456789"], false),
    (11, Some(0x906E), &["12345679"], true),
    (11, Some(0x906E), &["13579", "2468"], true),
    (5, None, &["ab", "bc", "ac"], true),
    (4, None, &["ab", "bc", "ac"], false),
    (11, None, &["abcbdab", "bdcaba"], true),
    (10, None, &["abcbdab", "bdcaba"], false),
];

// The words that each attempt recorded.
fn recorded(
    alloc: Global,
    profile: &Profile,
    attempts: &[&str],
) -> Result<Vec<Vec<Word>>, AllocError> {
    let mut recorded = Vec::new(alloc);
    for bytes in attempts {
        let words = words_of(alloc, profile, bytes.as_bytes())?;
        recorded.push(words)?;
    }
    Ok(recorded)
}

// Whether a unit is found where the case says so, and no search was cut short: so there is none where none is found.
fn holds(alloc: Global, profile: &Profile, case: Case) -> Result<bool, AllocError> {
    let (count, check, attempts, is_found) = case;
    if count < 3 {
        return Ok(false);
    }
    let attempts = recorded(alloc, profile, attempts)?;
    let mut budget = Budget::of_entries(0);
    let unit = unit_with(alloc, profile, count, check, attempts, &mut budget)?;
    Ok(unit.is_some() == is_found && budget.cut().is_none())
}

// The place of the first case that does not hold.
fn first_that_differs(alloc: Global, profile: &Profile) -> Result<Option<usize>, AllocError> {
    for place in 0..CASES.len() {
        if !holds(alloc, profile, CASES[place])? {
            return Ok(Some(place));
        }
    }
    Ok(None)
}

#[test]
fn attempts_with_words_lost(rt: HostRuntime) -> Result<(), Fail> {
    let profile = sample(&rt);
    none_differs_given_memory(first_that_differs(rt.alloc(), &profile))
}

// ---- each step once

// Words, others, and whether they are some of these, in their order.
const SOME_OF_OTHERS: [(&str, &str, bool); 6] = [
    ("", "", true),
    ("ac", "abc", true),
    ("abc", "abc", true),
    ("ca", "abc", false),
    ("aa", "abc", false),
    ("abcd", "abc", false),
];

// The first of them of which that is not so.
fn first_subsequence(alloc: Global, profile: &Profile) -> Result<Option<&'static str>, AllocError> {
    for (some, others, wanted) in SOME_OF_OTHERS {
        let words = words_of(alloc, profile, some.as_bytes())?;
        let of = words_of(alloc, profile, others.as_bytes())?;
        if is_subsequence(&words, &of) != wanted {
            return Ok(Some(some));
        }
    }
    Ok(None)
}

#[test]
fn some_of_others(rt: HostRuntime) -> Result<(), Fail> {
    let profile = sample(&rt);
    none_differs_given_memory(first_subsequence(rt.alloc(), &profile))
}

// Whether a shortest list that has both abcbdab and bdcaba has nine words, of which they are some.
fn is_shortest(alloc: Global, profile: &Profile) -> Result<bool, AllocError> {
    let one = words_of(alloc, profile, b"abcbdab")?;
    let other = words_of(alloc, profile, b"bdcaba")?;
    if one.len() > 8 || other.len() > 8 {
        return Ok(false);
    }
    let merged = merge_shortest(alloc, &one, &other)?;
    Ok(merged.len() == 9 && is_subsequence(&one, &merged) && is_subsequence(&other, &merged))
}

// Whether lists are brought into one order exactly where the words wanted say which.
fn is_order(
    alloc: Global,
    profile: &Profile,
    attempts: &[&str],
    wanted: Option<&str>,
) -> Result<bool, AllocError> {
    let lists = recorded(alloc, profile, attempts)?;
    let mut budget = Budget::of_entries(0);
    match (merge_in_one_order(alloc, &lists, &mut budget)?, wanted) {
        (Some(merged), Some(bytes)) => {
            Ok(merged.as_slice() == words_of(alloc, profile, bytes.as_bytes())?.as_slice())
        }
        (None, None) => Ok(true),
        _ => Ok(false),
    }
}

// Whether so many words are found for three attempts, and none fewer.
fn is_searched(alloc: Global, profile: &Profile) -> Result<bool, AllocError> {
    let attempts = recorded(alloc, profile, &["ab", "bc", "ac"])?;
    let mut budget = Budget::of_entries(0);
    let (three, two) = (
        Wanted {
            count: 3,
            check: None,
        },
        Wanted {
            count: 2,
            check: None,
        },
    );
    let found = search_words(alloc, profile, &attempts, three, &mut budget)?;
    let none = search_words(alloc, profile, &attempts, two, &mut budget)?;
    Ok(found.is_some() && none.is_none())
}

// Whether 9 data words of which 8 are recorded are filled up to the check word, and 8 are not.
fn is_completed(alloc: Global, profile: &Profile) -> Result<bool, AllocError> {
    let recorded = words_of(alloc, profile, b"12345678")?;
    let nine = Wanted {
        count: 9,
        check: Some(0x906E),
    };
    let eight = Wanted {
        count: 8,
        check: Some(0x906E),
    };
    let filled = completed(alloc, profile, &recorded, nine)?;
    let whole = completed(alloc, profile, &recorded, eight)?;
    Ok(filled.is_some() && whole.is_none())
}

// Whether the bits that turn 0 into 1 are found by their check word, and none for one that no such bits have.
fn are_bits(alloc: Global, profile: &Profile) -> Result<bool, AllocError> {
    let rule = CheckTables::new(alloc, *profile.check())?;
    let wanted = check_word(profile.check(), b"1");
    let found = bits_for_check_word(alloc, &rule, b"0", 8, wanted)?;
    let none = bits_for_check_word(alloc, &rule, b"00", 1, wanted)?;
    Ok(found.is_some() && none.is_none())
}

// Whether a list that another one has is left out, one that is new is kept, and of 17 that differ there is no answer.
fn are_lists(alloc: Global, profile: &Profile) -> Result<bool, AllocError> {
    let lists = recorded(alloc, profile, &["ab", "b", "cd"])?;
    let one = words_of(alloc, profile, b"ac")?;
    let others = recorded(alloc, profile, &LETTERS)?;
    let seventeenth = words_of(alloc, profile, b"q")?;
    let mut budget = Budget::of_entries(0);
    let kept = lists_with(alloc, &lists, &one, true, &mut budget)?;
    let count = match kept {
        Some(kept) => kept.len(),
        None => 0,
    };
    let is_kept = count == 3 && budget.cut().is_none();
    let none = lists_with(alloc, &others, &seventeenth, true, &mut budget)?;
    let is_cut = match budget.cut() {
        Some(cut) => matches!(cut.limit(), Limit::Attempts { recorded: 17 }),
        None => false,
    };
    Ok(is_kept && none.is_none() && is_cut && !is_in_some(&one, &lists))
}

// The attempts of a group, of one word each; there may be no more of them.
const LETTERS: [&str; 16] = [
    "a", "b", "c", "d", "e", "f", "g", "h", "i", "j", "k", "l", "m", "n", "o", "p",
];

// Whether the steps of a recording of one entry are counted up to the last, and a budget taken afresh has no more of them.
fn are_steps_counted() -> bool {
    let mut budget = Budget::of_entries(1).afresh(3);
    budget.spend(1_000_000_999);
    let has_one = !budget.runs_out() && budget.cut().is_none();
    budget.spend(1);
    let is_out = budget.runs_out() && has_no_step_at(&budget, 3);
    let mut afresh = budget.afresh(4);
    let is_afresh = afresh.cut().is_none() && afresh.runs_out() && has_no_step_at(&afresh, 4);
    has_one && is_out && is_afresh
}

// Whether a search was cut short at this entry, since no step was left.
fn has_no_step_at(budget: &Budget, entry: usize) -> bool {
    match budget.cut() {
        Some(cut) => cut.entry() == entry && matches!(cut.limit(), Limit::Steps { left: 0 }),
        None => false,
    }
}

// The first step that goes otherwise.
fn first_step(alloc: Global, profile: &Profile) -> Result<Option<&'static str>, AllocError> {
    if !is_shortest(alloc, profile)? {
        return Ok(Some("merge_shortest"));
    }
    if !is_order(alloc, profile, &["abd", "acd", "bc"], Some("abcd"))?
        || !is_order(alloc, profile, &["ab", "ba"], None)?
    {
        return Ok(Some("merge_in_one_order"));
    }
    if !are_lists(alloc, profile)? {
        return Ok(Some("lists_with"));
    }
    if !are_steps_counted() {
        return Ok(Some("Budget"));
    }
    if !is_searched(alloc, profile)? {
        return Ok(Some("search_words"));
    }
    if !is_completed(alloc, profile)? {
        return Ok(Some("completed"));
    }
    if !are_bits(alloc, profile)? {
        return Ok(Some("bits_for_check_word"));
    }
    Ok(None)
}

#[test]
fn each_step_once(rt: HostRuntime) -> Result<(), Fail> {
    let profile = sample(&rt);
    none_differs_given_memory(first_step(rt.alloc(), &profile))
}

// ---- units of one byte, under a polynomial that ends in 0

// Under it check words of one byte are those of no more bytes.
const EVEN: &str = "poly = 0x1021 -> poly = 0x8000 | low_first = true -> low_first = false";

// A unit of two data words is found by the check word of this byte and its one recorded data word, of one semi-octet, or none.
fn is_found(
    alloc: Global,
    profile: &Profile,
    byte: u8,
    recorded: Option<u8>,
) -> Result<bool, AllocError> {
    let mut words = Vec::new(alloc);
    if let Some(semi) = recorded
        && let Some(semis) = Semis::new(&[semi])
    {
        words.push(word_of(profile, &Form::Part(semis)))?;
    }
    let mut attempts = Vec::new(alloc);
    attempts.push(words)?;
    let check = check_word(profile.check(), &[byte]);
    let mut budget = Budget::of_entries(0);
    let unit = unit_with(alloc, profile, 4, Some(check), attempts, &mut budget)?;
    Ok(unit.is_some())
}

// A byte of which no unit is found.
fn first_byte_without(alloc: Global, profile: &Profile) -> Result<Option<u8>, AllocError> {
    for byte in 0..=u8::MAX {
        for recorded in [None, Some(byte & 15), Some(byte >> 4)] {
            if !is_found(alloc, profile, byte, recorded)? {
                return Ok(Some(byte));
            }
        }
    }
    Ok(None)
}

#[test]
fn two_data_words_of_one_byte(rt: HostRuntime) -> Result<(), Fail> {
    let text = with(rt.alloc(), PROFILE, EVEN)?;
    let profile = read(&rt, text.as_str());
    none_differs_given_memory(first_byte_without(rt.alloc(), &profile))
}
