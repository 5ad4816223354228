//! What is shown of words by the sample profile.

use crate::agreement::none_differs;
use crate::calls::sample;
use a429_profile::Profile;
use a429_word::Word;
use std::alloc::{AllocError, Global};
use std::test::Fail;

// What a profile shows of the word of a number.
fn shown(alloc: Global, profile: &Profile, number: u32) -> Result<String, AllocError> {
    let word = Word::from_u32(number);
    let shown = profile.shown(&word);
    format!(in alloc; "{shown:?}")
}

// Whether a profile shows this of it.
fn shows(alloc: Global, profile: &Profile, number: u32, wanted: &str) -> bool {
    match shown(alloc, profile, number) {
        Ok(found) => found.as_str() == wanted,
        Err(_) => false,
    }
}

// The altitude is 10000 times 131072 times 5^17 over 10^17, which is 10000. In these texts the label 203 is
// 131, 201 is 129, and 270 is 184.
const SHOWN: [(u32, &str); 6] = [
    (0xFFE0_C0C1, "BadParity"),
    (0x8000_0A1D, "NoEntry"),
    (
        0xE138_80C1,
        r#"Value { entry: LabelEntry { label: 131, sdi: None, name: Text { text: "Altitude" }, unit: Text { text: "ft" }, kind: Bnr { bits: 17, range: 131072, decimals: 0 } }, value: Fixed { number: 1000000000000000000000, decimals: 17 }, is_test: false }"#,
    ),
    (
        0xA48D_1481,
        r#"Status { entry: LabelEntry { label: 129, sdi: None, name: Text { text: "Distance" }, unit: Text { text: "NM" }, kind: Bcd { digits: 5, decimals: 2 } }, status: NoData }"#,
    ),
    (
        0x04A9_1481,
        r#"BadDigit { entry: LabelEntry { label: 129, sdi: None, name: Text { text: "Distance" }, unit: Text { text: "NM" }, kind: Bcd { digits: 5, decimals: 2 } }, place: 3 }"#,
    ),
    (
        0x4000_091D,
        r#"Bits { entry: LabelEntry { label: 184, sdi: Some(1), name: Text { text: "Status" }, unit: Text { text: "" }, kind: Discrete { flags: Flags { flags: [Flag { bit: 11, name: Text { text: "gear" } }, Flag { bit: 12, name: Text { text: "door" } }] } } }, field: 2, is_test: true }"#,
    ),
];

// The first of them that is shown in another way.
fn first_that_differs(alloc: Global, profile: &Profile) -> Option<u32> {
    for (number, wanted) in SHOWN {
        if !shows(alloc, profile, number, wanted) {
            return Some(number);
        }
    }
    None
}

#[test]
fn words_of_each_kind(rt: HostRuntime) -> Result<(), Fail> {
    let profile = sample(&rt);
    none_differs(first_that_differs(rt.alloc(), &profile))
}
