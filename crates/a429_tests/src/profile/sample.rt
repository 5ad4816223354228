//! What is read of the sample, and of a document of other forms.

use crate::calls::read;
use crate::sample::{PROFILE, joined, labels, sections, with};
use a429_profile::Profile;
use std::alloc::{AllocError, Global};
use std::fmt::{Debug, Write};
use std::process::Abort;
use std::test::Fail;

// The numbers of the sample. The labels 304 and 305 are 196 and 197.
const NUMBERS: &str =
    "Codes { to_sink: 196, to_source: 197, destination: 65, first_ldu: 1, final_bit: 25, full: 0, partial: 1, protocol: 4, sot: 6, eot: 7, rts: 1, cts: 2, ack: 5, nak: 6, ignored_types: Numbers { numbers: [5] }, ignored_codes: Numbers { numbers: [3] }, partial_codes: [1, 2, 3, 4] }
Check { poly: 4129, init: 65535, xor: 65535, low_first: true, compare: true }
";

// How many entries the sample has; these, of the labels 203, 314, 201 and 270, which are 131, 204, 129 and 184; and the labels
// and SDIs that have an entry, each with the entry's name.
const ENTRIES: &str = r#"4
LabelEntry { label: 131, sdi: None, name: Text { text: "Altitude" }, unit: Text { text: "ft" }, kind: Bnr { bits: 17, range: 131072, decimals: 0 } }
LabelEntry { label: 204, sdi: None, name: Text { text: "Heading" }, unit: Text { text: "deg" }, kind: Bnr { bits: 18, range: 180, decimals: 0 } }
LabelEntry { label: 129, sdi: None, name: Text { text: "Distance" }, unit: Text { text: "NM" }, kind: Bcd { digits: 5, decimals: 2 } }
LabelEntry { label: 184, sdi: Some(1), name: Text { text: "Status" }, unit: Text { text: "" }, kind: Discrete { flags: Flags { flags: [Flag { bit: 11, name: Text { text: "gear" } }, Flag { bit: 12, name: Text { text: "door" } }] } } }
201 0 Distance
201 1 Distance
201 2 Distance
201 3 Distance
203 0 Altitude
203 1 Altitude
203 2 Altitude
203 3 Altitude
270 1 Status
314 0 Heading
314 1 Heading
314 2 Heading
314 3 Heading
"#;

// A profile's numbers, how many entries it has, the entries, a line each, and those that are found.
fn contents(alloc: Global, profile: &Profile) -> Result<String, AllocError> {
    let mut found = String::new(alloc);
    push_contents(&mut found, profile)?;
    Ok(found)
}

// A line more.
fn push_line<T: Debug>(found: &mut String, value: &T) -> Result<(), AllocError> {
    writeln!(found, "{value:?}")
}

// No text of these tests has more than five entries, so that there is none at the last two places.
fn push_contents(found: &mut String, profile: &Profile) -> Result<(), AllocError> {
    push_line(found, profile.codes())?;
    push_line(found, profile.check())?;
    push_line(found, &profile.entry_count())?;
    for i in [0, 1, 2, 3, 4, 5, usize::MAX] {
        if let Some(entry) = profile.entries(i) {
            push_line(found, entry)?;
        }
    }
    push_names(found, profile)
}

// The labels and SDIs that have an entry, each with the entry's name.
fn push_names(found: &mut String, profile: &Profile) -> Result<(), AllocError> {
    for label in 0..=255 {
        for sdi in 0..4 {
            if let Some(entry) = profile.entry(label, sdi) {
                writeln!(found, "{label:03o} {sdi} {}", entry.name.as_str())?;
            }
        }
    }
    Ok(())
}

// What is read of a text.
fn contents_of(rt: &(impl Abort + AllocGlobal), text: &str) -> Result<String, AllocError> {
    let profile = read(rt, text);
    contents(rt.alloc(), &profile)
}

// What is read of a text is these numbers and entries.
fn says(
    rt: &(impl Abort + AllocGlobal),
    text: &str,
    numbers: &str,
    entries: &str,
) -> Result<(), Fail> {
    let found = contents_of(rt, text)?;
    if found.as_str().strip_prefix(numbers) == Some(entries) {
        Ok(())
    } else {
        Err(Fail::new(found.as_str()))
    }
}

// With changes of the sample its numbers and its entries change in this way.
fn changes_to(
    rt: &(impl Abort + AllocGlobal),
    changes: &str,
    numbers: &str,
    entries: &str,
) -> Result<(), Fail> {
    let text = with(rt.alloc(), PROFILE, changes)?;
    let numbers = with(rt.alloc(), NUMBERS, numbers)?;
    let entries = with(rt.alloc(), ENTRIES, entries)?;
    says(rt, text.as_str(), numbers.as_str(), entries.as_str())
}

// Each of these keys has a number or truth value that no other of its kind has.
#[test]
fn numbers_that_all_differ(rt: HostRuntime) -> Result<(), Fail> {
    let changes =
        "first_ldu = 1 -> first_ldu = 0 | final_bit = 25 -> final_bit = 28 | ignored = [5] -> ignored = [5, 2, 3] | ignored = [3] -> ignored = [15, 0] | codes = [1, 2, 3, 4] -> codes = [15, 0, 9, 8] | poly = 0x1021 -> poly = 1 | init = 0xFFFF -> init = 0x0102 | low_first = true -> low_first = false";
    let numbers =
        "first_ldu: 1 -> first_ldu: 0 | final_bit: 25 -> final_bit: 28 | [5] -> [5, 2, 3] | [3] -> [15, 0] | [1, 2, 3, 4] -> [15, 0, 9, 8] | poly: 4129 -> poly: 1 | init: 65535 -> init: 258 | low_first: true -> low_first: false";
    changes_to(&rt, changes, numbers, "")
}

// An entry more, of the last one's label.
#[test]
fn one_label_with_several_sdis(rt: HostRuntime) -> Result<(), Fail> {
    let changes =
        r#"{bit = 12, name = "door"}] -> {bit = 12, name = "door"}]; [[label]]; octal = '270'; sdi = 2; name = 'Second'; unit = 'V'; kind = 'bcd'; digits = 1; decimals = 6"#;
    let entries =
        r#"4 -> 5 | 201 0 -> LabelEntry { label: 184, sdi: Some(2), name: Text { text: "Second" }, unit: Text { text: "V" }, kind: Bcd { digits: 1, decimals: 6 } }; 201 0 | 270 1 Status -> 270 1 Status; 270 2 Second"#;
    changes_to(&rt, changes, "", entries)
}

#[test]
fn an_entry_without_an_sdi(rt: HostRuntime) -> Result<(), Fail> {
    let entries =
        "sdi: Some(1) -> sdi: None | 270 1 Status -> 270 0 Status; 270 1 Status; 270 2 Status; 270 3 Status";
    changes_to(&rt, "sdi = 1", "", entries)
}

// The sections of the sample, below a line, without its labels.
#[test]
fn no_labels(rt: HostRuntime) -> Result<(), Fail> {
    let empty = with(rt.alloc(), sections(), "[transfer] -> ; [transfer]")?;
    says(&rt, empty.as_str(), NUMBERS, "0\n")?;
    let array = with(
        rt.alloc(),
        sections(),
        "[transfer] -> label = []; [transfer]",
    )?;
    says(&rt, array.as_str(), NUMBERS, "0\n")
}

const INLINE_SECTIONS: &str = r#"
transfer = {to_sink = "304", to_source = "305", destination = 65, first_ldu = 1, final_bit = 25}
types.full = 0
types.partial = 1
types.protocol = 4
types.sot = 6
types.eot = 7
types.ignored = [5]
codes = {rts = 1, cts = 2, ack = 5, nak = 6, ignored = [3]}
partial.codes = [1, 2, 3, 4]
check = {poly = 4129, init = 65535, xor = 65535, low_first = true, compare = true}
"#;

const ONE_LABEL: &str =
    "label = [{octal = '001', name = 'One', unit = '', kind = 'bcd', digits = 1, decimals = 0}]";

const ONE_ENTRY: &str = r#"1
LabelEntry { label: 1, sdi: None, name: Text { text: "One" }, unit: Text { text: "" }, kind: Bcd { digits: 1, decimals: 0 } }
001 0 One
001 1 One
001 2 One
001 3 One
"#;

// The sample as it is, and sections of inline tables and dotted keys with its labels and with one of an inline
// table.
#[test]
fn other_forms_of_a_table(rt: HostRuntime) -> Result<(), Fail> {
    let forms = [
        (sections(), labels(), ENTRIES),
        (INLINE_SECTIONS, labels(), ENTRIES),
        (INLINE_SECTIONS, ONE_LABEL, ONE_ENTRY),
    ];
    for (sections, labels, entries) in forms {
        let text = joined(rt.alloc(), &[sections, labels])?;
        says(&rt, text.as_str(), NUMBERS, entries)?;
    }
    Ok(())
}
