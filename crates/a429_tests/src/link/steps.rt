//! Steps on a link: what is delivered, and which are refused.

use crate::agreement::none_differs;
use crate::calls::{read, sample};
use crate::link::script::Stage;
use crate::sample::{PROFILE, with};
use a429_profile::Profile;
use std::alloc::Global;
use std::test::Fail;

// The file of the byte 41, which is 65 in decimal. Its number is 1.
const ONE_BYTE: &str = "\
Load final
Sent A 41410323
SinkTakes
Answered B C24103A3
TakeAnswer
Sent A 60010123
SinkTakes
states: (Sending(1), InBlock(1), 0, 0)
Sent A 12004123
SinkTakes
Sent A 71A3F523
SinkTakes
states: (Waiting, OwesAck, 0, 0)
Answered B 450101A3
TakeAnswer
delivered: [FileBytes { number: 1, bytes: Bytes { bytes: [65] } }]
take_delivered: [FileBytes { number: 1, bytes: Bytes { bytes: [65] } }]
delivered: []";

const NOT_THERE: &str = "\
Load final
Load final: Err(NotAllowed)
Sent B 41410323: Err(WordDiffers)
FreeSeen A 41410323: Err(WordDiffers)
FreeSeen B 41410323
Answered B C24103A3: Err(NotAllowed)
Sent A 41410323
TimeOut: Err(NotAllowed)
states: (Awaiting, Quiet, 1, 0)";

// A block with its request and answers.
const BLOCK: &str = "\
Sent A 41410323
SinkTakes
Answered B C24103A3
TakeAnswer
Sent A 60010123
SinkTakes
Sent A 12004123
SinkTakes
Sent A 71A3F523
SinkTakes
Answered B 450101A3";

const LOST: &str = "\
TimeOut: Err(NotAllowed)
LoseAnswer
TimeOut";

const TAKEN: &str = "\
TakeAnswer
delivered: [FileBytes { number: 1, bytes: Bytes { bytes: [65] } }]";

// The acknowledgement is lost, and the block comes again.
const AGAIN: [&str; 5] = ["Load final", BLOCK, LOST, BLOCK, TAKEN];

// The second of two data words is lost, and check words are not compared.
const WITHOUT_A_WORD: &str = "\
Load two words
Sent A C1410423
SinkTakes
Answered B 424104A3
TakeAnswer
Sent A 60010123
SinkTakes
Sent A 03424123
SinkTakes
SentLost
Sent A 71A3F523
SinkTakes
Answered B 450101A3: Err(WordDiffers)
Answered B 460000A3";

// A file has at most 255 link data units, and ends in one that says so.
const FULL_FILE: &str = "\
255 open units cross: true
Load open: Err(NotAllowed)
delivered: []";

// The file 255 crosses, in the block of the byte 41 too.
const FILE_255: &str = "\
Load final
Sent A 41410323
SinkTakes
Answered B C24103A3
TakeAnswer
Sent A E0FF0123
SinkTakes
Sent A 12004123
SinkTakes
Sent A 71A3F523
SinkTakes
Answered B C5FF01A3
TakeAnswer";

// File 0 is given up after it, with the unit that was loaded.
const FILE_0_GIVEN_UP: &str = "\
Load final
GiveUp
states: (Idle, Quiet, 0, 0)";

const FILES_255_AND_1: &str = "\
TakeAnswer
delivered: [FileBytes { number: 255, bytes: Bytes { bytes: [65] } }, FileBytes { number: 1, bytes: Bytes { bytes: [65] } }]";

// A file is given up between two others.
const GIVEN_UP: [&str; 5] = [
    FILE_255,
    FILE_0_GIVEN_UP,
    "Load final",
    BLOCK,
    FILES_255_AND_1,
];

// A source that waits gives nothing up, and an idle one at most 127 files one after another.
const MOST_GIVEN_UP: &str = "\
127 files are given up: true
GiveUp: Err(NotAllowed)";

const WAITING: &str = "\
Load final
Sent A 41410323
GiveUp: Err(NotAllowed)";

// An acknowledgement that the source takes lets it give up as many again.
const MORE_GIVEN_UP: [&str; 3] = ["GiveUp", FILE_255, MOST_GIVEN_UP];

// The first line of a script in parts that goes otherwise than it says on a link whose first file has this number.
fn played<'s>(alloc: Global, profile: &Profile, first: u8, parts: &[&'s str]) -> Option<&'s str> {
    Stage::new(alloc, profile, first).first_in_parts(parts)
}

// Each script with the number of the first file.
const SCRIPTS: [(u8, &[&str]); 8] = [
    (1, &[ONE_BYTE]),
    (1, &[NOT_THERE]),
    (1, &[FULL_FILE]),
    (1, &[MOST_GIVEN_UP]),
    (1, &[WAITING]),
    (1, &AGAIN),
    (255, &GIVEN_UP),
    (254, &MORE_GIVEN_UP),
];

// The first line of them that goes otherwise than it says.
fn first_that_differs(alloc: Global, profile: &Profile) -> Option<&'static str> {
    for (first, parts) in SCRIPTS {
        if let Some(line) = played(alloc, profile, first, parts) {
            return Some(line);
        }
    }
    None
}

#[test]
fn steps_go_as_the_scripts_say(rt: HostRuntime) -> Result<(), Fail> {
    let profile = sample(&rt);
    none_differs(first_that_differs(rt.alloc(), &profile))
}

#[test]
fn a_block_without_a_word_is_not_good(rt: HostRuntime) -> Result<(), Fail> {
    let text = with(rt.alloc(), PROFILE, "compare = true -> compare = false")?;
    let profile = read(&rt, text.as_str());
    assert!(rt; played(rt.alloc(), &profile, 1, &[WITHOUT_A_WORD]).is_none());
    Ok(())
}
