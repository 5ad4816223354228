//! Which form a word has, and which word a form.

ghost use Rattle.a429_ldu.specs.Form.{IsInRange};

use crate::agreement::none_differs;
use crate::calls::sample;
use crate::sample::{ACK, CTS, EOT, NAK, PART, RTS, SOT};
use a429_ldu::{Form, Semis, Sight, form, form_across, form_if_full, other_line, word_of};
use a429_profile::Profile;
use a429_word::{Bus, Word};
use std::test::Fail;

// Whether this is what a word says on a bus.
fn says(profile: &Profile, bus: Bus, number: u32, sight: Sight) -> bool {
    form(profile, bus, Word::from_u32(number)) == sight
}

// The word of a form.
fn number_of(profile: &Profile, said: Form) -> u32
    requires { IsInRange said }
{
    word_of(profile, &said).to_u32()
}

// Whether the form is said by this word, and by no other.
fn is_said_by(profile: &Profile, said: Form, number: u32) -> bool
    requires { IsInRange said }
{
    number_of(profile, said) == number && says(profile, said.bus(), number, Sight::Form(said))
}

const TOLD: [(Bus, u32, Sight); 10] = [
    (Bus::A, RTS, Sight::Form(Form::Rts { count: 3 })),
    (Bus::B, RTS, Sight::Free),
    (Bus::A, 0xC141_0423, Sight::Form(Form::Rts { count: 4 })),
    // A count of 2, another destination, and a code that no form has.
    (Bus::A, 0xC141_0223, Sight::NoForm),
    (Bus::A, 0x4142_0323, Sight::NoForm),
    (Bus::A, 0x4441_0323, Sight::NoForm),
    // Wrong parity, an ignored type, and an ignored code.
    (Bus::A, 0x9200_4123, Sight::Free),
    (Bus::A, 0x5000_0023, Sight::Free),
    (Bus::A, 0xC300_0023, Sight::Free),
    // A partial word of one semi-octet with another one that is not 0.
    (Bus::A, 0x1100_4123, Sight::NoForm),
];

// The first of them that says something else.
fn first_that_differs(profile: &Profile) -> Option<u32> {
    for (bus, number, sight) in TOLD {
        if !says(profile, bus, number, sight) {
            return Some(number);
        }
    }
    None
}

#[test]
fn words_are_known_by_their_fields(rt: HostRuntime) -> Result<(), Fail> {
    let profile = sample(&rt);
    none_differs(first_that_differs(&profile))
}

// The form of the full data word in the table below.
fn five_semis() -> Option<Form> {
    match Semis::new(&[12, 4, 5, 4, 8]) {
        Some(semis) => Some(Form::Part(semis)),
        None => None,
    }
}

// A full data word; the same on bus B, with wrong parity, and with another label; a partial word and a request.
const FULL: [(Bus, u32, bool); 6] = [
    (Bus::A, 0x8845_4C23, true),
    (Bus::B, 0x8845_4C23, false),
    (Bus::A, 0x0845_4C23, false),
    (Bus::A, 0x0845_4CA3, false),
    (Bus::A, PART, false),
    (Bus::A, RTS, false),
];

// The first of them of which something else is found.
fn first_found_otherwise(profile: &Profile) -> Option<u32> {
    for (bus, number, is_full) in FULL {
        let form = if is_full { five_semis() } else { None };
        if form_if_full(profile, bus, Word::from_u32(number)) != form {
            return Some(number);
        }
    }
    None
}

#[test]
fn full_data_words_are_found(rt: HostRuntime) -> Result<(), Fail> {
    let profile = sample(&rt);
    none_differs(first_found_otherwise(&profile))
}

// Which form of the other direction a word has: an acknowledgement and a negative answer on bus A; a request to another destination, a start
// word and an end word on bus B. None has a word with a form, a request for 2 words, one of even parity, and one of another label.
const ACROSS: [(Bus, u32, Option<Form>); 9] = [
    (Bus::A, 0xC501_0123, Some(Form::Ack { file: 1, ldu: 1 })),
    (Bus::A, 0x4612_3423, Some(Form::Nak { bits: 0x1234 })),
    (Bus::B, 0xC142_06A3, Some(Form::Rts { count: 6 })),
    (
        Bus::B,
        0xE001_01A3,
        Some(Form::Sot {
            gfi: 0,
            file: 1,
            ldu: 1,
        }),
    ),
    (
        Bus::B,
        0xF157_15A3,
        Some(Form::Eot {
            flags: 1,
            check: 0x5715,
        }),
    ),
    (Bus::A, RTS, None),
    (Bus::B, 0x4142_02A3, None),
    (Bus::A, 0x4501_0123, None),
    (Bus::A, ACK, None),
];

// The first of them that has another one.
fn first_across_otherwise(profile: &Profile) -> Option<u32> {
    for (bus, number, said) in ACROSS {
        if form_across(profile, bus, Word::from_u32(number)) != said {
            return Some(number);
        }
    }
    None
}

#[test]
fn words_of_the_other_direction_are_known(rt: HostRuntime) -> Result<(), Fail> {
    let profile = sample(&rt);
    assert!(rt; other_line(Bus::A) == Bus::B);
    none_differs(first_across_otherwise(&profile))
}

// Whether the partial word of some semi-octets is said by this word, and by no other.
fn is_part(profile: &Profile, digits: &[u8], number: u32) -> bool {
    match Semis::new(digits) {
        Some(semis) => is_said_by(profile, Form::Part(semis), number),
        None => false,
    }
}

#[test]
fn forms_have_their_words(rt: HostRuntime) {
    let start = Form::Sot {
        gfi: 0,
        file: 1,
        ldu: 1,
    };
    let end = Form::Eot {
        flags: 1,
        check: 0xA3F5,
    };
    let profile = sample(&rt);
    let are_said = [
        is_said_by(&profile, Form::Rts { count: 3 }, RTS),
        is_said_by(&profile, Form::Cts { count: 3 }, CTS),
        is_said_by(&profile, start, SOT),
        is_part(&profile, &[1, 4], PART),
        is_said_by(&profile, end, EOT),
        is_said_by(&profile, Form::Ack { file: 1, ldu: 1 }, ACK),
        is_said_by(&profile, Form::Nak { bits: 0 }, NAK),
    ];
    assert!(rt; are_said == [true; 7]);
}

// Whether semi-octets are kept as they are; `None` where they are refused.
fn are_kept(digits: &[u8]) -> Option<bool> {
    let semis = Semis::new(digits)?;
    Some(semis.as_slice() == digits)
}

#[test]
fn semi_octets_are_one_to_five_numbers_of_four_bits(rt: HostRuntime) {
    assert!(rt; are_kept(&[15, 0, 1, 2, 3]) == Some(true));
    assert!(rt; are_kept(&[]).is_none());
    assert!(rt; are_kept(&[1, 2, 3, 4, 5, 6]).is_none());
    assert!(rt; are_kept(&[1, 16]).is_none());
}
