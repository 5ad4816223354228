//! What holds a text, numbers or flags gives them back.

use a429_profile::{Flag, Flags, Numbers, Text};
use std::alloc::{AllocError, Global};

fn text(alloc: Global, letters: &str) -> Result<Text, AllocError> {
    Ok(Text::new(String::from_str(alloc, letters)?))
}

fn is_given_back(alloc: Global, letters: &str) -> Result<bool, AllocError> {
    let given = text(alloc, letters)?.into_string();
    Ok(given.as_str() == letters)
}

fn are_given_back(alloc: Global) -> Result<bool, AllocError> {
    let mut numbers = Vec::new(alloc);
    numbers.push(5)?;
    numbers.push(3)?;
    let given = Numbers::new(numbers).into_vec();
    Ok(given.as_slice() == [5, 3].as_slice())
}

fn two_flags(alloc: Global) -> Result<Flags, AllocError> {
    let mut flags = Vec::new(alloc);
    flags.push(Flag {
        bit: 11,
        name: text(alloc, "gear")?,
    })?;
    flags.push(Flag {
        bit: 12,
        name: text(alloc, "door")?,
    })?;
    Flags::new(alloc, flags)
}

// The bits of the flags that are given back.
fn bits(alloc: Global) -> Result<[u8; 2], AllocError> {
    match two_flags(alloc)?.into_vec().as_slice() {
        [one, two] => Ok([one.bit, two.bit]),
        _ => Ok([0, 0]),
    }
}

fn are_ready(alloc: Global) -> Result<bool, AllocError> {
    let flags = two_flags(alloc)?;
    Ok(flags.texts() == b" gear=0 gear=1 door=0 door=1".as_slice())
}

#[test]
fn what_was_put_in(rt: HostRuntime) {
    assert!(rt; is_given_back(rt.alloc(), "gear") == Ok(true));
    assert!(rt; are_given_back(rt.alloc()) == Ok(true));
    assert!(rt; bits(rt.alloc()) == Ok([11, 12]));
    assert!(rt; are_ready(rt.alloc()) == Ok(true));
}
