//! Bits that give bytes a wanted check word.

ghost use Rattle.std.specs.Prelude.{◌≡◌, ◌≢◌, ℕ, ◌^◌, ◌<◌, ◌≤◌, IfOk, IfSome, IfNone};
ghost use Rattle.a429_ldu.specs.CheckWord.{check_of};
ghost use Rattle.a429_merge.specs.FreeBits.{with_bits};

use crate::choice::choose_columns;
use a429_ldu::check_word_by;
use a429_profile::CheckTables;
use std::alloc::{AllocError, Global};

/// A number of at most `count` bits that, exclusive-ored into the bytes (its lowest eight into the first), gives them the
/// check word `wanted`. `None` where no such number does. `count` is at most 32.
pub fn bits_for_check_word(
    alloc: Global,
    rule: &CheckTables,
    bytes: &[u8],
    count: usize,
    wanted: u16,
) -> Result<Option<u32>, AllocError>
    requires { count ≤ 32 }
    ensures found { IfOk result (λ bits. IfSome bits (λ m. check_of rule.now (with_bits m bytes.now) ≡ wanted)) }
    ensures within { IfOk result (λ bits. IfSome bits (λ m. m < 2 ^ count)) }
    ensures none { IfOk result (λ bits. IfNone bits ((m : ℕ) → m < 2 ^ count → check_of rule.now (with_bits m bytes.now) ≢ wanted)) }
{
    // (for the proof: polynomial and start have 16 bits)
    let _numbers = rule.rule();
    let start = check_word_by(rule, bytes);
    let mut columns = Vec::new(alloc);
    for k in 0..count {
        let changed = with_bits(alloc, bytes, 1 << k)?;
        columns.push(check_word_by(rule, &changed) ^ start)?;
    }
    choose_columns(alloc, &columns, start ^ wanted)
}

/// The bytes, with bits exclusive-ored into the first of them, the lowest bit first.
pub(crate) fn with_bits(alloc: Global, bytes: &[u8], bits: u32) -> Result<Vec<u8>, AllocError>
    ensures { IfOk result (λ v. v.items ≡ with_bits bits bytes.now) }
{
    let mut changed = Vec::with_capacity(alloc, bytes.len())?;
    let mut rest = bits;
    for byte in bytes {
        changed.push(*byte ^ (rest % 256) as u8)?;
        rest /= 256;
    }
    Ok(changed)
}
