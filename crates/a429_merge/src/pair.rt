//! A shortest list that has two others.

ghost use Rattle.std.specs.Prelude.{◌≡◌, ℕ, ◌+◌, ◌<◌, ◌≤◌, List, [], drop, length, IfOk};
ghost use Rattle.a429_link.specs.Run.{IsSubsequenceOf};
ghost use Rattle.a429_ldu.specs.Ldu.{most_data_words};
ghost use Rattle.a429_merge.specs.Order.{lists_of};
ghost use Rattle.a429_merge.specs.Pair.{last, merged_length, IsRow, IsTable};

use a429_word::Word;
use std::alloc::{AllocError, Global};

/// A shortest list that has both of these, each in its order. Each has at most 253 words.
pub fn merge_shortest(alloc: Global, left: &[Word], right: &[Word]) -> Result<Vec<Word>, AllocError>
    requires few_left { length left.now ≤ most_data_words }
    requires few_right { length right.now ≤ most_data_words }
    ensures left { IfOk result (λ v. IsSubsequenceOf left.now v.items) }
    ensures right { IfOk result (λ v. IsSubsequenceOf right.now v.items) }
    ensures shortest { IfOk result (λ v. (zs : List ℕ) → IsSubsequenceOf left.now zs → IsSubsequenceOf right.now zs → length v.items ≤ length zs) }
{
    let rows = merged_lengths(alloc, left, right)?;
    let mut merged = Vec::new(alloc);
    let mut i = 0;
    let mut j = 0;
    while i < left.len() && j < right.len() {
        if left[i] == right[j] {
            merged.push(left[i])?;
            i += 1;
            j += 1;
        } else if length_from(&rows, left, right, i + 1, j)
            <= length_from(&rows, left, right, i, j + 1)
        {
            merged.push(left[i])?;
            i += 1;
        } else {
            merged.push(right[j])?;
            j += 1;
        }
    }
    merged.extend_from_slice(&left[i..])?;
    merged.extend_from_slice(&right[j..])?;
    Ok(merged)
}

/// The length of a shortest list that has the words from place i on of the left, and from place j on of the right.
pub(crate) fn length_from(
    rows: &[Vec<u16>],
    left: &[Word],
    right: &[Word],
    i: usize,
    j: usize,
) -> u16
    requires table { IsTable left.now right.now (lists_of rows.now) }
    requires in_left { i ≤ length left.now }
    requires in_right { j ≤ length right.now }
    ensures { result ≡ merged_length (drop i left.now) (drop j right.now) }
{
    rows[left.len() - i][right.len() - j]
}

/// The length of a shortest list that has the last m words of the left and the last n of the right, in row m at
/// place n.
pub(crate) fn merged_lengths(
    alloc: Global,
    left: &[Word],
    right: &[Word],
) -> Result<Vec<Vec<u16>>, AllocError>
    requires few_left { length left.now ≤ most_data_words }
    requires few_right { length right.now ≤ most_data_words }
    ensures { IfOk result (λ rows. IsTable left.now right.now (lists_of rows.items)) }
{
    let mut rows = Vec::with_capacity(alloc, left.len() + 1)?;
    rows.push(first_row(alloc, right)?)?;
    for m in 0..left.len() {
        let row = next_row(alloc, left, right, m, &rows[m])?;
        rows.push(row)?;
    }
    Ok(rows)
}

// The row for no word of the left.
fn first_row(alloc: Global, right: &[Word]) -> Result<Vec<u16>, AllocError>
    requires { length right.now ≤ most_data_words }
    ensures { IfOk result (λ row. IsRow [] right.now row.items) }
{
    let mut row = Vec::with_capacity(alloc, right.len() + 1)?;
    for n in 0..right.len() + 1 {
        row.push(n as u16)?;
    }
    Ok(row)
}

// The row for one word more of the left.
fn next_row(
    alloc: Global,
    left: &[Word],
    right: &[Word],
    m: usize,
    below: &[u16],
) -> Result<Vec<u16>, AllocError>
    requires more { m < length left.now }
    requires few_left { length left.now ≤ most_data_words }
    requires few_right { length right.now ≤ most_data_words }
    requires row { IsRow (last m left.now) right.now below.now }
    ensures { IfOk result (λ row. IsRow (last (m + 1) left.now) right.now row.items) }
{
    let word = left[left.len() - 1 - m];
    let mut row = Vec::with_capacity(alloc, right.len() + 1)?;
    row.push(below[0] + 1)?;
    for n in 0..right.len() {
        // (both are read, so that this is no branch, which few words would lead astray)
        let with_both = below[n];
        let with_one = below[n + 1].min(row[n]);
        let rest = if word == right[right.len() - 1 - n] {
            with_both
        } else {
            with_one
        };
        row.push(rest + 1)?;
    }
    Ok(row)
}
