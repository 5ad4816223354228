//! Columns of 16 bits whose exclusive or is a wanted number, by elimination.

ghost use Rattle.std.specs.Prelude.{◌≡◌, ◌≢◌, ℕ, ◌^◌, ◌<◌, ◌≤◌, All, length, fold, IfOk, IfSome, IfNone};
ghost use Rattle.a429_merge.specs.Choice.{xor_of, reduced_by, IsBasis};

use std::alloc::{AllocError, Global};

/// Some of these columns, at most 32, whose exclusive or is the wanted number: the bit of each, the first column's
/// lowest. `None` where no columns have it.
pub(crate) fn choose_columns(
    alloc: Global,
    columns: &[u16],
    wanted: u16,
) -> Result<Option<u32>, AllocError>
    requires { length columns.now ≤ 32 }
    ensures chosen { IfOk result (λ found. IfSome found (λ m. xor_of columns.now m ≡ wanted)) }
    ensures within { IfOk result (λ found. IfSome found (λ m. m < 2 ^ length columns.now)) }
    ensures none { IfOk result (λ found. IfNone found ((m : ℕ) → xor_of columns.now m ≢ wanted)) }
{
    let basis = basis_of(alloc, columns)?;
    let sum = Sum {
        value: wanted,
        chosen: 0,
    };
    let rest = reduced(&basis, sum);
    if rest.value == 0 {
        Ok(Some(rest.chosen))
    } else {
        Ok(None)
    }
}

// The exclusive or of some columns, and which they are.
#[derive(Clone, Copy)]
struct Sum {
    value: u16,
    chosen: u32,
}

// Sums of columns, none of them 0, to which all columns reduce.
fn basis_of(alloc: Global, columns: &[u16]) -> Result<Vec<Sum>, AllocError>
    requires { length columns.now ≤ 32 }
    ensures { IfOk result (λ basis. IsBasis columns.now basis.items columns.now) }
{
    let mut basis = Vec::new(alloc);
    for k in 0..columns.len() {
        let sum = Sum {
            value: columns[k],
            chosen: 1 << k,
        };
        let rest = reduced(&basis, sum);
        if rest.value != 0 {
            basis.push(rest)?;
        }
    }
    Ok(basis)
}

// What is left of a sum, after each of the basis has taken its own lowest bit away from it.
fn reduced(basis: &[Sum], sum: Sum) -> Sum
    requires { All (λ s. 0 < s.value) basis.now }
    ensures { result ≡ fold reduced_by sum basis.now }
{
    let mut rest = sum;
    for step in basis {
        if (rest.value >> step.value.trailing_zeros()) & 1 == 1 {
            rest.value ^= step.value;
            rest.chosen ^= step.chosen;
        }
    }
    rest
}
