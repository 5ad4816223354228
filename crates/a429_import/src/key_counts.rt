//! How many entries have a key.

ghost use Rattle.std.specs.Prelude.{◌≡◌, ◌+◌, ◌-◌, ◌<◌, ◌^◌, OnErr, OnOk};
ghost use Rattle.std.specs.BTreeMap.{IsUnchanged};
ghost use Rattle.a429_import.specs.KeyCounts.{IsCountedAs, times_at};

use crate::sort_key::SortKey;
use std::alloc::AllocError;
use std::collections::BTreeMap;

/// One entry more has this key. Where memory is refused nothing changes.
pub(crate) fn count_one(counts: &mut BTreeMap<SortKey, u64>, key: SortKey) -> Result<(), AllocError>
    requires { times_at counts.old key + 1 < 2 ^ 64 }
    ensures ok { OnOk result (IsCountedAs key (times_at counts.old key + 1) counts.old counts.new) }
    ensures err { OnErr result (IsUnchanged counts.old counts.new) }
{
    match counts.entry(key) {
        Ok(times) => *times.or_insert(0) += 1,
        Err(_) => return Err(AllocError),
    }
    Ok(())
}

/// One entry fewer has it.
pub(crate) fn uncount_one(counts: &mut BTreeMap<SortKey, u64>, key: SortKey)
    ensures { IsCountedAs key (times_at counts.old key - 1) counts.old counts.new }
{
    match counts.get_mut(&key) {
        Some(times) if *times > 1 => *times -= 1,
        _ => {
            let _ = counts.remove(&key);
        }
    }
}
