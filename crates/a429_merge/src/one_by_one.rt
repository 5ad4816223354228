//! One list that has several, each merged with the list for those before it.

ghost use Rattle.std.specs.Prelude.{◌≡◌, ◌<◌, IfOk, IfSome, IfNone, length, sum_by};
ghost use Rattle.a429_ldu.specs.Ldu.{most_data_words};
ghost use Rattle.a429_merge.specs.Order.{lists_of, HasEach};

use crate::budget::Budget;
use crate::pair::merge_shortest;
use a429_ldu::MOST_DATA_WORDS;
use a429_word::Word;
use std::alloc::{AllocError, Global};

/// A list that has each of these in its order, not always a shortest. `None` where one of them, or the list for
/// those before the last, has more words than a link data unit can have.
pub(crate) fn merge_one_by_one(
    alloc: Global,
    lists: &[Vec<Word>],
    budget: &mut Budget,
) -> Result<Option<Vec<Word>>, AllocError>
    ensures kept { IfOk result (λ merged. IfSome merged (λ v. HasEach v.items (lists_of lists.now))) }
    ensures none { IfOk result (λ merged. IfNone merged (most_data_words < sum_by (λ list. length list.items) lists.now)) }
    ensures cut { budget.new.cut ≡ budget.old.cut }
    ensures entry { budget.new.entry ≡ budget.old.entry }
{
    let mut merged = Vec::new(alloc);
    for list in lists {
        if merged.len() > MOST_DATA_WORDS || list.len() > MOST_DATA_WORDS {
            return Ok(None);
        }
        budget.spend(merged.len() * list.len());
        merged = merge_shortest(alloc, &merged, list)?;
    }
    Ok(Some(merged))
}
