//! Link data units recorded with losses, put together from what each attempt recorded.
#![tactic(auto)]

mod block;
mod bounded;
mod budget;
mod choice;
mod differing;
mod fill;
mod free_bits;
mod longest;
mod merged;
mod one_by_one;
mod order;
mod pair;
mod pieces;
mod subsequence;

pub use crate::block::unit_of_pieces;
pub use crate::bounded::{MOST_NODES, search_words};
pub use crate::budget::{Budget, Cut, Limit};
pub use crate::differing::{MOST_ATTEMPTS, is_in_some, lists_with};
pub use crate::fill::{Wanted, completed};
pub use crate::free_bits::bits_for_check_word;
pub use crate::merged::STEPS_A_WORD;
pub use crate::order::merge_in_one_order;
pub use crate::pair::merge_shortest;
pub use crate::pieces::{EndWord, GroupPieces};
pub use crate::subsequence::is_subsequence;
