//! From a recording to a certificate that explains it, or to the reason why there is none.
#![tactic(auto)]

mod attempts;
mod block;
mod certificate;
mod checking;
mod decoded;
mod explanation;
mod filled;
mod groups;
mod guess;
pub mod laws;
mod lines;
mod matching;
mod next;
mod note;
mod plan;
mod planner;
mod screening;
mod scribe;
mod stop;
mod verdict;
pub mod walk;
mod whole;

pub use crate::attempts::{Role, StartNumbers, roles};
pub use crate::certificate::Certificate;
pub use crate::checking::check;
pub use crate::decoded::{Decoded, DecodedWord};
pub use crate::explanation::{Explanation, Refusal, explain_by};
pub use crate::guess::Guess;
pub use crate::plan::Plan;
pub use crate::verdict::{Doubt, Reason, Verdict};
pub use crate::walk::reason_of;
