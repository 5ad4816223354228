//! Parity and label of many entries at once.

ghost use Rattle.std.specs.Prelude.{◌≡◌, ◌≤◌, length, take, map};
ghost use Rattle.a429_word.specs.Screening.{screened};

use crate::entry::Entry;
use a429_word::screen;

/// How many entries are screened together.
pub const SCREENED: usize = 256;

/// What `screen` returns for the word of each entry, at the entry's place. The values after those of the
/// entries mean nothing. The buses are not looked at.
pub fn screen_entries(entries: &[Entry], label: u8) -> [u8; SCREENED]
    requires { length entries.now ≤ SCREENED }
    ensures { take (length entries.now) result ≡ map (λ e. screened label e.word) entries.now }
{
    let mut words = [0; SCREENED];
    for i in 0..entries.len() {
        words[i] = entries[i].word.to_u32();
    }
    let mut answers = [0; SCREENED];
    screen(
        &words[..entries.len()],
        label,
        &mut answers[..entries.len()],
    );
    answers
}
