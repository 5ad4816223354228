//! The recorded words, screened by a label.

ghost use Rattle.std.specs.Prelude.{◌≡◌, ◌≤◌, ◌<◌, length, slice_get, IfSome};
ghost use Rattle.a429_word.specs.Screening.{screened};
ghost use Rattle.a429_explain.specs.Screening.{AreAnswers, window_at};

use a429_record::{Entry, SCREENED, screen_entries};
use std::marker::Model;

/// The entries of a recording, with what `screen` returns, by one label, for the words of some of them in a row.
#[derive(Drop)]
pub(crate) struct Screening<'a> {
    entries: &'a [Entry],
    label: u8,
    from: usize,
    answers: [u8; SCREENED],
}

impl<'a> Model for Screening<'a> {
    ghost use Rattle.std.specs.Prelude.{◌≤◌, length};
    ghost use Rattle.a429_explain.specs.Screening.{ScreenedEntries, AreAnswers, window_at};

    ghost Value = { ScreenedEntries };

    ghost view = { λ s. record { entries = s.entries.now; label = s.label } };

    ghost invariant = { λ s. AreAnswers s.label (window_at s.entries.now s.from) s.answers };
}

impl<'a> Screening<'a> {
    /// Entries whose words are screened by this label.
    pub(crate) fn new(entries: &'a [Entry], label: u8) -> Screening<'a>
        ensures { result ≡ record { entries = entries.now; label = label } }
    {
        Screening {
            entries,
            label,
            from: 0,
            answers: answers_from(entries, label, 0),
        }
    }

    /// What `screen` returns for the word of an entry. Where that is not known yet, the entry is screened together with
    /// those after it.
    pub(crate) fn answer(&mut self, at: usize) -> u8
        requires { at < length self.old.entries }
        ensures answer { IfSome (slice_get self.old.entries at) (λ e. result ≡ screened self.old.label e.word) }
        ensures same { self.new ≡ self.old }
    {
        if self.from <= at && at - self.from < SCREENED {
            return self.answers[at - self.from];
        }
        self.answers = answers_from(self.entries, self.label, at);
        self.from = at;
        self.answers[0]
    }
}

// What `screen` returns for the words of the entries from a place on, 256 at most.
fn answers_from(entries: &[Entry], label: u8, from: usize) -> [u8; SCREENED]
    requires { from ≤ length entries.now }
    ensures { AreAnswers label (window_at entries.now from) result }
{
    let rest = &entries[from..];
    screen_entries(&rest[..rest.len().min(SCREENED)], label)
}
