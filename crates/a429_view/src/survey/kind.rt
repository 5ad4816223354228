//! What a word is to the file transfer, without its numbers.

ghost use Rattle.std.specs.Prelude.{◌≡◌, ◌<◌, Option, Some, None};
ghost use Rattle.a429_ldu.specs.declared.forms.Form.{Form as AForm};
ghost use Rattle.a429_ldu.specs.Form.{form_of};
ghost use Rattle.a429_profile.specs.declared.codes.Codes.{Codes};
ghost use Rattle.a429_view.specs.Survey.{Numbered, is_even, kind_of, kind_in, place, name};

use a429_ldu::{Form, Freedom, Sight, form, form_across, why_free};
use a429_profile::Profile;
use a429_record::Entry;

/// The kinds of words that a survey counts (ARINC 429 Part 3; why a word is free: profile).
#[derive(Clone, Copy)]
pub enum WordKind {
    Rts,
    Cts,
    Ack,
    Nak,
    Sot,
    Data,
    Eot,
    /// It has no form, and one in the other direction.
    Other,
    /// It claims to be a word of the transfer, and has no form in either direction.
    NoForm,
    /// Its parity is even: it is damaged.
    FreeParity,
    /// Its label is not that of the transfer on its bus.
    FreeLabel,
    /// The profile ignores its type.
    FreeType,
    /// The profile ignores its code.
    FreeCode,
}

/// How many kinds there are.
pub(crate) const KIND_COUNT: usize = 13;

/// All of them, in the order in which a survey lists them.
pub(crate) const KINDS: [WordKind; KIND_COUNT] = [
    WordKind::Rts,
    WordKind::Cts,
    WordKind::Ack,
    WordKind::Nak,
    WordKind::Sot,
    WordKind::Data,
    WordKind::Eot,
    WordKind::Other,
    WordKind::NoForm,
    WordKind::FreeParity,
    WordKind::FreeLabel,
    WordKind::FreeType,
    WordKind::FreeCode,
];

impl WordKind {
    /// The kind of an entry's word.
    pub(crate) fn of(profile: &Profile, entry: &Entry) -> WordKind
        ensures { result ≡ kind_of profile.now.codes entry.now.bus entry.now.word }
    {
        match form(profile, entry.bus, entry.word) {
            Sight::Form(form) => form_kind(form),
            Sight::NoForm => other_kind(form_across(profile, entry.bus, entry.word)),
            Sight::Free => match why_free(profile, entry.bus, entry.word) {
                Some(why) => free_kind(why),
                // (a free word has a reason)
                None => WordKind::NoForm,
            },
        }
    }

    /// Its place in the order of the kinds.
    pub(crate) fn place(self) -> usize
        ensures place { result ≡ place self }
        ensures inside { result < 13 }
    {
        match self {
            WordKind::Rts => 0,
            WordKind::Cts => 1,
            WordKind::Ack => 2,
            WordKind::Nak => 3,
            WordKind::Sot => 4,
            WordKind::Data => 5,
            WordKind::Eot => 6,
            WordKind::Other => 7,
            WordKind::NoForm => 8,
            WordKind::FreeParity => 9,
            WordKind::FreeLabel => 10,
            WordKind::FreeType => 11,
            WordKind::FreeCode => 12,
        }
    }

    /// Whether it is that of words with even parity.
    pub(crate) fn is_even(self) -> bool
        ensures { (c : Codes) (x : Numbered) → self ≡ kind_of c x.entry.bus x.entry.word → result ≡ is_even x }
    {
        matches!(self, WordKind::FreeParity)
    }

    /// Its name in the lines of a survey.
    pub(crate) fn name(self) -> &'static [u8]
        ensures { result.now ≡ name self }
    {
        match self {
            WordKind::Rts => b"rts",
            WordKind::Cts => b"cts",
            WordKind::Ack => b"ack",
            WordKind::Nak => b"nak",
            WordKind::Sot => b"sot",
            WordKind::Data => b"data",
            WordKind::Eot => b"eot",
            WordKind::Other => b"other",
            WordKind::NoForm => b"no form",
            WordKind::FreeParity => b"free parity",
            WordKind::FreeLabel => b"free label",
            WordKind::FreeType => b"free type",
            WordKind::FreeCode => b"free code",
        }
    }
}

fn free_kind(why: Freedom) -> WordKind
    ensures { (f other : Option AForm) → result ≡ kind_in (Some why) f other }
{
    match why {
        Freedom::BadParity => WordKind::FreeParity,
        Freedom::OtherLabel => WordKind::FreeLabel,
        Freedom::IgnoredType => WordKind::FreeType,
        Freedom::IgnoredCode => WordKind::FreeCode,
    }
}

fn form_kind(form: Form) -> WordKind
    ensures { (other : Option AForm) → result ≡ kind_in None (Some form) other }
{
    match form {
        Form::Rts { .. } => WordKind::Rts,
        Form::Cts { .. } => WordKind::Cts,
        Form::Ack { .. } => WordKind::Ack,
        Form::Nak { .. } => WordKind::Nak,
        Form::Sot { .. } => WordKind::Sot,
        Form::Part(_) => WordKind::Data,
        Form::Eot { .. } => WordKind::Eot,
    }
}

// The kind of a word that has no form, by that in the other direction.
fn other_kind(other: Option<Form>) -> WordKind
    ensures { result ≡ kind_in None None other }
{
    match other {
        Some(_) => WordKind::Other,
        None => WordKind::NoForm,
    }
}
