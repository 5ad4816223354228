//! The requests of a piece: with which of them a file begins.

ghost use Rattle.std.specs.Prelude.{◌≡◌};
ghost use Rattle.a429_sink.specs.Requests.{asked, is_before, no_requests, first_after, requests_after, settled, start_after};

use crate::file_units::UnitsMark;
use a429_ldu::Form;
use a429_profile::Profile;
use a429_word::Bus;

/// What the words after a request say of it.
#[derive(Clone, Copy)]
pub(crate) enum Start {
    /// No start word has come, nor a later request that counts in its place.
    Open,
    /// A file begins with it: the first start word after it is that of a file's first unit.
    OfFile,
    Other,
}

impl Start {
    // After one more word of this form, or of none.
    fn after(self, profile: &Profile, form: &Option<Form>) -> Start
        ensures { result ≡ start_after profile.now.codes form.now self }
    {
        match (self, form) {
            (Start::Open, Some(Form::Rts { .. })) => Start::Other,
            (Start::Open, Some(Form::Sot { ldu, .. })) => {
                if *ldu == profile.codes().first_ldu {
                    Start::OfFile
                } else {
                    Start::Other
                }
            }
            _ => self,
        }
    }

    // The same of the first request, in whose place no later one counts.
    fn after_first(self, profile: &Profile, form: &Option<Form>) -> Start
        ensures { result ≡ first_after profile.now.codes form.now self }
    {
        match form {
            Some(Form::Rts { .. }) => self,
            _ => self.after(profile, form),
        }
    }
}

/// What is said of the first words of a piece, where it may end after them.
#[derive(Clone, Copy)]
pub(crate) struct Mark {
    /// How many words they are.
    pub(crate) place: usize,
    /// The first start word after a request is not that of a file's first unit.
    pub(crate) begun_before: bool,
    /// How many files are sure of them.
    pub(crate) files: usize,
    pub(crate) units: UnitsMark,
}

/// The requests of a piece so far.
#[derive(Clone, Copy)]
pub(crate) struct Requests {
    // What the first start word after the first one says.
    first: Option<Start>,
    /// The last one that begins a file, where it is not the first word.
    pub(crate) place: Option<Mark>,
    /// The last one, where the words after it don't say yet whether it begins a file, and it is not the first word.
    pub(crate) doubt: Option<Mark>,
}

impl Requests {
    /// None.
    pub(crate) fn new() -> Requests
        ensures { result ≡ no_requests }
    {
        Requests {
            first: None,
            place: None,
            doubt: None,
        }
    }

    /// The first start word after a request is not that of a file's first unit.
    pub(crate) fn is_begun_before(&self) -> bool
        ensures { result ≡ is_before self.now.first }
    {
        matches!(self.first, Some(Start::Other))
    }

    /// Takes the next word, which has this form or none. `mark` says what is said of the words before it.
    pub(crate) fn take(&mut self, profile: &Profile, bus: Bus, form: &Option<Form>, mark: Mark)
        ensures { self.new ≡ requests_after profile.now.codes bus form.now mark self.old }
    {
        self.settle(profile, form);
        if let (Bus::A, Some(Form::Rts { .. })) = (bus, form) {
            self.ask(mark);
        }
    }

    // What a word of this form says of the requests before it.
    fn settle(&mut self, profile: &Profile, form: &Option<Form>)
        ensures { self.new ≡ settled profile.now.codes form.now self.old }
    {
        if let Some(first) = self.first {
            self.first = Some(first.after_first(profile, form));
        }
        match Start::Open.after(profile, form) {
            Start::Open => {}
            Start::OfFile => {
                if self.doubt.is_some() {
                    self.place = self.doubt;
                }
                self.doubt = None;
            }
            Start::Other => self.doubt = None,
        }
    }

    // A request comes.
    fn ask(&mut self, mark: Mark)
        ensures { self.new ≡ asked mark self.old }
    {
        if self.first.is_none() {
            self.first = Some(Start::Open);
        }
        if mark.place > 0 {
            self.doubt = Some(mark);
        }
    }
}
