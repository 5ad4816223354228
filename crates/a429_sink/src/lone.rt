//! A sink by itself, word after word.

ghost use Rattle.std.specs.Prelude.{◌≡◌, ◌↔◌, IsTrue, Some, IfOk, IfErr, OnOk, OnErr};
ghost use Rattle.a429_ldu.specs.Form.{form_of};
ghost use Rattle.a429_link.specs.Implied.{does, implies_form, observer_of};
ghost use Rattle.a429_link.specs.Observer.{AllowsForm, HasGrant};
ghost use Rattle.a429_link.specs.Sink.{IsAck, MayAnswer, without_files};
ghost use Rattle.a429_link.specs.Trace.{sink_at_first};
ghost use Rattle.a429_sink.specs.Alone.{SinkAllows, SinkAllowsOn};
ghost use Rattle.a429_sink.specs.Lone.{IsFaultOf, IsFaultOn, IsInBlock, IsSinkFault, capped, crosses, crosses_form, crossing_by, granted_anew, keeps, keeps_form};
ghost use Rattle.a429_sink.specs.Owed.{owed_by};

use crate::alone::sink_allows;
use crate::fault::SinkFault;
use crate::owed::Owed;
use a429_ldu::{Form, Semis, Sight, form};
use a429_link::{Crossing, Doing, ImpliedSink, Next, Seen};
use a429_profile::Profile;
use a429_word::{Bus, Word};
use std::alloc::{AllocError, Global};
use std::marker::Model;

/// A sink by itself, which takes each word when it is recorded, whatever its source sends. It keeps the bytes of the file that is not
/// whole, and a block with no more data words than were asked for: one with more is not good, whatever comes.
#[derive(Drop)]
pub struct LoneSink {
    implied: ImpliedSink,
    count: u8,
}

impl Model for LoneSink {
    ghost use Rattle.std.specs.Prelude.{◌≡◌, []};
    ghost use Rattle.a429_link.specs.Sink as model;
    ghost use Rattle.a429_sink.specs.Lone.{IsCounted};

    ghost Value = { model.Sink };

    ghost view = { λ s. s.implied.sink };

    ghost invariant = { λ s. (s.count ≡ s.implied.sink.count) × (s.implied.sink.received.files ≡ []) × IsCounted s.implied };
}

impl LoneSink {
    /// That of a recording at its start.
    pub fn new(alloc: Global) -> LoneSink
        ensures { result ≡ sink_at_first }
    {
        LoneSink {
            implied: ImpliedSink::new(alloc),
            count: 0,
        }
    }

    /// Whether a sink that keeps the rules may have this word recorded next: any word on bus A; on bus B a free word, or an answer
    /// that it owes.
    pub fn allows(&self, profile: &Profile, seen: Seen) -> bool
        ensures { IsTrue result ↔ SinkAllows profile.now self.now seen }
    {
        sink_allows(&self.implied, profile, seen)
    }

    /// The answer that the sink owes.
    pub fn owes(&self) -> Owed
        ensures { result ≡ owed_by self.now }
    {
        match self.implied.next() {
            Next::Clear(count) => Owed::Clear(count),
            Next::Ack { file, ldu } => Owed::Ack { file, ldu },
            Next::Nak => Owed::Nak,
            Next::Request | Next::Block { .. } => Owed::Nothing,
        }
    }

    /// Takes the next recorded word where a sink that keeps the rules may have it recorded, whatever its source sends, and answers which
    /// file crosses by it. Where no sink sends it after the words before it, it is refused, and the sink is unchanged. So it is where an
    /// acknowledgement wants memory and there is none.
    pub fn see(
        &mut self,
        alloc: Global,
        profile: &Profile,
        seen: Seen,
    ) -> Result<Option<Crossing>, SinkFault>
        ensures allowed { OnOk result (SinkAllows profile.now self.old seen) }
        ensures taken { OnOk result (self.new ≡ keeps profile.now seen self.old) }
        ensures crosses { IfOk result (λ crossing. crossing ≡ crosses profile.now seen self.old) }
        ensures fault { IfErr result (λ fault. IsSinkFault profile.now self.old seen fault) }
        ensures unchanged { OnErr result (self.new ≡ self.old) }
    {
        match seen.bus {
            Bus::A => {
                self.see_word(alloc, profile, seen.word);
                Ok(None)
            }
            Bus::B => self.see_answer(alloc, profile, seen.word),
        }
    }

    // Takes a word of bus A.
    fn see_word(&mut self, alloc: Global, profile: &Profile, word: Word)
        ensures { self.new ≡ keeps_form profile.now Bus.A word (form_of profile.now.codes Bus.A word) self.old }
    {
        match form(profile, Bus::A, word) {
            Sight::Form(form) => self.take_word(alloc, profile, word, &form),
            Sight::Free => self.rests(),
            Sight::NoForm => self.rests(),
        }
    }

    // Takes a word of bus B, if a sink may have it recorded.
    fn see_answer(
        &mut self,
        alloc: Global,
        profile: &Profile,
        word: Word,
    ) -> Result<Option<Crossing>, SinkFault>
        ensures allowed { OnOk result (SinkAllowsOn profile.now self.old Bus.B word) }
        ensures taken { OnOk result (self.new ≡ keeps_form profile.now Bus.B word (form_of profile.now.codes Bus.B word) self.old) }
        ensures crosses { IfOk result (λ crossing. crossing ≡ crosses_form profile.now Bus.B (form_of profile.now.codes Bus.B word) self.old) }
        ensures fault { IfErr result (λ fault. IsFaultOn profile.now self.old Bus.B word fault) }
        ensures unchanged { OnErr result (self.new ≡ self.old) }
    {
        match form(profile, Bus::B, word) {
            Sight::Form(form) => self.give(alloc, profile, &form),
            Sight::Free => {
                self.rests();
                Ok(None)
            }
            Sight::NoForm => Err(SinkFault::Refused),
        }
    }

    // Gives an answer of this form, if the sink may give it.
    fn give(
        &mut self,
        alloc: Global,
        profile: &Profile,
        form: &Form,
    ) -> Result<Option<Crossing>, SinkFault>
        ensures allowed { OnOk result (MayAnswer self.old.count self.old.phase form.now) }
        ensures taken { OnOk result (self.new ≡ keeps_form profile.now Bus.B 0 (Some form.now) self.old) }
        ensures crosses { IfOk result (λ crossing. crossing ≡ crosses_form profile.now Bus.B (Some form.now) self.old) }
        ensures fault { IfErr result (λ fault. IsFaultOf self.old form.now fault) }
        ensures unchanged { OnErr result (self.new ≡ self.old) }
    {
        if !self.implied.allows(Bus::B, form) {
            return Err(SinkFault::Refused);
        }
        match self.answer(alloc, profile, form) {
            Ok(doing) => Ok(crossing_by(&doing)),
            Err(_) => Err(SinkFault::OutOfMemory),
        }
    }

    /// Takes a word of bus A that has this form, whatever its source sends.
    pub fn take_word(&mut self, alloc: Global, profile: &Profile, word: Word, form: &Form)
        ensures { self.new ≡ keeps_form profile.now Bus.A word (Some form.now) self.old }
    {
        match *form {
            Form::Rts { count } => self.take_request(alloc, profile, count),
            Form::Sot { gfi, file, ldu } => self.take_start(alloc, profile, gfi, file, ldu),
            Form::Part(semis) => self.take_part(alloc, profile, word, semis),
            Form::Eot { flags, check } => self.take_end(alloc, profile, flags, check),
            Form::Cts { .. } => self.rests(),
            Form::Ack { .. } => self.rests(),
            Form::Nak { .. } => self.rests(),
        }
    }

    /// Gives an answer of this form, which the sink may give, and answers what the sink does then. An acknowledgement alone may want
    /// memory; where there is none, the sink is unchanged.
    pub fn answer(
        &mut self,
        alloc: Global,
        profile: &Profile,
        form: &Form,
    ) -> Result<Doing, AllocError>
        requires { MayAnswer self.old.count self.old.phase form.now }
        ensures taken { OnOk result (self.new ≡ keeps_form profile.now Bus.B 0 (Some form.now) self.old) }
        ensures does { IfOk result (λ doing. doing ≡ does profile.now Bus.B 0 form.now self.old) }
        ensures unchanged { OnErr result (self.new ≡ self.old) }
        ensures memory { OnErr result (IsAck (Some form.now)) }
    {
        let seen = Seen {
            bus: Bus::B,
            word: Word::from_u32(0),
        };
        self.implied.take(alloc, profile, seen, form)
    }

    // Takes a request.
    fn take_request(&mut self, alloc: Global, profile: &Profile, count: u8)
        ensures { self.new ≡ keeps_form profile.now Bus.A 0 (Some (Form.Rts count)) self.old }
    {
        take_allowed(
            &mut self.implied,
            alloc,
            profile,
            Word::from_u32(0),
            &Form::Rts { count },
        );
        self.count = count;
    }

    // Takes a start word: it begins a block, or begins it again.
    fn take_start(&mut self, alloc: Global, profile: &Profile, gfi: u8, file: u8, ldu: u8)
        ensures { self.new ≡ keeps_form profile.now Bus.A 0 (Some (Form.Sot gfi file ldu)) self.old }
    {
        if self.has_grant() && self.count >= 2 {
            grant_anew(&mut self.implied, alloc, profile, self.count);
            let form = Form::Sot { gfi, file, ldu };
            take_allowed(&mut self.implied, alloc, profile, Word::from_u32(0), &form);
        }
    }

    // Takes a data word: it joins the block, or is one too many for it.
    fn take_part(&mut self, alloc: Global, profile: &Profile, word: Word, semis: Semis)
        ensures { self.new ≡ keeps_form profile.now Bus.A word (Some (Form.Part semis)) self.old }
    {
        if self.is_in_block() {
            let form = Form::Part(semis);
            if self.implied.allows(Bus::A, &form) {
                take_allowed(&mut self.implied, alloc, profile, word, &form);
            } else {
                grant_anew(&mut self.implied, alloc, profile, self.count);
            }
        }
    }

    // Takes an end word: it ends the block, or the grant without one.
    fn take_end(&mut self, alloc: Global, profile: &Profile, flags: u8, check: u16)
        ensures { self.new ≡ keeps_form profile.now Bus.A 0 (Some (Form.Eot flags check)) self.old }
    {
        if self.has_grant() {
            take_allowed(
                &mut self.implied,
                alloc,
                profile,
                Word::from_u32(0),
                &Form::Eot { flags, check },
            );
        }
    }

    // What is kept has no more to leave out, so a word that does nothing to a sink changes nothing.
    fn rests(&self)
        ensures { without_files (capped self.now) ≡ self.now }
    {
        let _ = &self.implied;
    }

    // It is in a block, or waits for one.
    fn has_grant(&self) -> bool
        ensures { IsTrue result ↔ HasGrant self.now.phase }
    {
        self.implied
            .allows(Bus::A, &Form::Eot { flags: 0, check: 0 })
    }

    // It is in a block.
    fn is_in_block(&self) -> bool
        ensures { IsTrue result ↔ IsInBlock self.now.phase }
    {
        self.has_grant()
            && !self.implied.allows(
                Bus::A,
                &Form::Sot {
                    gfi: 0,
                    file: 0,
                    ldu: 0,
                },
            )
    }
}

// The file that crosses by what the sink does.
fn crossing_by(doing: &Doing) -> Option<Crossing>
    ensures { result ≡ crossing_by doing.now }
{
    match *doing {
        Doing::Accepts { crossing, .. } => crossing,
        _ => None,
    }
}

// Takes an allowed word of bus A.
pub(crate) fn take_allowed(
    sink: &mut ImpliedSink,
    alloc: Global,
    profile: &Profile,
    word: Word,
    form: &Form,
)
    requires { AllowsForm (observer_of sink.old) Bus.A (Some form.now) }
    ensures { sink.new ≡ implies_form profile.now Bus.A word (Some form.now) sink.old }
{
    let seen = Seen { bus: Bus::A, word };
    match sink.take(alloc, profile, seen, form) {
        Ok(_) => {}
        // Only an acknowledgement may want memory, and none is allowed on bus A.
        Err(_) => {}
    }
}

// The sink is asked and clears anew: it leaves its block, and waits for a start word.
pub(crate) fn grant_anew(sink: &mut ImpliedSink, alloc: Global, profile: &Profile, count: u8)
    requires { count ≡ sink.old.sink.count }
    ensures { sink.new ≡ granted_anew sink.old }
{
    let word = Word::from_u32(0);
    take_allowed(sink, alloc, profile, word, &Form::Rts { count });
    match sink.take(
        alloc,
        profile,
        Seen { bus: Bus::B, word },
        &Form::Cts { count },
    ) {
        Ok(_) => {}
        // Only an acknowledgement may want memory.
        Err(_) => {}
    }
}
