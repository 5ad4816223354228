//! A link: one run of a source and a sink, step by step.

ghost use Rattle.std.specs.Prelude.{◌≡◌, ◌↔◌, [], IsTrue, IfErr, IfSome, IfNone, OnOk, OnErr};
ghost use Rattle.a429_ldu.specs.Ldu.{IsLdu, LduValue};
ghost use Rattle.a429_link.specs.declared.carry.NextWord.{NextWord};
ghost use Rattle.a429_link.specs.declared.seen.Seen.{Seen};
ghost use Rattle.a429_link.specs.Carry.{IsAtWord, after_both, sends_word};
ghost use Rattle.a429_link.specs.Step.{Can, after, LoadsLdu, IsFault, IsNamedStep};
ghost use Rattle.a429_link.specs.State.{start, states_of};
ghost use Rattle.a429_link.specs.Link.{handed_out};
ghost use Rattle.a429_link.specs.GiveUps.{MayGiveUp};
ghost use Rattle.a429_link.specs.Run.{IsBounded, IsRun, end_of};
ghost use Rattle.a429_link.specs.Losses.{words_left, losses, StaysBounded};

use crate::carry::NextWord;
use crate::fault::StepFault;
use crate::file::FileBytes;
use crate::number::UnitNumber;
use crate::state::States;
use crate::step::Step;
use crate::transfer::Transfer;
use a429_profile::Profile;
use std::alloc::Global;
use std::marker::Model;

/// The source and the sink of a file transfer and the words between them, under a bench's profile
/// (ARINC 429 Part 3). It is always where some run of the profile leads, and so keeps at most what
/// `IsBounded` says, its delivered files aside.
#[derive(Drop)]
pub struct Link<'a> {
    alloc: Global,
    profile: &'a Profile,
    transfer: Transfer,
}

impl<'a> Model for Link<'a> {
    ghost use Rattle.a429_link.specs.Link.{LinkValue, IsKept};

    ghost Value = { LinkValue };

    ghost view = { λ l. record { profile = l.profile.now; state = l.transfer } };

    ghost invariant = { λ l. IsKept l.profile.now l.transfer };
}

impl<'a> Link<'a> {
    /// A link on which nothing has happened. Its first file has this number.
    pub fn start(alloc: Global, profile: &'a Profile, first_file: u8) -> Link<'a>
        ensures begins { result ≡ record { profile = profile.now; state = start profile.now first_file } }
        ensures bounds { IsBounded result.state }
    {
        Link {
            alloc,
            profile,
            transfer: Transfer::start(alloc, profile, first_file),
        }
    }

    /// Makes one step. A step that is refused changes nothing: `NotAllowed` where there is no step of its
    /// name, `WordDiffers` where there is one, but not with this bus and word, and `OutOfMemory` where it
    /// is an acknowledgement that may be given and there is no memory. What is loaded is a link data unit of the link's profile.
    #[inline(always)]
    pub fn apply(&mut self, step: Step) -> Result<(), StepFault>
        requires { LoadsLdu self.old.profile step }
        ensures allowed { OnOk result (Can self.old.profile step self.old.state) }
        ensures done { OnOk result (self.new ≡ record (self.old) { state = after self.old.profile step self.old.state }) }
        ensures fault { IfErr result (λ e. IsFault self.old.profile step self.old.state e) }
        ensures unchanged { OnErr result (self.new ≡ self.old) }
        ensures bounds { IsBounded self.new.state }
    {
        self.transfer.apply(self.alloc, self.profile, step)
    }

    /// The data word of its block that the source sends next, where the sink has taken all words before it, and nothing is on its way;
    /// `None` where that is not so.
    #[inline(always)]
    pub fn next_word(&self) -> Option<NextWord>
        ensures some { IfSome result (λ next. IsAtWord self.now.profile next self.now.state) }
        ensures none { IfNone result ((next : NextWord) → IsAtWord self.now.profile next self.now.state → ⊥) }
    {
        self.transfer.next_word(self.profile)
    }

    /// Makes two steps at once: the source sends this word, and the sink takes it.
    #[inline(always)]
    pub fn carry(&mut self, next: NextWord)
        requires { IsAtWord self.old.profile next self.old.state }
        ensures allowed { IsRun self.old.profile (sends_word next.word) self.old.state }
        ensures done { self.new ≡ record (self.old) { state = after_both self.old.profile next.word self.old.state } }
        ensures bounds { StaysBounded self.old.profile (sends_word next.word) self.old.state }
    {
        self.transfer.carry(self.profile, next);
    }

    /// Makes many steps at once: each word of its block that the source has still to send is lost. Answers how many, 0 to 255: 0 where
    /// it sends no block.
    pub fn lose_rest(&mut self) -> u8
        ensures count { result ≡ words_left self.old.state.source }
        ensures allowed { IsRun self.old.profile (losses result) self.old.state }
        ensures done { self.new ≡ record (self.old) { state = end_of self.old.profile (losses result) self.old.state } }
        ensures bounds { StaysBounded self.old.profile (losses result) self.old.state }
    {
        self.transfer.lose_rest()
    }

    /// There is a step that sends a word now, whatever the word is.
    #[inline(always)]
    pub fn may_send(&self) -> bool
        ensures { (i : Seen) → IsTrue result ↔ IsNamedStep self.now.profile (Step.Sent i) self.now.state }
    {
        self.transfer.may_send()
    }

    /// There is a step that gives an answer now, whatever the answer is.
    #[inline(always)]
    pub fn may_answer(&self) -> bool
        ensures { (i : Seen) → IsTrue result ↔ IsNamedStep self.now.profile (Step.Answered i) self.now.state }
    {
        self.transfer.may_answer()
    }

    /// The source may load a link data unit now, whichever it is.
    pub fn may_load(&self) -> bool
        ensures { (u : LduValue) → IsLdu self.now.profile u → (IsTrue result ↔ Can self.now.profile (Step.Load u) self.now.state) }
    {
        self.transfer.may_load(self.profile)
    }

    /// The source may give up so many files now, one after the other: at most 127 since its last acknowledgement (profile).
    pub fn may_give_up(&self, files: u8) -> bool
        ensures { IsTrue result ↔ MayGiveUp self.now.state files }
    {
        self.transfer.may_give_up(files)
    }

    /// What the source and the sink are doing, and how many words are on their way to the sink, 0 to 255,
    /// and how many to the source, 0 or 1. Of a block that is still on its way, source and sink count at
    /// most 254 words.
    pub fn states(&self) -> States
        ensures states { result ≡ states_of self.now.state }
        ensures bounds { IsBounded self.now.state }
    {
        let transfer = &self.transfer;
        States {
            source: transfer.source(),
            sink: transfer.sink(),
            to_sink: transfer.to_sink() as u8,
            to_source: transfer.to_source() as u8,
        }
    }

    /// The number of the link data unit that the source has loaded, or loads next.
    pub fn number(&self) -> UnitNumber
        ensures { result ≡ self.now.state.source.number }
    {
        self.transfer.number()
    }

    /// The files that the sink has delivered since they were last taken.
    pub fn delivered(&self) -> &[FileBytes]
        ensures { result.now ≡ self.now.state.sink.received.files }
    {
        self.transfer.delivered()
    }

    /// Hands out the files that the sink has delivered since they were last taken.
    pub fn take_delivered(&mut self) -> Vec<FileBytes>
        ensures files { result.items ≡ self.old.state.sink.received.files }
        ensures rest { self.new ≡ record (self.old) { state = handed_out self.old.state } }
        ensures bounds { IsBounded self.new.state }
    {
        self.transfer.take_delivered(self.alloc)
    }
}
