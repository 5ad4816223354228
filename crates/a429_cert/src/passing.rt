//! One line of a certificate, held against a link and the next entry of a recording.

ghost use Rattle.std.specs.Prelude.{◌≡◌, ◌≢◌, ◌∷◌, ℕ, List, Option, Some, None, IfOk, IfErr, IfSome, OnOk, option_map, true, false};
ghost use Rattle.a429_profile.specs.Profile.{IsProfile};
ghost use Rattle.a429_link.specs.Step.{Can, LoadsLdu};
ghost use Rattle.a429_link.specs.State.{State, states_of};
ghost use Rattle.a429_link.specs.declared.step.Step.TheVariants as step;
ghost use Rattle.a429_cert.specs.declared.at.At.{At};
ghost use Rattle.a429_cert.specs.Line.{IsLine};
ghost use Rattle.a429_cert.specs.Act.{step_with};
ghost use Rattle.a429_cert.specs.Fault.{SaysLine};
ghost use Rattle.a429_cert.specs.Passing.{IsNamedOf, IsReady, IsReadyOf, IsStepFault, IsStepOfLine, Lists, MakesStep, PassesLine, PassesListed, PassesText, RefusesFirst, RefusesLine, RefusesListed, RefusesText, no_step, no_unit};
ghost use Rattle.a429_cert.specs.Change.{change};

use crate::act::{Act, step_with, used_by};
use crate::at::At;
use crate::fault::CertFault;
use crate::line::{CertLine, LoadLine, MovedLine};
use crate::listed::Listed;
use crate::reading::{load_of, moved_of};
use a429_ldu::{Ldu, LduFault};
use a429_link::{Link, Seen, States, Step, StepFault};
use a429_profile::Profile;
use std::alloc::Global;

/// Takes the line of a certificate at this place, which says this: the link makes its step with the next
/// entry. Answers how many entries it uses, 0 or 1.
#[inline(always)]
pub fn replay_line(
    alloc: Global,
    profile: &Profile,
    link: &mut Link<'_>,
    text: Option<&[u8]>,
    at: At,
) -> Result<usize, CertFault>
    requires sound { IsProfile profile.now }
    requires profile { link.old.profile ≡ profile.now }
    ensures passed { IfOk result (PassesText profile.now (option_map (λ b. b.now) text.entry) at.next
        (change link.old.state link.new.state)) }
    ensures refused { IfErr result (RefusesText profile.now (option_map (λ b. b.now) text.entry) at link.old.state) }
    ensures kept { link.new.profile ≡ profile.now }
{
    match read_step(alloc, profile, link, text, None, at.line) {
        Ok(listed) => make_step(link, listed, at),
        Err(fault) => Err(fault),
    }
}

/// Reads the step that line n lists, which says this, before its entry is known, if it wants one: a step of
/// its name may then be made here. Where it is known what the line says, it is not read.
#[inline(always)]
pub fn read_step(
    alloc: Global,
    profile: &Profile,
    link: &Link<'_>,
    text: Option<&[u8]>,
    known: Option<MovedLine>,
    n: usize,
) -> Result<Listed, CertFault>
    requires sound { IsProfile profile.now }
    requires profile { link.now.profile ≡ profile.now }
    requires known { IfSome known (λ m. SaysLine (option_map (λ b. b.now) text) (CertLine.Moved m)) }
    ensures listed { IfOk result (λ x. Lists profile.now (option_map (λ b. b.now) text.entry) x link.now.state) }
    ensures refused { IfErr result (RefusesFirst profile.now (option_map (λ b. b.now) text.entry) n link.now.state) }
{
    if let Some(line) = known {
        return allow_line(link, line, n);
    }
    let Some(text) = text else {
        return Err(CertFault::Line(n));
    };
    match text {
        [b'L', rest @ ..] => read_load(alloc, profile, rest, n),
        [letter, rest @ ..] => read_moved(link, *letter, rest, n),
        [] => Err(CertFault::Line(n)),
    }
}

/// Takes the line of a certificate whose step was read: the link makes it with the next entry, if it wants
/// one. Answers how many entries it uses, 0 or 1.
#[inline(always)]
pub fn make_step(link: &mut Link<'_>, listed: Listed, at: At) -> Result<usize, CertFault>
    requires { IsReady link.old.profile listed link.old.state }
    ensures passed { IfOk result (PassesListed link.old.profile listed at.next (change link.old.state link.new.state)) }
    ensures refused { IfErr result (RefusesListed link.old.profile listed at link.old.state) }
    ensures kept { link.new.profile ≡ link.old.profile }
{
    match listed {
        Listed::Load(unit) => {
            if load(link, unit) {
                Ok(0)
            } else {
                Err(CertFault::NotAllowed(at.line))
            }
        }
        Listed::Moved(line) => make_moved(link, line, at),
    }
}

// Reads the link data unit that line n lists after its letter.
fn read_load(alloc: Global, profile: &Profile, text: &[u8], n: usize) -> Result<Listed, CertFault>
    requires { IsProfile profile.now }
    ensures listed { IfOk result (λ x. (s : State) → Lists profile.now (Some (76 ∷ text.now)) x s) }
    ensures refused { IfErr result (λ f. (s : State) → RefusesFirst profile.now (Some (76 ∷ text.now)) n s f) }
{
    match load_of(alloc, text) {
        Ok(Some(line)) => read_unit(alloc, profile, line, n),
        Ok(None) => Err(CertFault::Line(n)),
        Err(_) => Err(CertFault::OutOfMemory),
    }
}

// The link data unit of line n, which was read.
fn read_unit(
    alloc: Global,
    profile: &Profile,
    line: LoadLine,
    n: usize,
) -> Result<Listed, CertFault>
    requires range { IsLine (CertLine.Load line) }
    requires sound { IsProfile profile.now }
    ensures listed { IfOk result (λ x. IsStepOfLine x (CertLine.Load line) × ((s : State) → IsReady profile.now x s)) }
    ensures refused { IfErr result (λ f. (at : At) → at.line ≡ n → (s : State) → RefusesLine profile.now (CertLine.Load line) at s f) }
{
    match Ldu::new(
        alloc,
        profile,
        line.gfi,
        line.flags,
        line.check,
        line.words.as_slice(),
    ) {
        Ok(unit) => Ok(Listed::Load(unit)),
        Err(fault) => Err(no_unit(fault, n)),
    }
}

// Reads the other step that line n lists, by its letter and what comes after it.
#[inline(always)]
fn read_moved(link: &Link<'_>, letter: u8, text: &[u8], n: usize) -> Result<Listed, CertFault>
    requires { letter ≢ 76 }
    ensures listed { IfOk result (λ x. Lists link.now.profile (Some (letter ∷ text.now)) x link.now.state) }
    ensures refused { IfErr result (RefusesFirst link.now.profile (Some (letter ∷ text.now)) n link.now.state) }
{
    match moved_of(letter, text) {
        Some(line) => allow_line(link, line, n),
        None => Err(CertFault::Line(n)),
    }
}

// The other step of line n, which says this.
#[inline(always)]
fn allow_line(link: &Link<'_>, line: MovedLine, n: usize) -> Result<Listed, CertFault>
    ensures listed { IfOk result (λ x. (text : Option (List ℕ)) → SaysLine text (CertLine.Moved line) → Lists link.now.profile text x link.now.state) }
    ensures refused { IfErr result (λ f. (text : Option (List ℕ)) → SaysLine text (CertLine.Moved line) → RefusesFirst link.now.profile text n link.now.state f) }
{
    if may_record(link, line.act) {
        Ok(Listed::Moved(line))
    } else {
        Err(CertFault::NotAllowed(n))
    }
}

// Takes the line of another step, which was read. Answers how many entries it uses.
#[inline(always)]
fn make_moved(link: &mut Link<'_>, line: MovedLine, at: At) -> Result<usize, CertFault>
    requires { IsReadyOf link.old.profile line.act link.old.state }
    ensures passed { IfOk result (PassesLine link.old.profile (CertLine.Moved line) at.next (change link.old.state link.new.state)) }
    ensures refused { IfErr result (RefusesLine link.old.profile (CertLine.Moved line) at link.old.state) }
    ensures kept { link.new.profile ≡ link.old.profile }
{
    match make(link, line.act, at.next) {
        Ok(()) => {
            if stands(link, line.states) {
                Ok(used_by(line.act))
            } else {
                Err(CertFault::StateDiffers(at.line))
            }
        }
        Err(fault) => Err(no_step(fault, at.line, at.entry)),
    }
}

// Whether source and sink are in these states.
#[inline(always)]
fn stands(link: &Link<'_>, states: States) -> bool
    ensures yes { result ≡ true → states_of link.now.state ≡ states }
    ensures no { result ≡ false → states_of link.now.state ≢ states }
{
    link.states() == states
}

// The fault of line n, whose words and check word make no link data unit.
fn no_unit(fault: LduFault, n: usize) -> CertFault
    ensures { result ≡ no_unit fault n }
{
    match fault {
        LduFault::OutOfMemory => CertFault::OutOfMemory,
        _ => CertFault::NotAllowed(n),
    }
}

// The fault of line n, whose step the link refuses, where entry i is next.
fn no_step(fault: StepFault, n: usize, i: usize) -> CertFault
    ensures { result ≡ no_step fault n i }
{
    match fault {
        StepFault::NotAllowed => CertFault::NotAllowed(n),
        StepFault::WordDiffers => CertFault::WordDiffers { line: n, entry: i },
        StepFault::OutOfMemory => CertFault::OutOfMemory,
    }
}

// Whether the source could load a link data unit.
fn load(link: &mut Link<'_>, unit: Ldu) -> bool
    requires { LoadsLdu link.old.profile (step.Load unit) }
    ensures yes { result ≡ true → MakesStep link.old.profile (Some (step.Load unit)) link.old.state link.new.state }
    ensures no { result ≡ false → Can link.old.profile (step.Load unit) link.old.state → ⊥ }
    ensures kept { link.new.profile ≡ link.old.profile }
{
    link.apply(Step::Load(unit)).is_ok()
}

// Makes the step of a letter with the next entry.
fn make(link: &mut Link<'_>, act: Act, next: Option<Seen>) -> Result<(), StepFault>
    requires { IsReadyOf link.old.profile act link.old.state }
    ensures made { OnOk result (MakesStep link.old.profile (step_with act next) link.old.state link.new.state) }
    ensures refused { IfErr result (λ e. IsStepFault link.old.profile act next link.old.state e) }
    ensures kept { link.new.profile ≡ link.old.profile }
{
    match step_with(act, next) {
        Some(step) => link.apply(step),
        None => Err(StepFault::WordDiffers),
    }
}

// Whether a step of this letter may be made with some entry, where it uses one.
#[inline(always)]
fn may_record(link: &Link<'_>, act: Act) -> bool
    ensures yes { result ≡ true → IsReadyOf link.now.profile act link.now.state }
    ensures no { result ≡ false → IsNamedOf link.now.profile act link.now.state → ⊥ }
{
    match act {
        Act::Sent => link.may_send(),
        Act::Answered => link.may_answer(),
        _ => true,
    }
}
