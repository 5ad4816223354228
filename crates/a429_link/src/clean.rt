//! The recording of a run without loss.

ghost use Rattle.std.specs.Prelude.{◌≡◌, ◌≢◌, ◌≤◌, ◌++◌, [], ◌∷◌, map, length, Some, None, IfOk, IfErr, OnOk};
ghost use Rattle.a429_link.specs.Clean.{clean_file, clean_block, clean_words, first_refused, CarriesFiles};

use crate::fault::CleanFault;
use crate::number::UnitNumber;
use crate::seen::Seen;
use a429_ldu::{CutFault, Form, Ldu, cut, word_of};
use a429_profile::Profile;
use a429_word::{Bus, Word};
use std::alloc::{AllocError, Global};

fn push(run: &mut Vec<Seen>, bus: Bus, word: Word) -> Result<(), AllocError>
    ensures { OnOk result (run.new.items ≡ run.old.items ++ record { bus = bus; word = word } ∷ []) }
{
    run.push(Seen { bus, word })?;
    Ok(())
}

// The words of a link data unit that crosses without loss under this number.
fn push_unit(
    run: &mut Vec<Seen>,
    profile: &Profile,
    number: UnitNumber,
    unit: &Ldu,
) -> Result<(), AllocError>
    requires { number.ldu ≤ 255 }
    ensures { OnOk result (run.new.items ≡ run.old.items ++ clean_block profile.now.codes number unit.now) }
{
    let count = unit.count();
    let file = number.file;
    let ldu = number.ldu as u8;
    push(run, Bus::A, word_of(profile, &Form::Rts { count }))?;
    push(run, Bus::B, word_of(profile, &Form::Cts { count }))?;
    for k in 0..count {
        push(run, Bus::A, unit.word(profile, k, file, ldu))?;
    }
    push(run, Bus::B, word_of(profile, &Form::Ack { file, ldu }))?;
    Ok(())
}

// The words of a file's link data units, the file under this number.
fn push_file(
    run: &mut Vec<Seen>,
    profile: &Profile,
    file: u8,
    units: &[Ldu],
) -> Result<(), AllocError>
    requires few { length units.now ≤ 255 }
    ensures { OnOk result (run.new.items ≡ run.old.items ++ clean_file profile.now.codes file units.now) }
{
    let mut number = UnitNumber::first(profile, file);
    for unit in units {
        push_unit(run, profile, number, unit)?;
        number = number.after(profile, unit);
    }
    Ok(())
}

/// What a run without loss records that carries these files, the first under this number, 255 followed
/// by 0 (profile). Each is cut into link data units of at most this many words, 3 to 255, and each unit
/// is asked for, cleared, sent and acknowledged once. No files give no words.
pub fn clean_run(
    alloc: Global,
    profile: &Profile,
    first_file: u8,
    max_words: u8,
    files: &[Vec<u8>],
) -> Result<Vec<Seen>, CleanFault>
    requires { 3 ≤ max_words }
    ensures words { IfOk result (λ seen. seen.items ≡ clean_words profile.now max_words first_file (map (λ f. f.items) files.now)) }
    ensures run { OnOk result (CarriesFiles profile.now max_words first_file (map (λ f. f.items) files.now)) }
    ensures ok { OnOk result (first_refused max_words 0 (map (λ f. f.items) files.now) ≡ None) }
    ensures fault { IfErr result (λ e. e ≢ CleanFault.OutOfMemory
        → first_refused max_words 0 (map (λ f. f.items) files.now) ≡ Some e) }
{
    // (for the proof: the profile is sound)
    let _codes = profile.codes();
    let mut run = Vec::new(alloc);
    let mut number = first_file;
    for (k, bytes) in files.iter().enumerate() {
        let units = match cut(alloc, profile, bytes.as_slice(), max_words) {
            Ok(units) => units,
            Err(CutFault::Empty) => return Err(CleanFault::Cut(k, CutFault::Empty)),
            Err(CutFault::TooLong) => return Err(CleanFault::Cut(k, CutFault::TooLong)),
            Err(CutFault::OutOfMemory) => return Err(CleanFault::OutOfMemory),
        };
        match push_file(&mut run, profile, number, units.as_slice()) {
            Ok(()) => {}
            Err(_) => return Err(CleanFault::OutOfMemory),
        }
        number = number.wrapping_add(1);
    }
    Ok(run)
}
