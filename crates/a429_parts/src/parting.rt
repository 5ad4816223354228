//! A recording, written in parts as it is read.

ghost use Rattle.std.specs.Fmt.{decimal};
ghost use Rattle.std.specs.Prelude.{◌≡◌, Bool, ◌⊎◌, ◌+◌, ◌<◌, ◌≤◌, ◌^◌, ◌∷◌, ◌++◌, [], ℕ, List, Option, length, take, true, false, Some, None, Ok, IfOk, IfErr, IfSome, IsErr, IsErrOf, OnOk, OnErr};
ghost use Rattle.a429_word.specs.Sheet.{Says, sheet_failed};
ghost use Rattle.a429_word.specs.declared.sheet.Sheet.{Sheet};
ghost use Rattle.a429_profile.specs.Profile.{Contents};
ghost use Rattle.a429_record.specs.declared.entry.Entry.{Entry};
ghost use Rattle.a429_record.specs.declared.fault.ReadFault.{ReadFault};
ghost use Rattle.a429_record.specs.declared.fault.ReadFault.TheVariants as read;
ghost use Rattle.a429_record.specs.Writing.{line_text};
ghost use Rattle.a429_parts.specs.declared.cutting.PartFault.TheVariants as part;
ghost use Rattle.a429_parts.specs.Cutter.{IsCurrent, IsInReach, IsPart};
ghost use Rattle.a429_parts.specs.Keeping.{taken};
ghost use Rattle.a429_parts.specs.Parts.{GainsPart, IsSame, PutParts, part_line};
ghost use Rattle.a429_parts.specs.Parting.{CannotGoOn, CutsAll, CutsUntil, EndsFor, EndsNowhereFor, Finished, Holds, Progress, Stopped, outputs};

use crate::cutting::{Cutter, PartFault};
use crate::keeping::next_of;
use crate::parts::Parts;
use a429_profile::Profile;
use a429_record::{Entry, EntryLine, EntryReader, ReadFault};
use a429_word::{Failing, Sheet, Trouble};
use itoa::Buffer;
use std::alloc::{AllocError, Global};
use std::io::{Read, Write};

/// A recording that is being cut.
#[derive(Drop)]
pub(crate) struct Parting {
    cutter: Cutter,
    // The number of the next part.
    next: usize,
    // The lines of the parts that were put.
    list: Vec<u8>,
}

/// Puts the parts of a recording as it is read, and their lines on a sheet, and answers the list of them. A part ends
/// at the last place to cut that is at most `most` entries after its beginning and known as one from the next `most + 1`
/// entries, or at the end of the recording where that is as near. A recording without entries is one part. The fault is
/// `TooMany` also where there is no such place. After a fault the parts that were complete stay: of the entries before the
/// fault at most `2 * most + 1` are in no part.
pub fn put_parts<R: Read, P: Parts, W: Write>(
    alloc: Global,
    profile: &Profile,
    most: usize,
    rec: &mut EntryReader<R>,
    parts: &mut P,
    sheet: &mut Sheet<'_, W>,
) -> Result<Vec<u8>, ReadFault>
    ensures all { IfOk result (λ list. CutsAll profile.now most (taken rec.old rec.new) (outputs W.contents (P.known parts.old) (P.known parts.new) sheet.old sheet.new) list.items) }
    ensures until { IfErr result (CutsUntil profile.now most (taken rec.old rec.new) (outputs W.contents (P.known parts.old) (P.known parts.new) sheet.old sheet.new)) }
    ensures device { IsErrOf result read.Device → (rec.new.failed ≡ true) ⊎ ((P.failed parts.new ≡ true) ⊎ (sheet_failed sheet.new ≡ true)) }
    ensures works { OnOk result ((rec.new.failed ≡ false) × (P.failed parts.new ≡ false)) }
{
    let mut parting = Parting::new(alloc, most);
    let mut line = EntryLine::new();
    'entries: loop {
        let next = match next_of(rec, &mut line) {
            Ok(next) => next,
            Err(fault) => return Err(fault),
        };
        let Some(entry) = next else {
            return parting.finish(parts, sheet);
        };
        line.complete(entry);
        match parting.add(profile, &entry, &line, parts, sheet) {
            Ok(()) => {}
            Err(fault) => return Err(fault),
        }
    }
}

impl Parting {
    // Nothing has come. A part has at most `most` entries.
    fn new(alloc: Global, most: usize) -> Parting
        ensures holds { (p : Contents) → Holds p most false [] [] result }
        ensures current { IsCurrent result.cutter }
    {
        Parting {
            cutter: Cutter::new(alloc, most),
            next: 1,
            list: Vec::new(alloc),
        }
    }

    // Takes the next entry and its line, and puts the parts that are complete then.
    #[inline(always)]
    fn add<P: Parts, W: Write>(
        &mut self,
        profile: &Profile,
        entry: &Entry,
        line: &EntryLine,
        parts: &mut P,
        sheet: &mut Sheet<'_, W>,
    ) -> Result<(), ReadFault>
        requires room { self.old.cutter.watched.count + 1 < 2 ^ 64 }
        requires line { line.now ≡ line_text entry.now }
        ensures ok { OnOk result ((most : ℕ) (known : Option PutParts) (first : Sheet W) (es : List Entry)
            → Progress profile.now most false (outputs W.contents known (P.known parts.old) first sheet.old) es self.old → IsCurrent self.old.cutter
            → Progress profile.now most false (outputs W.contents known (P.known parts.new) first sheet.new) (es ++ entry.now ∷ []) self.new × IsCurrent self.new.cutter) }
        ensures err { IfErr result (λ fault. (most : ℕ) (known : Option PutParts) (first : Sheet W) (es : List Entry)
            → Progress profile.now most false (outputs W.contents known (P.known parts.old) first sheet.old) es self.old → IsCurrent self.old.cutter
            → Stopped profile.now most false (outputs W.contents known (P.known parts.new) first sheet.new) (es ++ entry.now ∷ []) fault) }
        ensures device { IsErrOf result read.Device → (P.failed parts.new ≡ true) ⊎ (sheet_failed sheet.new ≡ true) }
    {
        match self.take(profile, entry, line) {
            Ok(()) => {}
            Err(fault) => return Err(fault),
        }
        match self.put_complete(false, parts, sheet) {
            Ok(()) => {}
            Err(fault) => return Err(fault),
        }
        if sheet.failed() {
            return Err(ReadFault::Device);
        }
        Ok(())
    }

    // Takes the next entry and its line.
    #[inline(always)]
    fn take(&mut self, profile: &Profile, entry: &Entry, line: &EntryLine) -> Result<(), ReadFault>
        requires room { self.old.cutter.watched.count + 1 < 2 ^ 64 }
        requires line { line.now ≡ line_text entry.now }
        ensures ok { OnOk result ((most : ℕ) (parts : List (List Entry)) (es : List Entry) → Holds profile.now most false parts es self.old → IsCurrent self.old.cutter → Holds profile.now most false parts (es ++ entry.now ∷ []) self.new) }
        ensures waits { OnOk result (length self.new.cutter.waiting ≡ length self.old.cutter.waiting + 1) }
        ensures err { IfErr result (λ fault. fault ≡ read.OutOfMemory) }
    {
        match self.cutter.take(profile, entry, line) {
            Ok(()) => Ok(()),
            Err(fault) => Err(fault_of(fault)),
        }
    }

    // Puts the parts that are complete; at the end of the recording all but the last.
    #[inline(always)]
    fn put_complete<P: Parts, W: Write>(
        &mut self,
        at_end: bool,
        parts: &mut P,
        sheet: &mut Sheet<'_, W>,
    ) -> Result<(), ReadFault>
        ensures ok { OnOk result ((p : Contents) (most : ℕ) (known : Option PutParts) (first : Sheet W) (es : List Entry)
            → Progress p most at_end (outputs W.contents known (P.known parts.old) first sheet.old) es self.old
            → Progress p most at_end (outputs W.contents known (P.known parts.new) first sheet.new) es self.new) }
        ensures err { IfErr result (λ fault. (p : Contents) (most : ℕ) (known : Option PutParts) (first : Sheet W) (es : List Entry) → length self.old.cutter.waiting ≤ most + most + 1
            → Progress p most at_end (outputs W.contents known (P.known parts.old) first sheet.old) es self.old
            → Stopped p most at_end (outputs W.contents known (P.known parts.new) first sheet.new) es fault) }
        ensures last { OnOk result (at_end ≡ true → length self.new.cutter.waiting ≤ self.new.cutter.most) }
        ensures current { OnOk result (at_end ≡ false → IsInReach self.old.cutter → IsCurrent self.new.cutter) }
        ensures device { IsErrOf result read.Device → P.failed parts.new ≡ true }
    {
        'parts: loop {
            match self.size(at_end) {
                Ok(Some(size)) => match self.put_and_end(size, parts, sheet) {
                    Ok(()) => {}
                    Err(trouble) => return Err(fault_by(trouble)),
                },
                Ok(None) => return Ok(()),
                Err(fault) => return Err(fault_of(fault)),
            }
        }
    }

    // How many of the waiting entries are the next part.
    #[inline(always)]
    fn size(&self, at_end: bool) -> Result<Option<usize>, PartFault>
        ensures some { IfOk result (λ o. IfSome o (λ size. IsPart self.now.cutter size × EndsFor at_end self.now.cutter size)) }
        ensures current { at_end ≡ false → result ≡ Ok None → IsInReach self.now.cutter → IsCurrent self.now.cutter }
        ensures none { at_end ≡ true → result ≡ Ok None → length self.now.cutter.waiting ≤ self.now.cutter.most }
        ensures many { IsErr result → (self.now.cutter.most < length self.now.cutter.waiting) × (IsInReach self.now.cutter → EndsNowhereFor at_end self.now.cutter) }
    {
        if at_end {
            self.cutter.part_at_end()
        } else {
            self.cutter.part()
        }
    }

    // Puts the first `size` of the waiting entries as the next part, and ends it.
    #[inline(never)]
    fn put_and_end<P: Parts, W: Write>(
        &mut self,
        size: usize,
        parts: &mut P,
        sheet: &mut Sheet<'_, W>,
    ) -> Result<(), Trouble>
        requires part { IsPart self.old.cutter size }
        ensures ok { OnOk result ((p : Contents) (most : ℕ) (at_end : Bool) (known : Option PutParts) (first : Sheet W) (es : List Entry) → EndsFor at_end self.old.cutter size
            → Progress p most at_end (outputs W.contents known (P.known parts.old) first sheet.old) es self.old
            → Progress p most at_end (outputs W.contents known (P.known parts.new) first sheet.new) es self.new) }
        ensures err { OnErr result ((p : Contents) (most : ℕ) (at_end : Bool) (known : Option PutParts) (first : Sheet W) (es : List Entry) (fault : ReadFault) → ((entries : List Entry) (from : ℕ) → CannotGoOn p most entries from self.old.cutter.waiting fault) → length self.old.cutter.waiting ≤ most + most + 1
            → Progress p most at_end (outputs W.contents known (P.known parts.old) first sheet.old) es self.old
            → Stopped p most at_end (outputs W.contents known (P.known parts.new) first sheet.new) es fault) }
        ensures reach { OnOk result (IsInReach self.new.cutter) }
        ensures waits { OnOk result (length self.new.cutter.waiting < length self.old.cutter.waiting) }
        ensures device { IsErrOf result Trouble.Device → P.failed parts.new ≡ true }
    {
        let Some(next) = self.next.checked_add(1) else {
            return Err(Trouble::OutOfMemory);
        };
        match self.put(size, parts, sheet) {
            Ok(()) => {
                self.cutter.end_part(size);
                self.next = next;
                Ok(())
            }
            Err(trouble) => Err(trouble),
        }
    }

    // Puts the first `size` of the waiting entries as the next part, and its line on the sheet and on the list.
    fn put<P: Parts, W: Write>(
        &mut self,
        size: usize,
        parts: &mut P,
        sheet: &mut Sheet<'_, W>,
    ) -> Result<(), Trouble>
        requires waits { size ≤ length self.old.cutter.waiting }
        ensures same { (self.new.cutter ≡ self.old.cutter) × (self.new.next ≡ self.old.next) }
        ensures ok { OnOk result (GainsPart (P.known parts.old) (P.known parts.new) self.old.next (take size self.old.cutter.waiting)
            × Says W.contents sheet.old sheet.new (part_line self.old.next size self.old.cutter.begin)
            × (self.new.list.items ≡ self.old.list.items ++ part_line self.old.next size self.old.cutter.begin)) }
        ensures err { OnErr result (IsSame (P.known parts.old) (P.known parts.new) × Says W.contents sheet.old sheet.new []) }
        ensures device { IsErrOf result Trouble.Device → P.failed parts.new ≡ true }
        ensures works { OnOk result (P.failed parts.new ≡ false) }
    {
        let start = self.list.len();
        if put_line(&mut self.list, self.next, size, self.cutter.begin()).is_err() {
            return Err(Trouble::OutOfMemory);
        }
        match parts.put(self.next, &self.cutter.waiting(size)) {
            Ok(()) => {
                sheet.put(&self.list[start..]);
                Ok(())
            }
            Err(trouble) => Err(trouble),
        }
    }

    // Puts the parts that are left, and answers the list of all.
    fn finish<P: Parts, W: Write>(
        self,
        parts: &mut P,
        sheet: &mut Sheet<'_, W>,
    ) -> Result<Vec<u8>, ReadFault>
        ensures ok { IfOk result (λ list. (p : Contents) (most : ℕ) (known : Option PutParts) (first : Sheet W) (es : List Entry)
            → Progress p most false (outputs W.contents known (P.known parts.old) first sheet.old) es self
            → Finished p most (outputs W.contents known (P.known parts.new) first sheet.new) es list.items) }
        ensures err { IfErr result (λ fault. (p : Contents) (most : ℕ) (known : Option PutParts) (first : Sheet W) (es : List Entry) → length self.cutter.waiting ≤ most + most + 1
            → Progress p most false (outputs W.contents known (P.known parts.old) first sheet.old) es self
            → Stopped p most true (outputs W.contents known (P.known parts.new) first sheet.new) es fault) }
        ensures device { IsErrOf result read.Device → P.failed parts.new ≡ true }
        ensures works { OnOk result (P.failed parts.new ≡ false) }
    {
        let mut parting = self;
        match parting.put_complete(true, parts, sheet) {
            Ok(()) => {}
            Err(fault) => return Err(fault),
        }
        let size = parting.cutter.count_waiting();
        match parting.put(size, parts, sheet) {
            Ok(()) => Ok(parting.list),
            Err(trouble) => Err(fault_by(trouble)),
        }
    }
}

// Why a recording has no more parts.
fn fault_of(fault: PartFault) -> ReadFault
    ensures many { result ≡ read.TooMany → fault ≡ part.TooMany }
    ensures either { (result ≡ read.TooMany) ⊎ (result ≡ read.OutOfMemory) }
{
    match fault {
        PartFault::TooMany => ReadFault::TooMany,
        PartFault::OutOfMemory => ReadFault::OutOfMemory,
    }
}

/// Why nothing more was put, as a fault of the recording: where a device fails, or memory is refused.
pub fn fault_by(trouble: Trouble) -> ReadFault
    ensures device { result ≡ read.Device → trouble ≡ Trouble.Device }
    ensures either { (result ≡ read.Device) ⊎ (result ≡ read.OutOfMemory) }
{
    match trouble {
        Trouble::Device => ReadFault::Device,
        Trouble::OutOfMemory => ReadFault::OutOfMemory,
    }
}

// Appends the line of a part: its number, how many entries it has, and which entry of the recording is its first.
fn put_line(list: &mut Vec<u8>, number: usize, size: usize, from: usize) -> Result<(), AllocError>
    ensures { OnOk result (list.new.items ≡ list.old.items ++ part_line number size from) }
{
    list.extend_from_slice(b"part ")?;
    put_number(list, number)?;
    list.extend_from_slice(b" entries ")?;
    put_number(list, size)?;
    list.extend_from_slice(b" from ")?;
    put_number(list, from)?;
    list.extend_from_slice(b"\n")
}

// Appends a number, in decimal.
fn put_number(list: &mut Vec<u8>, number: usize) -> Result<(), AllocError>
    ensures { OnOk result (list.new.items ≡ list.old.items ++ decimal number) }
{
    let mut buffer = Buffer::new();
    list.extend_from_slice(buffer.format(number).as_bytes())
}
