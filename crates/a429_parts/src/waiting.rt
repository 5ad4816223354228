//! Entries that wait for the end of their part, and some of them, lent.

ghost use Rattle.std.specs.Prelude.{◌≡◌, ◌-◌, ◌≤◌, ◌↔◌, ◌∷◌, ◌++◌, [], length, min, take, drop, true, IfOk, IsErrOf, OnErr, OnOk};
ghost use Rattle.a429_word.specs.Tally.{has_failed, Puts, PutsFront};
ghost use Rattle.a429_word.specs.declared.trouble.Trouble.TheVariants as fault;
ghost use Rattle.a429_record.specs.Writing.{line_text, written_form};
ghost use Rattle.a429_parts.specs.Waiting.{entries_of, size_of, AreWritten, IsLineEnd};

use a429_record::{Entry, EntryLine, WriteFault, write_lines};
use a429_word::Tally;
use memchr::memrchr;
use std::alloc::{AllocError, Global};
use std::io::Write;
use std::marker::Model;

// How many bytes an entry takes that is not held as a line.
const ENTRY_BYTES: usize = 16;

/// Entries that wait, in order. They are held as lines of text, ready to be written, while the lines take at most `spare` bytes
/// more than entries would; the others are held as entries.
#[derive(Drop)]
pub(crate) struct Waiting {
    spare: usize,
    len: usize,
    before: Vec<Entry>,
    lines: Vec<u8>,
    after: Vec<Entry>,
    // An end of some of the lines, found by `note`.
    noted: LineEnd,
}

impl Model for Waiting {
    ghost use Rattle.std.specs.Prelude.{◌≡◌, ◌++◌, List, length};
    ghost use Rattle.a429_record.specs.declared.entry.Entry.{Entry};
    ghost use Rattle.a429_parts.specs.Waiting.{entries_of, AreWritten, IsLineEnd};

    ghost Value = { List Entry };

    ghost view = { λ w. w.before.items ++ (entries_of w.lines.items ++ w.after.items) };

    ghost invariant = { λ w. AreWritten w.lines.items × (w.len ≡ length (w.before.items ++ (entries_of w.lines.items ++ w.after.items))) × IsLineEnd w.lines.items w.noted };
}

/// Where the first of some lines end: how many lines they are, and how many bytes they have.
#[derive(Clone, Copy)]
pub struct LineEnd {
    pub lines: usize,
    pub bytes: usize,
}

// Where none of them end.
const NO_LINES: LineEnd = LineEnd { lines: 0, bytes: 0 };

/// Entries of a recording, lent: some as entries, some as lines, and some as entries again.
#[derive(Drop)]
pub struct Rows<'a> {
    len: usize,
    before: &'a [Entry],
    lines: &'a [u8],
    after: &'a [Entry],
}

impl<'a> Model for Rows<'a> {
    ghost use Rattle.std.specs.Prelude.{◌≡◌, ◌++◌, List, length};
    ghost use Rattle.a429_record.specs.declared.entry.Entry.{Entry};
    ghost use Rattle.a429_parts.specs.Waiting.{entries_of, AreWritten};

    ghost Value = { List Entry };

    ghost view = { λ r. r.before.now ++ (entries_of r.lines.now ++ r.after.now) };

    ghost invariant = { λ r. AreWritten r.lines.now × (r.len ≡ length (r.before.now ++ (entries_of r.lines.now ++ r.after.now))) };
}

impl Waiting {
    /// None. Lines may take `spare` bytes more than entries would.
    pub(crate) fn new(alloc: Global, spare: usize) -> Waiting
        ensures { result ≡ [] }
    {
        Waiting {
            spare,
            len: 0,
            before: Vec::new(alloc),
            lines: Vec::new(alloc),
            after: Vec::new(alloc),
            noted: NO_LINES,
        }
    }

    /// How many there are.
    pub(crate) fn len(&self) -> usize
        ensures { result ≡ length self.now }
    {
        self.len
    }

    /// Adds an entry, given with its line.
    #[inline(always)]
    pub(crate) fn push(&mut self, entry: Entry, line: &EntryLine) -> Result<(), AllocError>
        requires { line.now ≡ line_text entry }
        ensures ok { OnOk result (self.new ≡ self.old ++ entry ∷ []) }
        ensures err { OnErr result (self.new ≡ self.old) }
    {
        let Some(len) = self.len.checked_add(1) else {
            return Err(AllocError);
        };
        if self.after.is_empty()
            && has_room(self.len - self.before.len(), self.lines.len(), self.spare)
        {
            line.append_to(&mut self.lines)?;
        } else {
            self.after.push(entry)?;
        }
        self.len = len;
        Ok(())
    }

    /// Remembers where the first `size` of them end: `first` and `drop_first` find that place at once then.
    #[inline(never)]
    pub(crate) fn note(&mut self, size: usize)
        ensures { self.new ≡ self.old }
    {
        let lined = self.len - self.before.len() - self.after.len();
        let lines = size.saturating_sub(self.before.len()).min(lined);
        let bytes = end_of_lines(&self.lines, lined, self.noted, lines);
        self.noted = LineEnd { lines, bytes };
    }

    /// The first `size` of them.
    pub(crate) fn first(&self, size: usize) -> Rows<'_>
        requires { size ≤ length self.now }
        ensures { result ≡ take size self.now }
    {
        let cut = end_of_first(
            &self.before,
            &self.lines,
            &self.after,
            self.len,
            self.noted,
            size,
        );
        Rows {
            len: size,
            before: &self.before[..cut.before],
            lines: &self.lines[..cut.lines],
            after: &self.after[..cut.after],
        }
    }

    /// Drops the first `size` of them.
    pub(crate) fn drop_first(&mut self, size: usize)
        requires { size ≤ length self.old }
        ensures { self.new ≡ drop size self.old }
    {
        let cut = end_of_first(
            &self.before,
            &self.lines,
            &self.after,
            self.len,
            self.noted,
            size,
        );
        drop_front(&mut self.before, cut.before);
        drop_front(&mut self.lines, cut.lines);
        drop_front(&mut self.after, cut.after);
        self.len -= size;
        self.noted = NO_LINES;
        if self.before.is_empty() && self.lines.is_empty() {
            move_to_front(&mut self.before, &mut self.after);
        }
    }

    /// A copy of entries.
    pub(crate) fn copy_of(alloc: Global, rows: &Rows<'_>) -> Result<Waiting, AllocError>
        ensures { IfOk result (λ w. w ≡ rows.now) }
    {
        let mut before = Vec::new(alloc);
        before.extend_from_slice(rows.before)?;
        let mut lines = Vec::new(alloc);
        lines.extend_from_slice(rows.lines)?;
        let mut after = Vec::new(alloc);
        after.extend_from_slice(rows.after)?;
        Ok(Waiting {
            spare: 0,
            len: rows.len,
            before,
            lines,
            after,
            noted: NO_LINES,
        })
    }
}

impl<'a> Rows<'a> {
    /// Writes them as a text: the header of a recording, and a line for each. If memory runs out, nothing is written; after
    /// `Device` a prefix has been.
    pub fn write<W: Write>(&self, alloc: Global, out: &mut Tally<W>) -> Result<(), WriteFault>
        ensures ok { OnOk result (Puts W.contents out.old out.new (written_form self.now)) }
        ensures device { IsErrOf result fault.Device ↔ (has_failed out.new ≡ true) }
        ensures prefix { PutsFront W.contents out.old out.new (written_form self.now) }
        ensures memory { IsErrOf result fault.OutOfMemory → out.new ≡ out.old }
    {
        write_lines(alloc, out, self.before, self.lines, self.after)
    }
}

// Whether one more entry may be held as a line, where `lined` entries are, in `bytes` bytes. The sum would overflow only in
// 2^63 bytes of memory.
#[inline(always)]
fn has_room(lined: usize, bytes: usize, spare: usize) -> bool {
    bytes <= lined.wrapping_mul(ENTRY_BYTES).wrapping_add(spare)
}

// Where the first of the waiting entries end: how many of those before the lines, how many bytes of the lines, and how many of
// those after the lines belong to them.
#[derive(Clone, Copy)]
struct Cut {
    before: usize,
    lines: usize,
    after: usize,
}

// Where the first `size` of all these entries end.
fn end_of_first(
    before: &[Entry],
    lines: &[u8],
    after: &[Entry],
    len: usize,
    noted: LineEnd,
    size: usize,
) -> Cut
    requires written { AreWritten lines.now }
    requires len { len ≡ length (before.now ++ (entries_of lines.now ++ after.now)) }
    requires noted { IsLineEnd lines.now noted }
    requires size { size ≤ len }
    ensures before { result.before ≡ min size (length before.now) }
    ensures lines { result.lines ≡ size_of (size - length before.now) (entries_of lines.now) }
    ensures after { result.after ≡ size - length before.now - length (entries_of lines.now) }
{
    let lined = len - before.len() - after.len();
    let past = size.saturating_sub(before.len());
    Cut {
        before: size.min(before.len()),
        lines: end_of_lines(lines, lined, noted, past.min(lined)),
        after: past.saturating_sub(lined),
    }
}

/// Drops the first `size` of a list. Only what comes after them is moved: `drain` moves all.
pub fn drop_front<T: Copy>(list: &mut Vec<T>, size: usize)
    requires { size ≤ length list.old.items }
    ensures { list.new.items ≡ drop size list.old.items }
{
    let left = list.len() - size;
    list.copy_within(size.., 0);
    list.truncate(left);
}

// Moves the entries after the lines to the list before the lines, which is empty, so that lines may be held again. Each list
// keeps its room. Where memory is refused, the entries stay.
fn move_to_front(before: &mut Vec<Entry>, after: &mut Vec<Entry>)
    requires { before.old.items ≡ [] }
    ensures { before.new.items ++ after.new.items ≡ after.old.items }
{
    if before.extend_from_slice(after.as_slice()).is_ok() {
        after.clear();
    }
}

// Where the first `count` of these `len` lines end. It goes back line by line from the noted end, or from the end of all lines
// where the noted end comes too early.
fn end_of_lines(lines: &[u8], len: usize, noted: LineEnd, count: usize) -> usize
    requires written { AreWritten lines.now }
    requires len { len ≡ length (entries_of lines.now) }
    requires noted { IsLineEnd lines.now noted }
    requires count { count ≤ len }
    ensures { result ≡ size_of count (entries_of lines.now) }
{
    if count <= noted.lines {
        start_of_last(&lines[..noted.bytes], noted.lines - count)
    } else {
        start_of_last(lines, len - count)
    }
}

// Where the last `count` of some lines begin.
fn start_of_last(lines: &[u8], count: usize) -> usize
    requires written { AreWritten lines.now }
    requires count { count ≤ length (entries_of lines.now) }
    ensures { result ≡ size_of (length (entries_of lines.now) - count) (entries_of lines.now) }
{
    let mut start = lines.len();
    for _ in 0..count {
        start = match memrchr(b'\n', &lines[..start - 1]) {
            Some(end) => end + 1,
            None => 0,
        };
    }
    start
}
