//! The lines of a trace.

ghost use Rattle.std.specs.Prelude.{◌≡◌, ◌++◌, codes, None, Some};
ghost use Rattle.std.specs.Fmt.{decimal};
ghost use Rattle.a429_word.specs.Sheet.{Says};
ghost use Rattle.a429_ldu.specs.Freedom.{freedom_of};
ghost use Rattle.a429_link.specs.Allowed.{kinds_of_next};
ghost use Rattle.a429_view.specs.Forms.{form_or_other_text, form_text, other_text};
ghost use Rattle.a429_view.specs.Line.{Adds, Fits};
ghost use Rattle.a429_view.specs.Trace.{crossing_text, doing_text, else_form_text, else_text, free_text, line_head, kinds_text, turned_over, why_text, words_text};

use crate::forms::{add_form, add_form_or_other, add_likely_form, add_named, add_unit, freedom};
use crate::line::Line;
use crate::trace::block::InBlockText;
use crate::trace::count::EntryCount;
use a429_ldu::{Form, Freedom, why_free};
use a429_link::{Crossing, Doing, Next, Why, form_of};
use a429_profile::Profile;
use a429_record::{Entry, EntryText};
use a429_word::{Bus, Sheet, Word};
use std::io::Write;

/// Puts the line of an entry, whose word is free.
#[inline(never)]
pub(crate) fn put_free<W: Write>(
    sheet: &mut Sheet<'_, W>,
    profile: &Profile,
    count: &EntryCount,
    text: &mut EntryText,
    entry: &Entry,
)
    ensures { Says W.contents sheet.old sheet.new (line_head count.now entry.now ++ (free_text profile.now.codes entry.now.bus entry.now.word (freedom_of profile.now.codes entry.now.bus entry.now.word) ++ codes "\n")) }
{
    put_head(sheet, count, text, entry);
    let mut line = Line::new();
    add_freedom(&mut line, profile, entry.bus, entry.word);
    line.put(b"\n");
    sheet.put(line.as_slice());
}

/// Puts the line of an entry, whose word has this allowed form, after which the sink does this. It is put together
/// on the line that is given.
pub(crate) fn put_allowed<W: Write>(
    sheet: &mut Sheet<'_, W>,
    profile: &Profile,
    count: &EntryCount,
    text: &mut EntryText,
    block: &mut InBlockText,
    line: &mut Line,
    entry: &Entry,
    form: &Form,
    doing: &Doing,
)
    ensures { Says W.contents sheet.old sheet.new (line_head count.now entry.now ++ (form_text profile.now.codes form.now ++ (codes " | " ++ doing_text doing.now) ++ codes "\n")) }
{
    put_head(sheet, count, text, entry);
    line.clear();
    add_likely_form(line, profile, form);
    add_doing(line, block, doing);
    line.put(b"\n");
    sheet.put(line.as_slice());
}

/// Puts the line of an entry, whose word has this form, or none, and is not allowed: which form it has in the other direction, where it
/// has none, and what would be allowed are in it.
#[inline(never)]
pub(crate) fn put_refused<W: Write>(
    sheet: &mut Sheet<'_, W>,
    profile: &Profile,
    count: &EntryCount,
    entry: &Entry,
    form: Option<Form>,
    next: Next,
)
    ensures { Says W.contents sheet.old sheet.new (line_head count.now entry.now ++ (form_or_other_text profile.now.codes form (other_text profile.now.codes entry.now.bus entry.now.word) ++ codes " | refused, allowed: " ++ kinds_text (kinds_of_next next) ++ codes "\n")) }
{
    put_head(sheet, count, &mut EntryText::new(), entry);
    let mut line = Line::new();
    add_form_or_other(&mut line, profile, entry.bus, entry.word, form);
    line.put(b" | refused, allowed: ");
    add_next(&mut line, next);
    line.put(b"\n");
    sheet.put(line.as_slice());
}

// Puts how a line begins: the number of the entry, and what was recorded.
#[inline(always)]
fn put_head<W: Write>(
    sheet: &mut Sheet<'_, W>,
    count: &EntryCount,
    text: &mut EntryText,
    entry: &Entry,
)
    ensures { Says W.contents sheet.old sheet.new (line_head count.now entry.now) }
{
    count.digits().put_on(sheet);
    sheet.put(b" ");
    text.put_parts(sheet, *entry, b' ', b' ');
}

// Why a word is free, and what it would be.
fn add_freedom(line: &mut Line, profile: &Profile, bus: Bus, word: Word)
    requires { Fits line.old 49 }
    ensures { Adds line.old line.new 48 (free_text profile.now.codes bus word (freedom_of profile.now.codes bus word)) }
{
    if let Some(why) = why_free(profile, bus, word) {
        line.put(freedom(why));
        add_else(line, profile, bus, word, why);
    }
}

// What a word of even parity would be with bit 32 turned over, where that is a form.
fn add_else(line: &mut Line, profile: &Profile, bus: Bus, word: Word, why: Freedom)
    requires { Fits line.old 38 }
    ensures { Adds line.old line.new 37 (else_text profile.now.codes bus word why) }
{
    match why {
        Freedom::BadParity => {
            let turned = turned_over(word);
            add_else_form(line, profile, form_of(profile, bus, turned));
        }
        Freedom::OtherLabel | Freedom::IgnoredType | Freedom::IgnoredCode => {}
    }
}

// A word with bit 32 turned over.
fn turned_over(word: Word) -> Word
    ensures { result ≡ turned_over word }
{
    Word::from_u32(word.to_u32() ^ 0x8000_0000)
}

fn add_else_form(line: &mut Line, profile: &Profile, form: Option<Form>)
    requires { Fits line.old 38 }
    ensures { Adds line.old line.new 37 (else_form_text profile.now.codes form) }
{
    if let Some(form) = form {
        line.put(b", else ");
        add_form(line, profile, form);
    }
}

// What the sink does, after a bar.
fn add_doing(line: &mut Line, block: &mut InBlockText, doing: &Doing)
    requires { Fits line.old 72 }
    ensures { Adds line.old line.new 71 (codes " | " ++ doing_text doing.now) }
{
    match *doing {
        Doing::Quiet => line.put(b" | quiet"),
        Doing::OwesClear(count) => add_named(line, b" | owes cts ", count),
        Doing::Granted(count) => add_named(line, b" | granted ", count),
        Doing::InBlock {
            file,
            ldu,
            taken,
            asked,
        } => block.add_to(line, file, ldu, taken, asked),
        Doing::OwesAck { file, ldu } => add_unit(line, b" | owes ack ", file, ldu),
        Doing::OwesNak(why) => {
            line.put(b" | owes nak, ");
            add_why(line, why);
        }
        Doing::Accepts {
            file,
            ldu,
            crossing,
        } => {
            add_unit(line, b" | quiet, accepts ", file, ldu);
            add_crossing(line, crossing);
        }
        Doing::Again { file, ldu } => add_unit(line, b" | quiet, again ", file, ldu),
    }
}

// Data words of those that were asked for.
fn add_words(line: &mut Line, taken: usize, asked: u8)
    requires { Fits line.old 39 }
    ensures { Adds line.old line.new 38 (words_text taken asked) }
{
    line.put_count(taken);
    line.put(b" of ");
    line.put_byte(asked);
    line.put(b" data words");
}

fn add_why(line: &mut Line, why: Why)
    requires { Fits line.old 39 }
    ensures { Adds line.old line.new 38 (why_text why) }
{
    match why {
        Why::NoStart => line.put(b"no start word"),
        Why::OtherCount { words, asked } => add_words(line, words, asked),
        Why::HalfBytes(semis) => {
            line.put_number(semis as u64);
            line.put(b" semi-octets");
        }
        Why::OtherCheck(check) => {
            line.put(b"check word ");
            line.put_hex(check);
        }
        Why::OutOfSequence => line.put(b"out of sequence"),
    }
}

fn add_crossing(line: &mut Line, crossing: Option<Crossing>)
    requires { Fits line.old 47 }
    ensures { Adds line.old line.new 46 (crossing_text crossing) }
{
    if let Some(file) = crossing {
        add_named(line, b", file ", file.number);
        line.put(b" crosses, ");
        line.put_number(file.bytes as u64);
        line.put(b" bytes");
    }
}

/// Puts what may come next, free words aside: a name for each kind of word, a comma between one and the other.
pub fn put_next<W: Write>(sheet: &mut Sheet<'_, W>, may_come: Next)
    ensures { Says W.contents sheet.old sheet.new (kinds_text (kinds_of_next may_come)) }
{
    let mut line = Line::new();
    add_next(&mut line, may_come);
    sheet.put(line.as_slice());
}

// What may come next, a comma between one and the other.
fn add_next(line: &mut Line, next: Next)
    requires { Fits line.old 22 }
    ensures { Adds line.old line.new 21 (kinds_text (kinds_of_next next)) }
{
    match next {
        Next::Request => line.put(b"rts"),
        Next::Clear(count) => add_named(line, b"rts, cts ", count),
        Next::Block { start, data: more } => line.put(block_kinds(start, more)),
        Next::Ack { file, ldu } => {
            add_unit(line, b"rts, ack ", file, ldu);
            line.put(b", nak");
        }
        Next::Nak => line.put(b"rts, nak"),
    }
}

// A request, and the words of a block that may come next.
fn block_kinds(start: bool, more: bool) -> &'static [u8]
    ensures { result.now ≡ kinds_text (kinds_of_next (Next.Block start more)) }
{
    match (start, more) {
        (true, true) => b"rts, sot, data, eot",
        (true, false) => b"rts, sot, eot",
        (false, true) => b"rts, data, eot",
        (false, false) => b"rts, eot",
    }
}
