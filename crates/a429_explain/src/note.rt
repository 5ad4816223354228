//! Pieces of a certificate, kept short.

ghost use Rattle.std.specs.Prelude.{◌≡◌, ◌<◌, ◌≤◌, ◌-◌, ◌++◌, IfSome};
ghost use Rattle.std.specs.Fmt.{decimal};
ghost use Rattle.a429_word.specs.Digits.{hex_text};
ghost use Rattle.a429_word.specs.Sheet.{Says};
ghost use Rattle.a429_cert.specs.Field.{field};
ghost use Rattle.a429_cert.specs.States.{sink_text};
ghost use Rattle.a429_cert.specs.declared.line.CertLine.TheVariants as cert;
ghost use Rattle.a429_cert.specs.declared.line.MovedLine.{MovedLine};
ghost use Rattle.a429_explain.specs.Note.{line_after, same_fields, likely_lines, last_line, load_head, note_text, number_in, lost_head, rest_lines, EndsWith};

use crate::next::{acknowledged, carried, is_act, lost, next_line, words_after};
use a429_cert::{Act, BlockText, MovedLine, ShortText, moved_text, word_field};
use a429_link::{SourceState, States};
use a429_word::{Sheet, Word};
use std::io::Write;

/// Some lines of a certificate, or a part of one. Each line begins with the line feed that ends the line before it.
#[derive(Clone, Copy)]
pub(crate) enum Note {
    /// The line with the number of the first file.
    First(u8),
    /// The line of a link data unit, up to its data words.
    Load {
        gfi: u8,
        flags: u8,
        check: ShortWord,
    },
    /// A data word of that line, so many times.
    Words {
        word: ShortWord,
        times: u8,
    },
    /// Two data words of that line.
    Pair {
        first: ShortWord,
        second: ShortWord,
    },
    /// The line of a step that is no load, and so many lines after it, each the one that is likely after the last.
    Moves {
        first: MovedLine,
        more: u8,
    },
    /// The lines of the last words of a block, which are lost: those after which so many words are sent, from `first` on and below `end`,
    /// and the very last. The sink and the words on their way are as in these states.
    Losses {
        at: States,
        first: u8,
        end: u8,
    },
}

/// A number of 32 bits as four bytes, the lowest first: so a note takes 9 bytes.
#[derive(Clone, Copy)]
pub(crate) struct ShortWord {
    pub bytes: [u8; 4],
}

impl ShortWord {
    ghost use Rattle.std.specs.Prelude.{◌≡◌};
    ghost use Rattle.a429_explain.specs.Note.{number_in};

    pub(crate) fn new(number: u32) -> ShortWord
        ensures { number_in result ≡ number }
    {
        ShortWord {
            bytes: number.to_le_bytes(),
        }
    }

    pub(crate) fn number(self) -> u32
        ensures { result ≡ number_in self }
    {
        u32::from_le_bytes(self.bytes)
    }
}

/// The note with one data word more, where it has room for that.
pub(crate) fn with_word(note: Note, word: ShortWord) -> Option<Note>
    ensures text { IfSome result (λ n. note_text n ≡ note_text note ++ field (hex_text (number_in word))) }
    ensures ends { IfSome result (λ n. (last : MovedLine) → EndsWith n last) }
{
    match note {
        Note::Words { word: last, times } => with_word_after(last, times, word),
        _ => None,
    }
}

// The note of a word that comes so many times, and then of another one.
#[tactic(auto, using(crate::proofs::NoteFacts::words_more, crate::proofs::NoteFacts::word_after))]
fn with_word_after(last: ShortWord, times: u8, word: ShortWord) -> Option<Note>
    ensures text { IfSome result (λ n. note_text n ≡ same_fields (number_in last) times ++ field (hex_text (number_in word))) }
    ensures ends { IfSome result (λ n. (last : MovedLine) → EndsWith n last) }
{
    if last.number() == word.number() && times < u8::MAX {
        let times = times + 1;
        return Some(Note::Words { word, times });
    }
    if times == 1 {
        return Some(Note::Pair {
            first: last,
            second: word,
        });
    }
    None
}

/// Puts the text of a note.
pub(crate) fn put_note<W: Write>(sheet: &mut Sheet<'_, W>, block: &BlockText, note: Note)
    ensures { Says W.contents sheet.old sheet.new (note_text note) }
{
    match note {
        Note::First(file) => put_first(sheet, file),
        Note::Load { gfi, flags, check } => put_load(sheet, gfi, flags, check.number()),
        Note::Words { word, times } => put_words(sheet, word.number(), times),
        Note::Pair { first, second } => {
            put_word(sheet, first.number());
            put_word(sheet, second.number());
        }
        Note::Moves { first, more } => {
            put_move(sheet, first);
            put_likely(sheet, block, first, more);
        }
        Note::Losses { at, first, end } => put_losses(sheet, at, first, end),
    }
}

fn put_first<W: Write>(sheet: &mut Sheet<'_, W>, file: u8)
    ensures { Says W.contents sheet.old sheet.new (line_after (cert.First file)) }
{
    sheet.put(b"\nfirst ");
    sheet.put_number(u64::from(file));
}

fn put_load<W: Write>(sheet: &mut Sheet<'_, W>, gfi: u8, flags: u8, check: u32)
    ensures { Says W.contents sheet.old sheet.new (load_head gfi flags check) }
{
    let gfi = Word::from_u32(u32::from(gfi)).hex();
    let flags = Word::from_u32(u32::from(flags)).hex();
    let check = Word::from_u32(check).hex();
    sheet.put(&[
        b'\n', b'L', b' ', gfi[7], b' ', flags[7], b' ', check[4], check[5], check[6], check[7],
    ]);
}

// Puts the field of a word so many times.
fn put_words<W: Write>(sheet: &mut Sheet<'_, W>, word: u32, times: u8)
    ensures { Says W.contents sheet.old sheet.new (same_fields word times) }
{
    let mut left = times;
    while left > 0 {
        left -= 1;
        put_word(sheet, word);
    }
}

// Puts the field of a word.
fn put_word<W: Write>(sheet: &mut Sheet<'_, W>, word: u32)
    ensures { Says W.contents sheet.old sheet.new (field (hex_text word)) }
{
    sheet.put(&word_field(word));
}

// Puts so many lines after this one, each the one that is likely after the last.
fn put_likely<W: Write>(sheet: &mut Sheet<'_, W>, block: &BlockText, first: MovedLine, more: u8)
    ensures { Says W.contents sheet.old sheet.new (likely_lines first more) }
{
    let mut line = first;
    let mut left = more;
    while left > 0 {
        let put = put_some(sheet, block, line, left);
        line = put.last;
        left -= put.lines;
    }
}

// Puts the lines of the last words of a block, which are lost.
fn put_losses<W: Write>(sheet: &mut Sheet<'_, W>, at: States, first: u8, end: u8)
    ensures { Says W.contents sheet.old sheet.new (rest_lines at first (end - first)) }
{
    let ways = ways_text(at);
    let mut sent = first;
    while sent < end {
        put_lost(sheet, sent, ways.as_slice());
        sent += 1;
    }
    put_move(sheet, lost(at, SourceState::Waiting));
}

// Puts the line of a lost word, after which so many words are sent, with what comes after that number.
#[inline(always)]
fn put_lost<W: Write>(sheet: &mut Sheet<'_, W>, sent: u8, ways: &[u8])
    ensures { Says W.contents sheet.old sheet.new (lost_head sent ++ ways.now) }
{
    let mut head = ShortText::new();
    head.push(b'\n');
    head.push(b'l');
    head.push_source(SourceState::Sending(sent));
    sheet.put(head.as_slice());
    sheet.put(ways);
}

// The end of a line: the sink, and how many words are on their way.
fn ways_text(at: States) -> ShortText
    ensures { result ≡ field (sink_text at.sink) ++ field (decimal at.to_sink) ++ field (decimal at.to_source) }
{
    let mut text = ShortText::new();
    text.push_sink(at.sink);
    text.push_number(at.to_sink);
    text.push_number(at.to_source);
    text
}

// So many lines were put, of which this is the last.
#[derive(Clone, Copy)]
struct Put {
    lines: u8,
    last: MovedLine,
}

// Lines whose text is the same each time.
#[derive(Clone, Copy)]
struct Known {
    text: &'static [u8],
    put: Put,
}

// The lines that are likely after that of a request, up to the one with which the sink takes the start word, or after that of an end
// word, up to the one with which the source takes the acknowledgement; where `left` are as many.
#[inline(always)]
fn known_after(line: MovedLine, left: u8) -> Option<Known>
    ensures text { IfSome result (λ known. known.text.now ≡ likely_lines line known.put.lines) }
    ensures last { IfSome result (λ known. known.put.last ≡ last_line line known.put.lines) }
    ensures some { IfSome result (λ known. 0 < known.put.lines) }
    ensures few { IfSome result (λ known. known.put.lines ≤ left) }
{
    if !is_act(line.act, Act::Sent) {
        return None;
    }
    match line.states.source {
        SourceState::Awaiting if left >= 5 => Some(Known {
            text: b"\nk C c 0 0\nb C G 0 1\ng S0 G 0 0\na S1 G 1 0\nk S1 B1 0 0",
            put: Put {
                lines: 5,
                last: carried(1),
            },
        }),
        SourceState::Waiting if left >= 3 => Some(Known {
            text: b"\nk W A 0 0\nb W Q 0 1\ng I Q 0 0",
            put: Put {
                lines: 3,
                last: acknowledged(),
            },
        }),
        _ => None,
    }
}

// Puts some of so many lines after this one, each the one that is likely after the last: those of words of a block, or others of a known
// text, at once, or else the first.
#[inline(always)]
fn put_some<W: Write>(sheet: &mut Sheet<'_, W>, block: &BlockText, line: MovedLine, left: u8) -> Put
    requires { 0 < left }
    ensures text { Says W.contents sheet.old sheet.new (likely_lines line result.lines) }
    ensures last { result.last ≡ last_line line result.lines }
    ensures some { 0 < result.lines }
    ensures few { result.lines ≤ left }
{
    if let Some(words) = words_after(line, left) {
        sheet.put(block.lines(words.place, words.count));
        return Put {
            lines: 2 * words.count,
            last: carried(words.place + words.count),
        };
    }
    if let Some(known) = known_after(line, left) {
        sheet.put(known.text);
        return known.put;
    }
    let last = next_line(line);
    put_move(sheet, last);
    Put { lines: 1, last }
}

fn put_move<W: Write>(sheet: &mut Sheet<'_, W>, line: MovedLine)
    ensures { Says W.contents sheet.old sheet.new (line_after (cert.Moved line)) }
{
    let text = moved_text(line);
    sheet.put(b"\n");
    sheet.put(text.as_slice());
}
