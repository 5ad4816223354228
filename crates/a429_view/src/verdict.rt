//! The text of a verdict on a certificate, and of the files that cross.

ghost use Rattle.std.specs.Prelude.{codes, ◌++◌};
ghost use Rattle.std.specs.List.{flat_map};
ghost use Rattle.std.specs.Fmt.{decimal};
ghost use Rattle.a429_word.specs.Sheet.{Says};
ghost use Rattle.a429_cert.specs.Stream.{sizes};
ghost use Rattle.a429_view.specs.Verdict.{count_line, file_line, line_of_file, yes_text, fault_text, no_text};

use a429_cert::CertFault;
use a429_link::FileBytes;
use a429_word::Sheet;
use std::io::Write;

/// Puts that a certificate is accepted, with the number and the length of each of its files.
pub fn put_yes<W: Write>(sheet: &mut Sheet<'_, W>, files: &[(u8, u32)])
    ensures { Says W.contents sheet.old sheet.new (yes_text files.now) }
{
    put_count(sheet, files.len());
    put_sizes(sheet, files);
}

/// Puts that a recording is explained, with its files.
pub fn put_explained<W: Write>(sheet: &mut Sheet<'_, W>, files: &[FileBytes])
    ensures { Says W.contents sheet.old sheet.new (yes_text (sizes files.now)) }
{
    put_count(sheet, files.len());
    put_files(sheet, files);
}

fn put_count<W: Write>(sheet: &mut Sheet<'_, W>, count: usize)
    ensures { Says W.contents sheet.old sheet.new (count_line count) }
{
    put_reason(sheet, b"YES files ", count);
}

fn put_sizes<W: Write>(sheet: &mut Sheet<'_, W>, files: &[(u8, u32)])
    ensures { Says W.contents sheet.old sheet.new (flat_map file_line files.now) }
{
    for file in files {
        put_size(sheet, file);
    }
}

fn put_size<W: Write>(sheet: &mut Sheet<'_, W>, file: &(u8, u32))
    ensures { Says W.contents sheet.old sheet.new (file_line file.now) }
{
    let (number, len) = *file;
    put_file(sheet, number, u64::from(len));
}

fn put_files<W: Write>(sheet: &mut Sheet<'_, W>, files: &[FileBytes])
    ensures { Says W.contents sheet.old sheet.new (flat_map line_of_file files.now) }
{
    for file in files {
        put_file(sheet, file.number, file.bytes.as_slice().len() as u64);
    }
}

/// Puts the line of a file with this number and so many bytes.
pub fn put_file<W: Write>(sheet: &mut Sheet<'_, W>, number: u8, len: u64)
    ensures { Says W.contents sheet.old sheet.new (file_line (number, len)) }
{
    sheet.put(b"file ");
    sheet.put_number(u64::from(number));
    sheet.put(b" ");
    sheet.put_number(len);
    sheet.put(b"\n");
}

/// Puts why a certificate is refused.
pub fn put_no<W: Write>(sheet: &mut Sheet<'_, W>, fault: CertFault)
    ensures { Says W.contents sheet.old sheet.new (no_text fault) }
{
    sheet.put(b"NO ");
    put_fault(sheet, fault);
}

/// Puts the fault of a certificate.
pub fn put_fault<W: Write>(sheet: &mut Sheet<'_, W>, fault: CertFault)
    ensures { Says W.contents sheet.old sheet.new (fault_text fault) }
{
    match fault {
        CertFault::Version => sheet.put(b"version\n"),
        CertFault::Line(n) => put_reason(sheet, b"line ", n),
        CertFault::NotAllowed(n) => put_reason(sheet, b"not allowed ", n),
        CertFault::StateDiffers(n) => put_reason(sheet, b"state differs ", n),
        CertFault::WordDiffers { line, entry } => put_word_differs(sheet, line, entry),
        CertFault::Unfinished(i) => put_reason(sheet, b"unfinished ", i),
        CertFault::OutOfMemory => {}
    }
}

fn put_word_differs<W: Write>(sheet: &mut Sheet<'_, W>, line: usize, entry: usize)
    ensures { Says W.contents sheet.old sheet.new (fault_text (CertFault.WordDiffers line entry)) }
{
    sheet.put(b"word differs ");
    sheet.put_number(line as u64);
    sheet.put(b" ");
    sheet.put_number(entry as u64);
    sheet.put(b"\n");
}

fn put_reason<W: Write>(sheet: &mut Sheet<'_, W>, reason: &[u8], number: usize)
    ensures { Says W.contents sheet.old sheet.new (reason.now ++ decimal number ++ codes "\n") }
{
    sheet.put(reason);
    sheet.put_number(number as u64);
    sheet.put(b"\n");
}
