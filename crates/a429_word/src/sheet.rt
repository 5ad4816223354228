//! A sheet of output: pieces on their way to a writer, with the failure remembered.

ghost use Rattle.std.specs.Prelude.{◌≡◌, ◌≤◌, ◌↔◌, [], true, false, length, take, IsErr};
ghost use Rattle.std.specs.Fmt.{decimal};
ghost use Rattle.a429_word.specs.Sheet.{sheet_failed, IsWritten, Says};

use crate::page::Page;
use crate::tally::{Device, Failing, Tally};
use std::io::Write;

/// An output and the page before it, as one value that remembers a failure: pieces are put one after the
/// other, and `finish` reports a failure once for all of them. What is put after the output has failed is not
/// written. So a long loop calls `failed` now and then.
#[derive(Drop)]
pub struct Sheet<'a, W> {
    out: &'a mut Tally<W>,
    page: &'a mut Page,
}

impl<'a, W: Write> Sheet<'a, W> {
    /// A sheet over this output and this page. What waits on the page is written first.
    pub fn new(out: &'a mut Tally<W>, page: &'a mut Page) -> Sheet<'a, W>
        ensures same_out { result.out.ghost_name ≡ out.entry.ghost_name }
        ensures same_page { result.page.ghost_name ≡ page.entry.ghost_name }
        ensures out { result.out.now ≡ out.old }
        ensures page { result.page.now ≡ page.old }
    {
        Sheet { out, page }
    }

    /// Adds bytes.
    #[inline(always)]
    pub fn put(&mut self, bytes: &[u8])
        ensures { Says W.contents self.old self.new bytes.now }
    {
        let _ = self.page.put(self.out, bytes);
    }

    /// Adds the first `count` of 32 bytes, 32 at most. Where there is room all 32 are copied, so that a few take as long as one.
    #[inline(always)]
    pub fn put_first(&mut self, bytes: &[u8], count: usize)
        requires bytes { length bytes.now ≡ 32 }
        requires count { count ≤ 32 }
        ensures { Says W.contents self.old self.new (take count bytes.now) }
    {
        let _ = self.page.put_first(self.out, bytes, count);
    }

    /// Adds a number, in decimal.
    #[inline(always)]
    pub fn put_number(&mut self, number: u64)
        ensures { Says W.contents self.old self.new (decimal number) }
    {
        let _ = self.page.put_number(self.out, number);
    }

    /// Whether the output has failed.
    pub fn failed(&self) -> bool
        ensures { result ≡ sheet_failed self.now }
    {
        self.out.failed()
    }

    /// Writes what waits on the page. `Device` where that fails, or an earlier write has.
    pub fn finish(&mut self) -> Result<(), Device>
        ensures nothing_more { Says W.contents self.old self.new [] }
        ensures written { sheet_failed self.new ≡ false → IsWritten W.contents self.new }
        ensures device { IsErr result ↔ (sheet_failed self.new ≡ true) }
    {
        self.page.finish(self.out)
    }
}
