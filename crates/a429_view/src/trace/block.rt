//! What a line says of the block that the sink is in.

ghost use Rattle.std.specs.Prelude.{◌≡◌, ◌≤◌, ◌++◌, length};
ghost use Rattle.std.specs.Fmt.{decimal};
ghost use Rattle.a429_view.specs.Block.{block_end, block_start};
ghost use Rattle.a429_view.specs.Line.{Adds, Fits};

use crate::forms::{add_named, add_unit};
use crate::line::Line;

/// The text of a block that the sink is in, ready but for the data words that it has taken.
#[derive(Drop)]
pub(crate) struct InBlockText {
    file: u8,
    ldu: u8,
    asked: u8,
    before: Line,
    after: Line,
    ghost before_is: { before ≡ block_start file ldu },
    ghost before_short: { length before ≤ 24 },
    ghost after_is: { after ≡ block_end asked },
    ghost after_short: { length after ≤ 24 },
}

impl InBlockText {
    /// That of a block of this link data unit, of which so many data words were asked for.
    pub(crate) fn of(file: u8, ldu: u8, asked: u8) -> InBlockText
        ensures file { result.file ≡ file }
        ensures ldu { result.ldu ≡ ldu }
        ensures asked { result.asked ≡ asked }
    {
        let mut before = Line::new();
        add_unit(&mut before, b" | in block ", file, ldu);
        before.put(b", ");
        let mut after = Line::new();
        add_named(&mut after, b" of ", asked);
        after.put(b" data words");
        InBlockText {
            file,
            ldu,
            asked,
            before,
            after,
        }
    }

    // Makes it that of another block, where it is not that of this one.
    #[inline(always)]
    fn renew(&mut self, file: u8, ldu: u8, asked: u8)
        ensures file { self.new.file ≡ file }
        ensures ldu { self.new.ldu ≡ ldu }
        ensures asked { self.new.asked ≡ asked }
    {
        if self.file != file || self.ldu != ldu || self.asked != asked {
            self.replace(file, ldu, asked);
        }
    }

    // Makes it that of this block. It is never inlined, since its local value is large.
    #[inline(never)]
    fn replace(&mut self, file: u8, ldu: u8, asked: u8)
        ensures file { self.new.file ≡ file }
        ensures ldu { self.new.ldu ≡ ldu }
        ensures asked { self.new.asked ≡ asked }
    {
        *self = InBlockText::of(file, ldu, asked);
    }

    /// Adds the text of a block, of which so many data words have been taken.
    #[inline(always)]
    pub(crate) fn add_to(&mut self, line: &mut Line, file: u8, ldu: u8, taken: usize, asked: u8)
        requires { Fits line.old 68 }
        ensures { Adds line.old line.new 68 (block_start file ldu ++ decimal taken ++ block_end asked) }
    {
        self.renew(file, ldu, asked);
        line.put_short(&self.before);
        line.put_count(taken);
        line.put_short(&self.after);
    }
}
