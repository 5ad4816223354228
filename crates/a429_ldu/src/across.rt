//! What a word is to the other direction, where two units send each other files on one pair of lines.

ghost use Rattle.std.specs.Prelude.{◌≡◌};
ghost use Rattle.a429_ldu.specs.Across.{form_across, other_line as across};

use crate::forms::Form;
use crate::forms::fields::parts_of;
use crate::forms::reading::form_on;
use crate::freedom::why_free;
use a429_profile::Profile;
use a429_word::{Bus, Word};

/// The other line of the pair.
#[inline]
pub fn other_line(line: Bus) -> Bus
    ensures { result ≡ across line }
{
    match line {
        Bus::A => Bus::B,
        Bus::B => Bus::A,
    }
}

/// The form that a word of this line has in the other direction, whatever its destination: there the line to the sink is the other one
/// (ARINC 429 Part 3; that both directions have the same types and codes: profile). `None` where it is free or has none. No word has
/// a form in both directions.
pub fn form_across(profile: &Profile, bus: Bus, word: Word) -> Option<Form>
    ensures { result ≡ form_across profile.now.codes bus word }
{
    if why_free(profile, bus, word).is_some() {
        return None;
    }
    let parts = parts_of(word);
    form_on(profile.codes(), parts.middle, other_line(bus), parts)
}
