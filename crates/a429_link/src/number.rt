//! The numbers of link data units.

ghost use Rattle.std.specs.Prelude.{◌≡◌, ◌≤◌};
ghost use Rattle.a429_ldu.specs.Ldu.{is_final};
ghost use Rattle.a429_link.specs.Number.{first_number, next_number, number_after, goes_on, begins_file};

use a429_ldu::Ldu;
use a429_profile::Profile;
use a429_profile::laws::each_number_lies_in_its_range;

/// The number of a link data unit: that of its file, and its own in the file (ARINC 429 Part 3).
#[derive(Clone, Copy, Debug, PartialEq, Eq)]
pub struct UnitNumber {
    pub file: u8,
    /// 256 only past a file's 255th, where nothing can be loaded.
    pub ldu: u16,
}

impl UnitNumber {
    /// That of the first link data unit of this file (profile).
    pub fn first(profile: &Profile, file: u8) -> UnitNumber
        ensures number { result ≡ first_number profile.now.codes file }
        ensures low { result.ldu ≤ 1 }
    {
        UnitNumber {
            file,
            ldu: u16::from(profile.codes().first_ldu),
        }
    }

    /// The one that comes next: after a file's last link data unit that of the next file's first, 255
    /// followed by 0, else that of the file's next, at most 256 (profile).
    pub fn next(self, profile: &Profile, is_final: bool) -> UnitNumber
        ensures number { result ≡ next_number profile.now.codes self is_final }
        ensures high { result.ldu ≤ 256 }
    {
        if is_final {
            UnitNumber::first(profile, self.file.wrapping_add(1))
        } else {
            UnitNumber {
                file: self.file,
                ldu: self.ldu.min(255) + 1,
            }
        }
    }

    /// The number that comes next, where `unit` is the link data unit of this number.
    pub fn after(self, profile: &Profile, unit: &Ldu) -> UnitNumber
        ensures number { result ≡ number_after profile.now.codes self unit.now }
        ensures high { result.ldu ≤ 256 }
    {
        self.next(profile, is_final(profile, unit.flags()))
    }

    /// The other is that of the next one of the same file, one of its 255 (profile).
    pub(crate) fn goes_on(self, profile: &Profile, other: UnitNumber) -> bool
        ensures { result ≡ goes_on profile.now.codes self other }
    {
        let last = u16::from(profile.codes().first_ldu) + 254;
        other == self.next(profile, false) && other.ldu <= last
    }

    /// The other is that of the first of a file that is 1 to 128 past this one's, 255 followed by 0 (profile).
    pub(crate) fn begins_file(self, profile: &Profile, other: UnitNumber) -> bool
        ensures { result ≡ begins_file profile.now.codes self other }
    {
        let past = other.file.wrapping_sub(self.file);
        other.ldu == u16::from(profile.codes().first_ldu) && 1 <= past && past <= 128
    }
}

/// These flags of an end word, whose lowest bit is bit 25, say that it ends its file (ARINC 429 Part 3; the
/// bit is the profile's).
pub fn is_final(profile: &Profile, flags: u8) -> bool
    ensures { result ≡ is_final profile.now.codes flags }
{
    each_number_lies_in_its_range();
    let codes = profile.codes();
    flags >> (codes.final_bit - 25) & 1 == 1
}
