//! The columns of an export.

use a429_profile::Text;

/// A column of an export (profile).
#[derive(Drop)]
pub enum Column {
    /// The first with this name, where a row names the columns.
    Name(Text),
    /// The one at this place, from 1.
    Number(u16),
}
