//! The columns of an export, and where they are.

ghost use Rattle.std.specs.Prelude.{◌≡◌, ◌<◌, ◌^◌, length, IfOk};
ghost use Rattle.a429_import.specs.Fields.{fields_left};
ghost use Rattle.a429_import.specs.Columns.{place_of, status_place, part_places, largest, columns_at, columns_in};

use crate::column::Column;
use crate::fields::Fields;
use crate::map::Map;
use crate::parity::ParityBit;
use crate::part::Part;
use std::alloc::{AllocError, Global};
use std::marker::Model;

/// Places of columns, from 0.
#[derive(Drop)]
pub(crate) struct Places {
    places: Vec<usize>,
}

impl Model for Places {
    ghost use Rattle.std.specs.Prelude.{List, ℕ};

    ghost Value = { List ℕ };

    ghost view = { λ p. p.places.items };
}

impl Places {
    pub(crate) fn as_slice(&self) -> &[usize]
        ensures { result.now ≡ self.now }
    {
        self.places.as_slice()
    }
}

/// Where the columns of a map are, from 0.
#[derive(Drop)]
pub(crate) struct Columns {
    pub(crate) channel: usize,
    pub(crate) time: usize,
    /// 0 where no status is needed.
    pub(crate) status: usize,
    pub(crate) parts: Places,
    /// The largest of these.
    pub(crate) last: usize,
}

/// Where the columns of a map are, when the fields of a row are their names; `None` where one is not among them.
pub(crate) fn find_columns(
    alloc: Global,
    map: &Map,
    names: Fields<'_>,
) -> Result<Option<Columns>, AllocError>
    requires { length (fields_left names) < 2 ^ 64 }
    ensures { IfOk result (λ c. c ≡ columns_in map.now (fields_left names.entry)) }
{
    let channel = place_of(names, &map.channels.column);
    let time = place_of(names, &map.time.column);
    let status = status_place(names, &map.parity);
    let parts = part_places(alloc, names, map.parts.as_slice())?;
    Ok(columns_at(channel, time, status, parts))
}

fn columns_at(
    channel: Option<usize>,
    time: Option<usize>,
    status: Option<usize>,
    parts: Option<Places>,
) -> Option<Columns>
    ensures { result ≡ columns_at channel time status parts }
{
    match (channel, time, status, parts) {
        (Some(channel), Some(time), Some(status), Some(parts)) => {
            let last = channel.max(time.max(status.max(largest(parts.as_slice()))));
            Some(Columns {
                channel,
                time,
                status,
                parts,
                last,
            })
        }
        _ => None,
    }
}

// Where a column is, when these are the names.
fn place_of(names: Fields<'_>, column: &Column) -> Option<usize>
    requires { length (fields_left names) < 2 ^ 64 }
    ensures { result ≡ place_of (fields_left names.entry) column.now }
{
    match column {
        Column::Name(name) => names.position(name.as_str().as_bytes()),
        Column::Number(number) => Some(usize::from(number.saturating_sub(1))),
    }
}

fn status_place(names: Fields<'_>, parity: &ParityBit) -> Option<usize>
    requires { length (fields_left names) < 2 ^ 64 }
    ensures { result ≡ status_place (fields_left names.entry) parity.now }
{
    match parity {
        ParityBit::Status(status) => place_of(names, &status.column),
        _ => Some(0),
    }
}

// The places of the parts' columns, where each is there.
fn part_places(
    alloc: Global,
    names: Fields<'_>,
    parts: &[Part],
) -> Result<Option<Places>, AllocError>
    requires { length (fields_left names) < 2 ^ 64 }
    ensures { IfOk result (λ p. p ≡ part_places (fields_left names.entry) parts.now) }
{
    let mut places = Vec::new(alloc);
    for part in parts {
        let Some(place) = place_of(names, &part.column) else {
            return Ok(None);
        };
        places.push(place)?;
    }
    Ok(Some(Places { places }))
}

// The largest of some places, or 0.
fn largest(places: &[usize]) -> usize
    ensures { result ≡ largest places.now }
{
    let mut most = 0;
    for place in places {
        most = most.max(*place);
    }
    most
}
