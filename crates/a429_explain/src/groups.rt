//! The groups of attempts in a recording, and how many words their requests ask for.

ghost use Rattle.std.specs.Prelude.{◌≡◌, ◌<◌, ◌≤◌, ◌+◌, Some, drop, length};
ghost use Rattle.a429_explain.specs.Groups.{are_other, stays_within, start_in, with_role, group_length, start_of, group_start, ends_its_group, is_settled, asked};

use crate::attempts::{Role, StartNumbers};

/// The entries of a group: those from its first request on, and before this one.
#[derive(Clone, Copy)]
pub(crate) struct Group {
    pub from: usize,
    pub to: usize,
}

/// A group, and how many words its first request asks for, 3 to 255.
#[derive(Clone, Copy)]
pub(crate) struct Request {
    pub group: Group,
    pub count: u8,
}

/// Whether a group has begun between two words of a recording.
#[derive(Clone, Copy)]
pub(crate) enum Grouping {
    /// Between two groups.
    Between,
    /// Within a group; with the numbers of its start words, where one was recorded.
    Within { start: Option<StartNumbers> },
}

impl Grouping {
    /// Whether the next word belongs to the group that has begun: it does unless it is the request of an attempt
    /// whose start word has other numbers.
    pub(crate) fn goes_on(self, role: Role) -> bool
        ensures { result ≡ stays_within self role }
    {
        let Grouping::Within { start: first } = self else {
            return false;
        };
        match role {
            Role::Request { start, .. } => !are_other(first, start),
            _ => true,
        }
    }

    /// The same after this word.
    pub(crate) fn with_role(self, role: Role) -> Grouping
        ensures { result ≡ with_role self role }
    {
        match role {
            Role::Request { start, .. } => Grouping::Within {
                start: start.or(self.start()),
            },
            Role::Acknowledged { ends_group: true } => Grouping::Between,
            _ => self,
        }
    }

    fn start(self) -> Option<StartNumbers>
        ensures { result ≡ start_in self }
    {
        match self {
            Grouping::Between => None,
            Grouping::Within { start } => start,
        }
    }
}

// Two start words were recorded, and they have other numbers.
fn are_other(first: Option<StartNumbers>, start: Option<StartNumbers>) -> bool
    ensures { result ≡ are_other first start }
{
    match (first, start) {
        (Some(first), Some(start)) => first != start,
        _ => false,
    }
}

/// The group that begins at this request.
pub(crate) fn group_at(roles: &[Role], from: usize) -> Group
    requires { from < length roles.now }
    ensures from { result.from ≡ from }
    ensures to { result.to ≡ from + group_length (drop from roles.now) }
    ensures some { from < result.to }
    ensures inside { result.to ≤ length roles.now }
{
    let mut grouping = Grouping::Between.with_role(roles[from]);
    for to in from + 1..roles.len() {
        if !grouping.goes_on(roles[to]) {
            return Group { from, to };
        }
        grouping = grouping.with_role(roles[to]);
    }
    Group {
        from,
        to: roles.len(),
    }
}

/// The numbers of a group's first start word, where one was recorded.
pub(crate) fn group_start(roles: &[Role], group: Group) -> Option<StartNumbers>
    requires { group.to ≤ length roles.now }
    ensures { result ≡ group_start roles.now group }
{
    for at in group.from..group.to {
        if let Some(start) = start_of(roles[at]) {
            return Some(start);
        }
    }
    None
}

// The numbers of the start word of an attempt that begins here.
fn start_of(role: Role) -> Option<StartNumbers>
    ensures { result ≡ start_of role }
{
    match role {
        Role::Request { start, .. } => start,
        _ => None,
    }
}

/// The last word of a group is the acknowledgement that ends it.
pub(crate) fn is_settled(roles: &[Role], group: Group) -> bool
    requires some { group.from < group.to }
    requires inside { group.to ≤ length roles.now }
    ensures { result ≡ is_settled roles.now group }
{
    settles(roles[group.to - 1])
}

// A word is the acknowledgement that ends its group.
fn settles(role: Role) -> bool
    ensures { result ≡ ends_its_group (Some role) }
{
    matches!(role, Role::Acknowledged { ends_group: true })
}

/// How many words a request asks for, if an entry of this role is one.
pub(crate) fn asked(role: Role) -> Option<u8>
    ensures { result ≡ asked role }
{
    match role {
        Role::Request { count, .. } => Some(count),
        _ => None,
    }
}
