//! How much work a search may take.

ghost use Rattle.std.specs.Prelude.{◌≡◌, ◌-◌, ◌↔◌, Some, None, true, false, IfSome, IsSomeAnd, IsTrue, is_some};
ghost use Rattle.a429_merge.specs.Budget.{IsReached, steps_for};
ghost use Rattle.a429_merge.specs.declared.budget.Limit.TheVariants.{Steps};

/// How many steps a search may take for each entry of a recording: a step compares two words, or fills a cell of a table in
/// which two lists are merged. What else is counted takes about as long as its steps.
const STEPS_AN_ENTRY: u64 = 1000;

/// How many it may take besides, so that a short recording is searched to its end.
const STEPS_AT_LEAST: u64 = 1_000_000_000;

/// A limit that cuts a search short, with what shows that it was reached.
#[derive(Clone, Copy, Debug)]
pub enum Limit {
    /// The steps of the recording: so many are left, which is none.
    Steps { left: u64 },
    /// The attempts to send one link data unit that are merged: so many were recorded, more than `MOST_ATTEMPTS`.
    Attempts { recorded: usize },
    /// The places at which one search chooses a next word, `MOST_NODES`: so many are left, which is none.
    Places { left: usize },
    /// The ways to fill data words up: so many were merged, fewer than are wanted, and they are filled up in none.
    Fillings { merged: usize, wanted: usize },
}

// A limit that was reached. There is no value of this type without one.
#[derive(Clone, Copy, Debug)]
struct Reached {
    limit: Limit,
    ghost reached: { IsReached limit },
}

/// Where a search was cut short, and by which limit, which was reached. Only a budget makes one, at the entry at which it counts.
#[derive(Clone, Copy, Debug)]
pub struct Cut {
    entry: usize,
    by: Reached,
}

impl Cut {
    /// The entry at which the search was.
    pub fn entry(&self) -> usize
        ensures { result ≡ self.now.entry }
    {
        self.entry
    }

    /// The limit that was reached.
    pub fn limit(&self) -> Limit
        ensures is { result ≡ self.now.by.limit }
        ensures reached { IsReached result }
    {
        self.by.limit
    }
}

/// The steps that a search may still take.
#[derive(Clone, Copy, Debug)]
pub struct Budget {
    left: u64,
    // The entry at which steps are counted.
    entry: usize,
    // By which limit a search was cut short there, so that what it did not find may be there.
    cut: Option<Reached>,
}

impl Budget {
    /// The budget for a recording of `count` entries: 1,000 steps for each, and 1,000,000,000 besides (profile).
    pub fn of_entries(count: usize) -> Budget
        ensures left { result.left ≡ steps_for count }
        ensures uncut { result.cut ≡ None }
    {
        let steps = STEPS_AN_ENTRY.saturating_mul(count as u64);
        Budget {
            left: steps.saturating_add(STEPS_AT_LEAST),
            entry: 0,
            cut: None,
        }
    }

    /// As many steps as are left, for a search at an entry, which was not cut short yet.
    pub fn afresh(self, entry: usize) -> Budget
        ensures left { result.left ≡ self.left }
        ensures entry { result.entry ≡ entry }
        ensures uncut { result.cut ≡ None }
    {
        Budget {
            entry,
            cut: None,
            ..self
        }
    }

    /// Counts so many steps, or all that are left, where these are fewer.
    pub fn spend(&mut self, steps: usize)
        ensures left { self.new.left ≡ self.old.left - steps }
        ensures entry { self.new.entry ≡ self.old.entry }
        ensures cut { self.new.cut ≡ self.old.cut }
    {
        self.left = self.left.saturating_sub(steps as u64);
    }

    // A search is cut short by this limit, which was reached.
    pub(crate) fn cut_short(&mut self, limit: Limit)
        requires { IsReached limit }
        ensures left { self.new.left ≡ self.old.left }
        ensures entry { self.new.entry ≡ self.old.entry }
        ensures cut { IsSomeAnd self.new.cut (λ r. r.limit ≡ limit) }
    {
        self.cut = Some(Reached { limit });
    }

    /// Whether no step is left; then a search is cut short.
    pub fn runs_out(&mut self) -> bool
        ensures spent { IsTrue result ↔ (self.old.left ≡ 0) }
        ensures left { self.new.left ≡ self.old.left }
        ensures entry { self.new.entry ≡ self.old.entry }
        ensures cut { result ≡ true → IsSomeAnd self.new.cut (λ r. r.limit ≡ Steps 0) }
        ensures uncut { result ≡ false → self.new.cut ≡ self.old.cut }
    {
        if self.left > 0 {
            return false;
        }
        self.cut_short(Limit::Steps { left: self.left });
        true
    }

    /// Where a search that took this budget was cut short, and by which limit. What it did not find may be there then.
    pub fn cut(&self) -> Option<Cut>
        ensures some { is_some result ≡ is_some self.now.cut }
        ensures is { IfSome result (λ c. (c.entry ≡ self.now.entry) × (self.now.cut ≡ Some c.by)) }
    {
        match self.cut {
            Some(by) => Some(Cut {
                entry: self.entry,
                by,
            }),
            None => None,
        }
    }
}
