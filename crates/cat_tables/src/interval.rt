ghost use Rattle.std.specs.Prelude.{◌≡◌};
ghost use Rattle.cat_tables.specs.Interval as spec;
ghost use Rattle.cat_tables.specs.Validity as validity;

/// From a snapshot on, up to before another or for good.
#[derive(Clone, Copy, Debug)]
pub struct Interval {
    pub begin: u64,
    pub end: Option<u64>,
}

/// Whether a snapshot is before the end, if there is one.
pub fn is_before(snapshot: u64, end: Option<u64>) -> bool
    ensures { result ≡ validity.is_before snapshot end }
{
    match end {
        Some(end) => snapshot < end,
        None => true,
    }
}

/// Whether an end comes before another.
fn ends_sooner(end: Option<u64>, other: Option<u64>) -> bool
    ensures { result ≡ spec.ends_sooner end other }
{
    match (end, other) {
        (Some(end), Some(other)) => end < other,
        (Some(_), None) => true,
        (None, _) => false,
    }
}

/// The earlier of two ends, if there is one.
fn sooner_end(end: Option<u64>, other: Option<u64>) -> Option<u64>
    ensures { result ≡ spec.sooner_end end other }
{
    match (end, other) {
        (Some(end), Some(other)) => Some(end.min(other)),
        (Some(end), None) => Some(end),
        (None, other) => other,
    }
}

impl Interval {
    /// Whether both hold the later begin.
    pub fn meets(self, other: Interval) -> bool
        ensures { result ≡ spec.meets self other }
    {
        let begin = self.begin.max(other.begin);
        is_before(begin, self.end) && is_before(begin, other.end)
    }

    /// From the later begin to the sooner end: what both hold.
    pub fn common(self, other: Interval) -> Interval
        ensures { result ≡ spec.common self other }
    {
        Interval {
            begin: self.begin.max(other.begin),
            end: sooner_end(self.end, other.end),
        }
    }

    /// The part from a snapshot on.
    pub fn from(self, first: u64) -> Interval
        ensures { result ≡ spec.from first self }
    {
        Interval {
            begin: self.begin.max(first),
            end: self.end,
        }
    }

    /// Whether it holds a snapshot, from the first one on, that the other doesn't. Neither is empty there.
    pub fn outlasts(self, first: u64, other: Interval) -> bool
        ensures { result ≡ spec.outlasts first self other }
    {
        first.max(self.begin) < other.begin || ends_sooner(other.end, self.end)
    }
}
