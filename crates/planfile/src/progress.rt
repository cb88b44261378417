// What the records read so far say about the next one.
ghost use Rattle.std.specs.Prelude.{◌≡◌};
ghost use Rattle.planfile.specs.Progress.{rank, within};

// In what kind of amount a file's quotes and its limit are: money alone, or strain and then money.
#[derive(Clone, Copy, PartialEq, Eq, Debug)]
pub enum FileKind {
    Money,
    Ranked,
}

// How far a file has come: the kind of the last record read.
#[derive(Clone, Copy, PartialEq, Eq, PartialOrd, Ord, Default)]
pub(crate) enum Stage {
    #[default]
    Start,
    Class,
    Weekend,
    Book,
    Bound,
    Quote,
    Limit,
}

impl Stage {
    // Whether it is one of the stages from `first` to `last`.
    #[tactic(auto, unfolding(crate::specs::Progress::within))]
    pub(crate) fn is_within(self, first: Stage, last: Stage) -> bool
        ensures { result ≡ within (rank first) (rank last) self }
    {
        (first..=last).contains(&self)
    }
}

// Two numbers of a bound or a quote, in the order in which the file's records rise.
#[derive(Clone, Copy, PartialEq, Eq, PartialOrd, Ord, Default)]
pub(crate) struct Place {
    pub(crate) row: u8,
    pub(crate) column: u8,
}

// How many records of each kind came so far, and the least place that the next bound or quote may have.
#[derive(Clone, Copy, Default)]
pub(crate) struct Progress {
    pub(crate) stage: Stage,
    pub(crate) classes: u8,
    pub(crate) weekends: u8,
    pub(crate) books: u8,
    pub(crate) bounds: u16,
    pub(crate) quotes: u16,
    pub(crate) next_bound: Place,
    pub(crate) next_quote: Place,
}
