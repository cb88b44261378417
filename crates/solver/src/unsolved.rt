// Why solving has no assignment to answer.

#[derive(Clone, Copy, Debug, PartialEq, Eq)]
pub enum Unsolved {
    // A book has no open weekend, so that there is no assignment.
    Stranded,
    // The work sheet is too short.
    Short,
}
