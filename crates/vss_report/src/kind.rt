//! The kinds of line of a report.

/// What a line of a report says.
#[derive(Clone, Copy, Debug)]
pub(crate) enum Kind {
    Header,
    Done,
    Impossible,
    Spent,
    Conflicts,
    BestNone,
    Count,
    Border,
    Run,
    Sweep,
    SmallerNone,
    Refutes,
    Step,
    End,
}
