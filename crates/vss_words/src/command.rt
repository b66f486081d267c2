//! What words can ask for.

use vss_lists::Text;

/// The names of the files of both documents, as the words give them.
#[derive(Debug, Drop)]
pub struct DocumentNames {
    pub network: Text,
    pub timetable: Text,
}

/// A task with all that its words say. A budget is a count of conflicts, from 1 to 1,000,000,000.
#[derive(Debug, Drop)]
pub enum Command {
    /// Whether the kept borders alone are enough.
    Verify {
        documents: DocumentNames,
        budget: u32,
    },
    /// A layout with at most so many borders; with none said, with any number.
    Generate {
        documents: DocumentNames,
        most: Option<u32>,
        budget: u32,
    },
    /// A layout with the fewest borders.
    Optimise {
        documents: DocumentNames,
        budget: u32,
    },
    /// Whether the plan of a report is lawful.
    Judge {
        documents: DocumentNames,
        report: Text,
    },
    /// Whether the log of a report refutes what it says that it refutes.
    Check {
        documents: DocumentNames,
        report: Text,
    },
    /// A made case, whose size is from 1 to 8.
    Make {
        seed: u32,
        size: u32,
    },
    /// A made case, and `optimise` on it.
    Trial {
        seed: u32,
        size: u32,
        budget: u32,
    },
}
