use crate::row::{Bytes, Row};

/// A call of the program. Names of files are UTF-8 and not empty.
#[derive(Debug, Drop)]
pub enum Command {
    Check(Bytes),
    Build {
        file: Bytes,
        out: Bytes,
        trace: bool,
    },
    Run {
        file: Bytes,
        out: Option<Bytes>,
        /// At most 9,223,372,036,854,775,807.
        steps: u64,
        trace: bool,
        input: Row<i64>,
    },
    Exec {
        file: Bytes,
        /// At most 9,223,372,036,854,775,807.
        steps: u64,
        input: Row<i64>,
    },
    Selftest {
        number: u32,
        /// From 1 to 2,000.
        size: u32,
    },
}
