//! That a commit ends by the file that its log left: laws alone, of what the coordinator, its log on a disk and a
//! reopening promise.
//!
//! The crash of which they speak is the death of a coordinator and of its log, at any moment of a commit. The opening
//! is settled all the same: all other desks have ended, and all workers have returned. So a killed process is none.
//!
//! Outside an append the file stands for the records that the log has, and perhaps for some that it had forgotten
//! (`FileLog::keeps_its_records`), and inside one for those with the new one or without (`IsAppend`, `IsLoss`). Which
//! of the two it is nobody knows before the file is opened again, and nobody has to: whichever it is, the commit is one
//! that was cut short with that log, and a resolve by what `open` reads ends its branches by it. What was forgotten
//! nobody asks for. The program doesn't stand on this crate; a caller may cite its laws.
#![tactic(auto)]

mod crashes;

pub use crate::crashes::{
    crashed_appends_are_cuts, files_have_one_log, next_openings_end_by_the_file,
};
