//! What a transcript tells of the managers' journals.
//!
//! `specs/Runs.antt` says what the threads and the managers of a run have come to, in turns or in threads,
//! `specs/Journals.antt` what the answers then tell of the settled opening, and `laws` that they do. Which bytes a
//! transcript has is script_transcript's, who runs the threads is xa_script, and what follows from all that is
//! laws_shown's.
#![tactic(auto)]

pub mod laws;
