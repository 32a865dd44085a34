//! A transcript: what the lines of a script answered, and the values that it ends with, as bytes.
//!
//! An `Answer` is what a thread's task answered, and a `TranscriptLine` one line of the transcript. A `Transcript`
//! takes such lines one after the other; `specs/Text.antt` says which bytes they are. `values_of` gives the values
//! after a run (`specs/Values.antt`), and `write_transcript` writes both. What the lines tell of the managers' journals
//! is laws_transcript's.
#![tactic(auto)]

mod answer;
mod ended;
mod lines;
mod text;
mod transcript;
mod values;
mod writing;

pub use answer::{Answer, TranscriptLine};
pub use ended::tell_ended;
pub use transcript::{LINE, Transcript};
pub use values::values_of;
pub use writing::{RunFault, write_transcript};
