//! Images of the files that a run leaves.
use crate::fault::Fault;
use crate::files::{Bytes, Choice, Failure, Side, Tapes};
use crate::names::Names;
use crate::random::Random;
use crate::runs::{Part, Run};
use crate::served::Served;
use std::alloc::Global;
use std::fmt;
use xa_disk::Tear;
use xa_store_sqlite::StoreOpenFault;

const TEARS: [Tear; 4] = [
    Tear::Nothing,
    Tear::Beginning,
    Tear::Sectors,
    Tear::Everything,
];

/// How many images were opened.
#[derive(Clone, Copy)]
pub(crate) struct Counts {
    /// Those that are right.
    pub(crate) right: u32,
    /// Those of makings that can't be opened.
    pub(crate) unfinished: u32,
}

impl Counts {
    /// None.
    pub(crate) const NONE: Counts = Counts {
        right: 0,
        unfinished: 0,
    };

    /// How many there are.
    pub(crate) fn all(&self) -> u32 {
        self.right.saturating_add(self.unfinished)
    }

    /// Adds those of another part.
    pub(crate) fn add(&mut self, other: &Counts) {
        self.right = self.right.saturating_add(other.right);
        self.unfinished = self.unfinished.saturating_add(other.unfinished);
    }
}

/// What is wrong, and where.
#[derive(Clone, Copy)]
pub(crate) struct Wrong {
    failure: Failure,
    // Of which image, or none where the run itself is wrong.
    choice: Option<Choice>,
    fault: Fault,
}

impl Wrong {
    // A run is wrong in which this failed.
    fn in_run(failure: &Failure, fault: Fault) -> Wrong {
        Wrong {
            failure: *failure,
            choice: None,
            fault,
        }
    }

    // An image of it is wrong.
    fn in_image(failure: &Failure, choice: &Choice, fault: Fault) -> Wrong {
        Wrong {
            failure: *failure,
            choice: Some(*choice),
            fault,
        }
    }
}

impl fmt::Display for Wrong {
    fn fmt<W: fmt::Write>(&self, f: &mut fmt::Formatter<W>) -> fmt::Result {
        let Failure { side, call, tear } = self.failure;
        write!(f, "call {call} of the {side}, torn as {tear:?}, ")?;
        match self.choice {
            Some(Choice { log, db }) => write!(
                f,
                "image {log} of the log and {db} of the database file: "
            )?,
            None => write!(f, "before a crash: ")?,
        }
        write!(f, "{:?}", self.fault)
    }
}

// Whether the files are those of a making that was cut off in its first page, beside the log that it has begun.
fn are_unfinished(bytes: &Bytes) -> bool {
    bytes.log.len() == 41 && bytes.db.len() == 4_096
}

/// A part whose calls fail, one in each run.
#[derive(Drop)]
pub(crate) struct Trial<'a> {
    pub(crate) alloc: Global,
    pub(crate) names: &'a Names,
    pub(crate) part: &'a Part,
    /// How many images of each failure are opened.
    pub(crate) images: u32,
    /// The calls fail whose number this divides.
    pub(crate) every: u32,
    pub(crate) counts: Counts,
}

impl<'a> Trial<'a> {
    // Whether a store has what a crash may leave.
    fn holds(&self, run: &Run, served: &Served<'_>) -> Result<bool, Fault> {
        let found = served.found(self.alloc, self.names)?;
        if run.left.allows(&found) {
            Ok(true)
        } else {
            Err(Fault::Other)
        }
    }

    // Whether an image is right; else it is that of a making which can't be opened.
    fn is_right(&self, run: &Run, choice: &Choice) -> Result<bool, Fault> {
        let bytes = run.tapes.image(self.alloc, choice)?;
        let mut tapes = Tapes::of(self.alloc, &bytes, &Failure::NONE)?;
        match Served::open(self.alloc, &mut tapes, &self.names.others()) {
            Ok(served) => self.holds(run, &served),
            Err(StoreOpenFault::NotADatabase) if self.part.is_making() && are_unfinished(&bytes) =>
                Ok(false),
            Err(fault) => Err(Fault::Unopened(fault)),
        }
    }

    // Opens one image of a run.
    fn open_image(&mut self, run: &Run, choice: &Choice) -> Result<(), Fault> {
        if self.is_right(run, choice)? {
            self.counts.right = self.counts.right.saturating_add(1);
        } else {
            self.counts.unfinished = self.counts.unfinished.saturating_add(1);
        }
        Ok(())
    }

    // Opens images of a run in which this fails.
    fn open_images(&mut self, failure: &Failure, random: &mut Random) -> Result<(), Wrong> {
        let run = self
            .part
            .run(self.alloc, self.names, failure)
            .map_err(|fault| Wrong::in_run(failure, fault))?;
        for image in 0..self.images {
            let choice = Choice::of(image, random);
            self.open_image(&run, &choice)
                .map_err(|fault| Wrong::in_image(failure, &choice, fault))?;
        }
        Ok(())
    }

    // Fails a call in each way.
    fn fail_call(&mut self, side: Side, call: u32, random: &mut Random) -> Result<(), Wrong> {
        for tear in TEARS {
            self.open_images(&Failure { side, call, tear }, random)?;
        }
        Ok(())
    }

    /// Fails calls of one file, of which a run makes so many.
    pub(crate) fn fail_calls(
        &mut self,
        side: Side,
        calls: u32,
        random: &mut Random,
    ) -> Result<(), Wrong> {
        for before in 0..calls {
            let call = before.saturating_add(1);
            if call.checked_rem(self.every) == Some(0) {
                self.fail_call(side, call, random)?;
            }
        }
        Ok(())
    }
}
