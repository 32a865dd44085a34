//! Steps in a small form: the bytes of their names stand one after the other, and so do the keys of additions. Each
//! step says where.
ghost use Rattle.std.specs.Prelude.{◌≡◌, ◌<◌, ◌^◌, ◌++◌, ◌∷◌, [], ℕ, List, Some, length, slice_get, All, IfOk, OnOk};
ghost use Rattle.std.specs.Prelude.{OnErr, nat_eq, ⊤};
ghost use Rattle.std.specs.List.{list_any};
ghost use Rattle.script_grammar.specs.Contents.{is_reopen};
ghost use Rattle.script_grammar.specs.OwnTasks.{own_steps, steps_at, tasks_in, IsTask};
ghost use Rattle.script_grammar.specs.Spelling.{Spells, IsShort};
ghost use Rattle.script_grammar.specs.KeptSteps.{name_at, gtrid_at, key_at_place, IsName, IsGtrid, IsKey, IsNamed};
ghost use Rattle.script_grammar.specs.KeptSteps.{step_at, keys_in, kept_from};
ghost use Rattle.std.specs.Arc.{arc_value};

use crate::name::{Gtrid, Name};
use crate::step::{Action, ManagerCall, Step, Task};
use std::alloc::{AllocError, Global};
use std::clone::Clone;
use std::marker::Model;
use std::sync::Arc;
use xa_words::Key;

// Where the bytes of a branch's name stand: those of the gtrid, a dot, and those of the bqual.
#[derive(Clone, Copy)]
pub(crate) struct NamePlace {
    at: u32,
    gtrid: u8,
    bqual: u8,
}

// Where the bytes of a gtrid stand, and how many there are.
#[derive(Clone, Copy)]
pub(crate) struct GtridPlace {
    at: u32,
    len: u8,
}

// Where the key of an addition stands.
#[derive(Clone, Copy)]
pub(crate) struct KeyPlace {
    at: u32,
}

// A step as it is kept: it says where its name and its key stand.
type KeptStep = Step<NamePlace, GtridPlace, KeyPlace>;

// There is one for each line.
const _: () = prove!(size_of::<KeptStep>() == 40);

// The branch's name that stands at a place.
#[inline(always)]
fn name_at<'a>(names: &'a [u8], place: NamePlace) -> Name<'a>
    requires { IsName names.now place }
    ensures { result ≡ name_at names.now place }
{
    let at = place.at as usize;
    let dot = place.gtrid as usize;
    let len = dot + 1 + place.bqual as usize;
    Name::new(&names[at..at + len], dot)
}

// The global transaction whose gtrid stands at a place.
#[inline(always)]
fn gtrid_at<'a>(names: &'a [u8], place: GtridPlace) -> Gtrid<'a>
    requires { IsGtrid names.now place }
    ensures { result ≡ gtrid_at names.now place }
{
    let at = place.at as usize;
    Gtrid::new(&names[at..at + place.len as usize])
}

// The key that stands at a place.
#[inline(always)]
fn key_at(keys: &[Key], place: KeyPlace) -> Key
    requires { IsKey keys.now place }
    ensures { result ≡ key_at_place keys.now place }
{
    keys[place.at as usize]
}

// The step, the bytes of whose name are kept from a place on, and whose key is kept at a place.
fn kept_from(step: &Step<Name, Gtrid>, at: u32, key: u32) -> KeptStep
    ensures { result ≡ kept_from at key step.now }
{
    step.map(
        |name| NamePlace {
            at,
            gtrid: name.gtrid().len() as u8,
            bqual: name.bqual().len() as u8,
        },
        |gtrid| GtridPlace {
            at,
            len: gtrid.bytes().len() as u8,
        },
        |_| KeyPlace { at: key },
    )
}

// The step that is kept, with its name or its key.
#[inline(always)]
fn step_at<'a>(names: &'a [u8], keys: &[Key], kept: &KeptStep) -> Step<Name<'a>, Gtrid<'a>>
    requires { IsNamed names.now keys.now kept.now }
    ensures { result ≡ step_at names.now keys.now kept.now }
{
    kept.map(
        |place| name_at(names, *place),
        |place| gtrid_at(names, *place),
        |place| key_at(keys, *place),
    )
}

/// Steps in their order. Contracts see the list of them.
#[derive(Drop)]
pub(crate) struct Steps {
    names: Vec<u8>,
    keys: Vec<Key>,
    kept: Vec<KeptStep>,
}

impl Model for Steps {
    ghost use Rattle.std.specs.Prelude.{List, All};
    ghost use Rattle.script_grammar.specs.Steps.{ScriptStep};
    ghost use Rattle.script_grammar.specs.KeptSteps.{IsNamed, steps_of};

    ghost Value = { List ScriptStep };

    ghost view = { λ s. steps_of s.names.items s.keys.items s.kept.items };

    ghost invariant = { λ s. All (IsNamed s.names.items s.keys.items) s.kept.items };
}

// The name in a step, as a line has it.
fn name_in<'a>(step: &Step<Name<'a>, Gtrid<'a>>) -> &'a [u8]
    ensures spells { Spells result.now step.now }
    ensures short { IsShort step.now }
{
    let Step::Task(task) = step else {
        return b"".as_slice();
    };
    match &task.action {
        Action::Call(called) => match &called.call {
            ManagerCall::Xa(_, Some(name)) | ManagerCall::Heur(name, _) => name.word(),
            _ => b"".as_slice(),
        },
        Action::CommitAll(commit) => commit.tran.bytes(),
        Action::Resolve => b"".as_slice(),
    }
}

// Adds the key of a step that is an addition.
#[inline(always)]
fn add_key(keys: &mut Vec<Key>, step: &Step<Name, Gtrid>) -> Result<(), AllocError>
    ensures added { OnOk result (keys.new.items ≡ keys.old.items ++ keys_in step.now) }
    ensures same { OnErr result (keys.new.items ≡ keys.old.items) }
{
    let Step::Task(task) = step else {
        return Ok(());
    };
    match &task.action {
        Action::Call(called) => match &called.call {
            ManagerCall::Add(key, _) => {
                keys.push(*key)?;
                Ok(())
            }
            _ => Ok(()),
        },
        _ => Ok(()),
    }
}

// The place after so many, where a place may be as large.
#[inline(always)]
fn place_of(len: usize) -> Result<u32, AllocError>
    ensures { IfOk result (λ at. at ≡ len) }
{
    u32::try_from(len).map_err(|_| AllocError)
}

fn any_reopens(kept: &[KeptStep]) -> bool
    ensures { result ≡ list_any is_reopen kept.now }
{
    kept.iter().any(|step| step.is_reopen())
}

impl Steps {
    pub(crate) fn new(alloc: Global) -> Steps
        ensures { result ≡ [] }
    {
        Steps {
            names: Vec::new(alloc),
            keys: Vec::new(alloc),
            kept: Vec::new(alloc),
        }
    }

    /// How many steps there are.
    pub(crate) fn len(&self) -> usize
        ensures steps { result ≡ length self.now }
        ensures fits { result < 2 ^ 63 }
    {
        self.kept.len()
    }

    /// Whether one opens the managers again.
    pub(crate) fn any_reopens(&self) -> bool
        ensures { result ≡ list_any is_reopen self.now }
    {
        any_reopens(&self.kept)
    }

    /// Adds a step. It fails for want of memory, and where names or keys stand at all places that there are for them.
    pub(crate) fn push(&mut self, step: &Step<Name, Gtrid>) -> Result<(), AllocError>
        ensures pushed { OnOk result (self.new ≡ self.old ++ step.now ∷ []) }
        ensures same { OnErr result (self.new ≡ self.old) }
    {
        let at = place_of(self.names.len())?;
        let key = place_of(self.keys.len())?;
        self.names.extend_from_slice(name_in(step))?;
        add_key(&mut self.keys, step)?;
        let kept = kept_from(step, at, key);
        self.kept.push(kept)?;
        Ok(())
    }

    /// The step at a place, from 0, with the name that stands among the bytes.
    #[inline(always)]
    pub(crate) fn get(&self, place: usize) -> Step<Name<'_>, Gtrid<'_>>
        requires { place < length self.now }
        ensures { slice_get self.now place ≡ Some result }
    {
        step_at(&self.names, &self.keys, &self.kept[place])
    }

    /// Where the tasks of a thread stand.
    pub(crate) fn places_of(&self, alloc: Global, thread: u32) -> Result<Vec<usize>, AllocError>
        ensures own { IfOk result (λ v. steps_at self.now v.items ≡ own_steps thread self.now) }
        ensures within { IfOk result (λ v. All (λ k. k < length self.now) v.items) }
    {
        let mut places = Vec::new(alloc);
        for place in 0..self.kept.len() {
            if self.kept[place].is_of(thread) {
                places.push(place)?;
            }
        }
        Ok(places)
    }
}

impl Clone for Steps {
    ghost is_clone = { λ a b. b ≡ a };

    fn clone(&self) -> Result<Steps, AllocError> {
        Ok(Steps {
            names: self.names.clone()?,
            keys: self.keys.clone()?,
            kept: self.kept.clone()?,
        })
    }
}

/// The tasks of one thread, in the order of their lines. Contracts see the list of them.
#[derive(Drop)]
pub struct Tasks {
    // Those of all threads.
    steps: Arc<Steps, Global>,
    // Where its own stand.
    places: Vec<usize>,
}

impl Model for Tasks {
    ghost use Rattle.std.specs.Prelude.{◌<◌, List, length, All};
    ghost use Rattle.std.specs.Arc.{arc_value};
    ghost use Rattle.script_grammar.specs.Steps.{ScriptTask};
    ghost use Rattle.script_grammar.specs.OwnTasks.{tasks_in, steps_at, IsTask};

    ghost Value = { List ScriptTask };

    ghost view = { λ t. tasks_in (steps_at (arc_value t.steps) t.places.items) };

    ghost invariant = { λ t. All IsTask (steps_at (arc_value t.steps) t.places.items)
        × All (λ k. k < length (arc_value t.steps)) t.places.items };
}

impl Tasks {
    /// The tasks that the steps at these places are.
    pub(crate) fn new(steps: Arc<Steps, Global>, places: Vec<usize>) -> Tasks
        requires tasks { All IsTask (steps_at (arc_value steps) places.items) }
        requires within { All (λ k. k < length (arc_value steps)) places.items }
        ensures { result ≡ tasks_in (steps_at (arc_value steps) places.items) }
    {
        Tasks { steps, places }
    }

    /// How many there are.
    #[tactic(auto, using(xa_base::proofs::arc_value, crate::proofs::StepLemmas::as_many_places))]
    pub fn len(&self) -> usize
        ensures { result ≡ length self.now }
    {
        self.places.len()
    }

    /// Whether there is none.
    pub fn is_empty(&self) -> bool
        ensures { result ≡ nat_eq (length self.now) 0 }
    {
        self.len() == 0
    }

    /// The task at a place, from 0. Its name's bytes are lent with it.
    #[inline(always)]
    pub fn get(&self, place: usize) -> Task<Name<'_>, Gtrid<'_>>
        requires { place < length self.now }
        ensures { slice_get self.now place ≡ Some result }
    {
        match self.steps.get(self.places[place]) {
            Step::Task(task) => task,
            // All steps are tasks.
            Step::Turn { .. } | Step::Reopen { .. } => unreachable!(),
        }
    }
}
