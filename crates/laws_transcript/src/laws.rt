//! What a run tells.
ghost use Rattle.std.specs.Prelude.{List};
ghost use Rattle.xa_desk.specs.Ended.{EndedView};
ghost use Rattle.xa_worker.specs.Workers.{WorkerView};
ghost use Rattle.xa_worker.specs.Done.{Served};
ghost use Rattle.xa_switch.specs.Closing.{settling};
ghost use Rattle.xa_switch.specs.Settled.{IsSettled};
ghost use Rattle.script_grammar.specs.Contents.{Content};
ghost use Rattle.script_transcript.specs.declared.answer.TranscriptLine.{TranscriptLine};
ghost use Rattle.laws_transcript.specs.ToldOpenings.{Beginning, TellsOf};
ghost use Rattle.script_session.specs.declared.session.Session.{Session};
ghost use Rattle.script_grammar.specs.Steps.{ScriptStep};
ghost use Rattle.laws_transcript.specs.Runs.{OpeningRan};
ghost use Rattle.script_transcript.specs.Values.{AreOfScript};

/// What an opening whose threads and managers came to this tells of, once they are settled.
pub fn runs_tell_of_their_journals()
    ensures managers { (s : Content) (b : Beginning) (steps : List ScriptStep) (answers : List TranscriptLine)
        (sessions left : List Session) (workers : List WorkerView) (ended : List EndedView) (done : List Served)
        → OpeningRan s b steps answers sessions left workers ended done
        → AreOfScript s b.tables (settling ended done).managers }
    ensures tells { (s : Content) (b : Beginning) (steps : List ScriptStep) (answers : List TranscriptLine)
        (sessions left : List Session) (workers : List WorkerView) (ended : List EndedView) (done : List Served)
        → OpeningRan s b steps answers sessions left workers ended done → IsSettled (settling ended done)
        → TellsOf s b (record { steps = steps; answers = answers; settled = settling ended done }) }
{}
