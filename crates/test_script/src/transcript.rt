//! The bytes of a transcript, and the texts of a run's faults.
use script_grammar::Declared;
use script_transcript::{Answer, RunFault, Transcript, TranscriptLine, write_transcript};
use std::alloc::Global;
use std::test::Fail;
use xa_driver::{CommitOutcome, Decision, Done, Ending, LastKnown};
use xa_words::{Code, Death, Key};

#[test]
fn a_transcript_has_the_answers_and_then_the_values(rt: HostRuntime) -> Result<(), Fail> {
    let lines = [
        TranscriptLine::Answered {
            line: 2,
            thread: 1,
            answer: Answer::Called(0),
        },
        TranscriptLine::Answered {
            line: 3,
            thread: 2,
            answer: Answer::Completed {
                handle: 4,
                retval: -3,
            },
        },
        TranscriptLine::Turned {
            line: 5,
            step: xa_worker::WorkerStep::Empty,
        },
        TranscriptLine::Answered {
            line: 100_000,
            thread: 8,
            answer: Answer::Called(-6),
        },
        TranscriptLine::Ended {
            thread: 8,
            handle: 32,
            retval: 103,
        },
    ];
    let key = Key::new(b"a1").ok_or("key")?;
    let values = [Declared {
        manager: 1,
        key,
        value: 70,
    }];
    let mut out = Vec::new(rt.alloc());
    let mut transcript = Transcript::with_capacity(rt.alloc(), lines.len())?;
    for line in lines {
        transcript.tell(line)?;
    }
    write_transcript(rt.alloc(), transcript.text(), &values, &mut out)?;
    assert_eq!(rt;
        out.as_slice(),
        b"2 1 0\n3 2 0 handle 4 retval -3\n5 turn empty\n100000 8 -6\n\
        end 8 handle 32 retval 103\nvalue 1 a1 70\n"
            .as_slice()
    );
    Ok(())
}

// The text of a line that tells this.
fn text_of(alloc: Global, answer: Answer) -> Result<Vec<u8>, Fail> {
    let mut transcript = Transcript::with_capacity(alloc, 1)?;
    transcript.tell(TranscriptLine::Answered {
        line: 4,
        thread: 2,
        answer,
    })?;
    let mut text = Vec::new(alloc);
    text.extend_from_slice(transcript.text())?;
    Ok(text)
}

#[test]
fn a_death_shows_what_was_known_by_then(rt: HostRuntime) -> Result<(), Fail> {
    let rows = [
        (Death::Preparing(0), b"4 2 died\n".as_slice()),
        (
            Death::Preparing(2),
            b"4 2 died vote:0 vote:103\n".as_slice(),
        ),
        (Death::Prepared, b"4 2 died vote:0 vote:103\n".as_slice()),
        (
            Death::Decided,
            b"4 2 died abort unlogged vote:0 vote:103\n".as_slice(),
        ),
        (
            Death::Telling(1),
            b"4 2 died abort unlogged vote:0 vote:103\n".as_slice(),
        ),
        (
            Death::Told,
            b"4 2 died abort unlogged indoubt rolledback\n".as_slice(),
        ),
    ];
    for (at, want) in rows {
        let mut votes = Vec::new(rt.alloc());
        let mut endings = Vec::new(rt.alloc());
        if at != Death::Preparing(0) {
            votes.push(Code::Done)?;
            votes.push(Code::RbIntegrity)?;
        }
        if at == Death::Told {
            endings.push(Ending::InDoubt)?;
            endings.push(Ending::RolledBack)?;
        }
        let known = match at {
            Death::Preparing(_) | Death::Prepared => LastKnown::Votes(votes),
            Death::Decided | Death::Telling(_) => LastKnown::Decided {
                decision: Decision {
                    commit: false,
                    logged: false,
                },
                votes,
            },
            Death::Told => LastKnown::Told(Done {
                commit: false,
                logged: false,
                votes,
                endings,
            }),
        };
        let died = CommitOutcome::Died { at, known };
        let text = text_of(rt.alloc(), Answer::Commit(died))?;
        assert_eq!(rt; text.as_slice(), want);
    }
    Ok(())
}

#[test]
fn an_undecided_commit_shows_its_votes(rt: HostRuntime) -> Result<(), Fail> {
    let mut votes = Vec::new(rt.alloc());
    votes.push(Code::Done)?;
    votes.push(Code::RdOnly)?;
    let text = text_of(rt.alloc(), Answer::Commit(CommitOutcome::Undecided(votes)))?;
    assert_eq!(rt;
        text.as_slice(),
        b"4 2 undecided vote:0 vote:3\n".as_slice()
    );
    Ok(())
}

#[test]
fn the_faults_of_a_run_have_their_texts(rt: HostRuntime) -> Result<(), Fail> {
    let texts = format!(in rt.alloc(); "{}, {}", RunFault::Write, RunFault::NoMemory)?;
    assert_eq!(rt; texts.as_str(), "output failed, out of memory");
    Ok(())
}
