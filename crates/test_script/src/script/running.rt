//! What the program shows where it runs a script to its end.
use std::sync::Wait;
use std::test::Fail;
use std::thread::Threads;
use test_support::Refusing;
use xa_script::{RunFault, program, read_script, run_turns};

// Whether the program ends with status 0 on this script, writes this transcript and tells nothing.
fn shows<R: Threads + Wait + AllocGlobal + Copy + Send + 'static>(
    rt: &R,
    mut script: &[u8],
    transcript: &[u8],
) -> bool {
    let alloc = rt.alloc();
    let mut out = Vec::new(alloc);
    let mut err = Vec::new(alloc);
    let status = program(rt, alloc, &["turns"], &mut script, &mut out, &mut err);
    status == 0 && out.as_slice() == transcript && err.is_empty()
}

#[test]
fn a_script_without_a_step_shows_its_keys(rt: HostRuntime) {
    let rows: [(&[u8], &[u8]); 4] = [
        (b"", b""),
        (b"\n# nothing\n", b""),
        (b"key 1 a 5", b"value 1 a 5\n"),
        (b"key 1 z 0\nkey 1 b 2\n", b"value 1 b 2\nvalue 1 z 0\n"),
    ];
    for (script, transcript) in rows {
        assert!(rt; shows(&rt, script, transcript), "at {script:?}");
    }
}

#[test]
fn a_script_is_run_twice_and_a_failing_write_is_told(rt: HostRuntime) -> Result<(), Fail> {
    let mut text = b"key 1 a 1\n1 open 1\n".as_slice();
    let script = read_script(rt.alloc(), &mut text, false)?;
    let mut out = Vec::new(rt.alloc());
    for _ in 0..2 {
        run_turns(&rt, rt.alloc(), &script, &mut out)?;
    }
    assert_eq!(rt;
        out.as_slice(),
        b"2 1 0\nvalue 1 a 1\n2 1 0\nvalue 1 a 1\n".as_slice()
    );
    // Three bytes a write, and 18 in all.
    for writes in 0..6 {
        let run = run_turns(&rt, rt.alloc(), &script, &mut Refusing { writes });
        assert_eq!(rt; run, Err(RunFault::Write), "after {writes} writes");
    }
    assert!(rt; run_turns(&rt, rt.alloc(), &script, &mut Refusing { writes: 6 }).is_ok());
    Ok(())
}
