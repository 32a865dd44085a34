//! The program's exit statuses, and what it tells of its faults.
use std::io::Read;
use std::sync::Wait;
use std::thread::Threads;
use test_support::{Failing, Refusing};
use xa_script::program;

// Whether the program shows nothing on these words and this reader, but ends with this status and
// tells this of its fault, and whether it ends so too where it can't tell it.
fn fails<H: Threads + Wait + AllocGlobal + Copy + Send + 'static, R: Read + Copy>(
    rt: &H,
    words: &[&str],
    reader: R,
    status: u8,
    told: &[u8],
) -> bool {
    let alloc = rt.alloc();
    let mut out = Vec::new(alloc);
    let mut err = Vec::new(alloc);
    let mut first = reader;
    let found = program(rt, alloc, words, &mut first, &mut out, &mut err);
    let mut silent = Refusing { writes: 0 };
    let mut second = reader;
    let again = program(rt, alloc, words, &mut second, &mut out, &mut silent);
    found == status && again == status && out.is_empty() && err.as_slice() == told
}

// The script has 18 bytes, each read gives one, and the 19th finds the end.
#[test]
fn a_failing_read_shows_nothing(rt: HostRuntime) {
    let bytes = b"key 1 a 1\n1 open 1".as_slice();
    let turns = ["turns"].as_slice();
    for reads in 0..19 {
        let reader = Failing { bytes, reads };
        assert!(rt;
            fails(&rt, turns, reader, 4, b"input failed\n"),
            "after {reads} reads"
        );
    }
    let reader = Failing { bytes, reads: 19 };
    assert!(rt; !fails(&rt, turns, reader, 4, b"input failed\n"));
}

// The transcript has 18 bytes, and each write takes three.
#[test]
fn a_failing_write_is_told(rt: HostRuntime) {
    for writes in 0..7 {
        let mut script = b"key 1 a 1\n1 open 1".as_slice();
        let mut out = Refusing { writes };
        let mut err = Vec::new(rt.alloc());
        let status = program(&rt, rt.alloc(), &["turns"], &mut script, &mut out, &mut err);
        let (want, told) = if writes < 6 {
            (4, b"output failed\n".as_slice())
        } else {
            (0, b"".as_slice())
        };
        assert_eq!(rt; status, want, "after {writes} writes");
        assert_eq!(rt; err.as_slice(), told, "after {writes} writes");
    }
}
