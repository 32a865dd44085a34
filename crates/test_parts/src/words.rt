//! The limits and the numbers of xa.h, against values from outside.
use std::cmp::Ordering;
use xa_words::{
    Call, Code, Delta, EndHow, Key, Mode, StartHow, TMASYNC, TMENDRSCAN, TMFAIL, TMJOIN,
    TMMULTIPLE, TMNOFLAGS, TMNOWAIT, TMONEPHASE, TMRESUME, TMSTARTRSCAN, TMSUCCESS, TMSUSPEND,
    TMUSEASYNC, Xid, XidFault, check_flags,
};

#[test]
fn longest_parts_come_back(rt: HostRuntime) {
    let gtrid = [b'g'; 64];
    let bqual = [b'b'; 64];
    let xid = Xid::new(1, &gtrid, &bqual).expect(&rt, "both parts have 64 bytes");
    assert_eq!(rt; xid.format(), 1);
    assert_eq!(rt; xid.gtrid(), gtrid.as_slice());
    assert_eq!(rt; xid.bqual(), bqual.as_slice());
    let tran = xid.tran();
    assert_eq!(rt; tran.format(), 1);
    assert_eq!(rt; tran.gtrid(), gtrid.as_slice());
}

#[test]
fn branches_of_one_transaction_share_its_name(rt: HostRuntime) {
    let first = Xid::new(1, b"g", b"1").expect(&rt, "a short name");
    let second = Xid::new(1, b"g", b"2").expect(&rt, "a short name");
    let other = Xid::new(1, b"g1", b"2").expect(&rt, "a short name");
    assert_ne!(rt; first, second);
    assert_eq!(rt; first.tran(), second.tran());
    assert_ne!(rt; second.tran(), other.tran());
}

#[test]
fn first_fault_is_answered(rt: HostRuntime) {
    let too_long = [b'x'; 65];
    let cases: [(i32, &[u8], &[u8], Option<XidFault>); 8] = [
        (1, b"g", b"b", None),
        (-2, b"g", b"b", None),
        (1, &too_long, b"b", Some(XidFault::GtridLength)),
        (1, b"", b"b", Some(XidFault::GtridLength)),
        (1, b"g", &too_long, Some(XidFault::BqualLength)),
        (1, b"g", b"", Some(XidFault::BqualLength)),
        (1, b"", b"", Some(XidFault::GtridLength)),
        (-1, &too_long, b"", Some(XidFault::NullFormat)),
    ];
    for (format, gtrid, bqual, fault) in cases {
        let answer = Xid::new(format, gtrid, bqual).err();
        assert_eq!(rt; answer, fault, "at format {format}");
    }
}

#[test]
fn branches_are_ordered(rt: HostRuntime) {
    let rising: [(i32, &[u8], &[u8]); 7] = [
        (-2, b"zz", b"9"),
        (1, b"b", b"1"),
        (1, b"b", b"2"),
        (1, b"a", b"10"),
        (1, b"aa", b"1"),
        (1, b"ab", b"0"),
        (2, b"a", b"0"),
    ];
    let mut before = None;
    for (format, gtrid, bqual) in rising {
        let xid = Xid::new(format, gtrid, bqual).expect(&rt, "a short name");
        assert_eq!(rt; xid.cmp(&xid), Ordering::Equal);
        assert!(rt; before < Some(xid), "at format {format}");
        before = Some(xid);
    }
}

#[test]
fn codes_have_the_numbers_of_xa_h(rt: HostRuntime) {
    let numbers = [
        (Code::Done, 0),
        (Code::RdOnly, 3),
        (Code::Retry, 4),
        (Code::HeurMix, 5),
        (Code::HeurRb, 6),
        (Code::HeurCom, 7),
        (Code::HeurHaz, 8),
        (Code::RbRollback, 100),
        (Code::RbCommFail, 101),
        (Code::RbDeadlock, 102),
        (Code::RbIntegrity, 103),
        (Code::RbOther, 104),
        (Code::RbProto, 105),
        (Code::RbTimeout, 106),
        (Code::RbTransient, 107),
        (Code::Async, -2),
        (Code::RmErr, -3),
        (Code::Nota, -4),
        (Code::Inval, -5),
        (Code::Proto, -6),
        (Code::RmFail, -7),
        (Code::DupId, -8),
        (Code::Outside, -9),
    ];
    for (code, number) in numbers {
        assert_eq!(rt; code.value(), number, "{code:?}");
    }
}

#[test]
fn flags_have_the_numbers_of_xa_h(rt: HostRuntime) {
    let numbers = [
        (TMNOFLAGS, 0),
        (TMUSEASYNC, 0x0000_0004),
        (TMASYNC, 0x8000_0000),
        (TMONEPHASE, 0x4000_0000),
        (TMFAIL, 0x2000_0000),
        (TMNOWAIT, 0x1000_0000),
        (TMRESUME, 0x0800_0000),
        (TMSUCCESS, 0x0400_0000),
        (TMSUSPEND, 0x0200_0000),
        (TMSTARTRSCAN, 0x0100_0000),
        (TMENDRSCAN, 0x0080_0000),
        (TMMULTIPLE, 0x0040_0000),
        (TMJOIN, 0x0020_0000),
    ];
    for (flag, number) in numbers {
        assert_eq!(rt; flag, number);
    }
}

#[test]
fn keys_are_short_lower_case_names(rt: HostRuntime) {
    let cases: [(&[u8], bool); 9] = [
        (b"a", true),
        (b"z9", true),
        (b"0123456789abcdef", true),
        (b"", false),
        (b"0123456789abcdefg", false),
        (b"A", false),
        (b"a b", false),
        (b"a\0", false),
        (b"{", false),
    ];
    for (name, is_key) in cases {
        let key = Key::new(name);
        assert_eq!(rt; key.as_ref().map(Key::as_bytes), is_key.then_some(name));
    }
}

#[test]
fn keys_are_ordered_by_their_bytes(rt: HostRuntime) {
    let rising: [&[u8]; 5] = [b"0", b"a", b"a0", b"aa", b"b"];
    let mut before = None;
    for name in rising {
        let key = Key::new(name);
        assert!(rt; key.is_some() && before < key);
        before = key;
    }
}

#[test]
fn changes_stay_within_the_limit(rt: HostRuntime) {
    let cases = [
        (0, true),
        (1_000_000_000_000, true),
        (1_000_000_000_001, false),
        (-1_000_000_000_000, true),
        (-1_000_000_000_001, false),
        (i64::MIN, false),
    ];
    for (amount, is_delta) in cases {
        let answer = Delta::new(amount).map(Delta::amount);
        assert_eq!(rt; answer, is_delta.then_some(amount));
    }
}

// What no flag asks for.
const PLAIN: Mode = Mode {
    asynchronous: false,
    nowait: false,
    multiple: false,
    one_phase: false,
    start_scan: false,
    end_scan: false,
    start: StartHow::Fresh,
    how: EndHow::Success,
};

#[test]
fn flags_ask_for_a_mode(rt: HostRuntime) {
    let joined = Mode {
        asynchronous: true,
        start: StartHow::Join,
        ..PLAIN
    };
    let one_phase = Mode {
        asynchronous: true,
        one_phase: true,
        ..PLAIN
    };
    let whole_scan = Mode {
        start_scan: true,
        end_scan: true,
        ..PLAIN
    };
    let any = Mode {
        multiple: true,
        nowait: true,
        ..PLAIN
    };
    let rows = [
        (Call::Start, 0x8020_0000, Ok(joined)),
        (Call::Start, 0x0820_0000, Err(Code::Inval)),
        (Call::End, 0x0400_0000, Ok(PLAIN)),
        (Call::End, 0, Err(Code::Inval)),
        (Call::Commit, 0xC000_0000, Ok(one_phase)),
        (Call::Complete, 0x1040_0000, Ok(any)),
        (Call::Recover, 0x0180_0000, Ok(whole_scan)),
        (Call::Recover, 0x8100_0000, Err(Code::Inval)),
        (Call::Prepare, 0x1000_0000, Err(Code::Inval)),
    ];
    for (call, flags, mode) in rows {
        assert_eq!(rt; check_flags(call, flags), mode, "{call:?} {flags:#x}");
    }
}

// The words that each call takes, worked out from the table of flags.
#[test]
fn calls_take_no_other_flags(rt: HostRuntime) {
    let plain: &[u32] = &[0, 0x8000_0000];
    let start: &[u32] = &[
        0,
        0x0020_0000,
        0x0800_0000,
        0x8000_0000,
        0x8020_0000,
        0x8800_0000,
    ];
    let end: &[u32] = &[
        0x0200_0000,
        0x0400_0000,
        0x2000_0000,
        0x8200_0000,
        0x8400_0000,
        0xA000_0000,
    ];
    let commit: &[u32] = &[0, 0x4000_0000, 0x8000_0000, 0xC000_0000];
    let recover: &[u32] = &[0, 0x0080_0000, 0x0100_0000, 0x0180_0000];
    let complete: &[u32] = &[0, 0x0040_0000, 0x1000_0000, 0x1040_0000];
    let rows = [
        (Call::OpenRm, plain),
        (Call::CloseRm, plain),
        (Call::Start, start),
        (Call::End, end),
        (Call::Prepare, plain),
        (Call::Commit, commit),
        (Call::Rollback, plain),
        (Call::Forget, plain),
        (Call::Recover, recover),
        (Call::Complete, complete),
    ];
    for (call, words) in rows {
        // The upper 11 bits are those of the calls' flags, and each other bit stands alone.
        for upper in 0..0x800_u32 {
            let flags = upper << 21;
            let taken = check_flags(call, flags).is_ok();
            assert_eq!(rt; taken, words.contains(&flags), "{call:?} {flags:#x}");
        }
        for bit in 0..21_u32 {
            assert!(rt; check_flags(call, 1 << bit).is_err(), "{call:?} {bit}");
        }
    }
}
