//! Openings that are opened again, and what xa_recover lists there.
ghost use Rattle.std.specs.Prelude.{◌≡◌, map};
ghost use Rattle.xa_switch.specs.Settled.{IsSettled};
ghost use Rattle.xa_switch.specs.Belonging.{ComeFromOpenings, seat_of_desk, seat_of_worker};

use super::turns::Opened;
use super::*;
use test_support::{open_again, two};
use xa_calls::xa_recover;
use xa_scan::Scan;
use xa_switch::{Again, OpenFault, reopen};
use xa_words::{Delta, TMASYNC, TMENDRSCAN, TMSTARTRSCAN, TMSUCCESS};

// The plan of two threads and two managers, with room for more requests.
fn wide_plan(rt: &impl Abort, alloc: Global) -> Plan {
    Plan {
        requests: 64,
        ..plan_of(rt, alloc, 1, 2, 2)
    }
}

// The same numbers with the next number of an opening.
fn again(opening: u64) -> Again {
    Again {
        opening,
        threads: 2,
        handles: 3,
        queue: 4,
        requests: 64,
    }
}

fn takes(rt: &impl Abort, name: &[u8]) -> RmOp {
    RmOp::Add(key(rt, name), Delta::new(-1).expect(rt, "a small delta"))
}

// A branch of this transaction takes 1 of the key, and is prepared.
fn prepares(rt: &impl Abort, gtrid: &[u8], name: &[u8]) -> [Act; 4] {
    let branch = xid(rt, gtrid);
    let start = calls(1, Call::Start, Some(branch), TMNOFLAGS, 0);
    let take = natively(1, takes(rt, name), 0);
    let end = calls(1, Call::End, Some(branch), TMSUCCESS, 0);
    let prepare = calls(1, Call::Prepare, Some(branch), TMNOFLAGS, 0);
    [start, take, end, prepare]
}

// An opening that ends with two prepared branches at manager 1, whose list is `g`, `hh`, and one at work there.
fn crash<R: Wait + Abort>(rt: &R, alloc: Global) -> Settled
    ensures { IsSettled result }
{
    let mut opened = Opened::new(rt, alloc, &wide_plan(rt, alloc));
    let begins = [calls(1, Call::Start, Some(xid(rt, b"at")), TMNOFLAGS, 0)];
    opened.play(rt, 0, &[calls(1, Call::OpenRm, None, TMNOFLAGS, 0)]);
    opened.play(rt, 0, &prepares(rt, b"hh", b"b"));
    opened.play(rt, 0, &prepares(rt, b"g", b"a"));
    opened.play(rt, 0, &begins);
    opened.settle(rt, alloc)
}

// Opens it again.
fn reopened<R: Wait + Abort>(rt: &R, alloc: Global, settled: Settled) -> (Opened, Vec<Scan>)
    ensures { ComeFromOpenings (map seat_of_desk result.0.desks.items) (map seat_of_worker result.0.workers) }
{
    opened_pieces_come_from_their_opening();
    let Some((desks, workers, scans)) = open_again(rt, alloc, settled, &again(2)) else {
        panic!(rt; "it is not opened again");
    };
    (Opened { desks, workers }, scans)
}

impl Opened {
    // Thread `before + 1` recovers at manager 1, with this room: the answer, and the names of what is listed.
    fn recover<R: Wait + Abort>(
        &mut self,
        rt: &R,
        before: usize,
        scan: &mut Scan,
        xids: &mut [Xid],
        flags: u32,
    ) -> i32
        ensures desks { map seat_of_desk self.new.desks.items ≡ map seat_of_desk self.old.desks.items }
        ensures workers { map seat_of_worker self.new.workers
            ≡ map seat_of_worker self.old.workers }
    {
        assert!(rt; before < self.desks.len());
        recovers(
            rt,
            &mut self.desks[before],
            scan,
            xids,
            flags,
            &mut self.workers,
        )
    }

    // Thread `before + 1` recovers at manager 1, and is told so many, with these names in the page.
    fn lists<R: Wait + Abort>(
        &mut self,
        rt: &R,
        before: usize,
        scan: &mut Scan,
        page: &mut [Xid],
        flags: u32,
        answer: i32,
        listed: &[Xid],
    )
        ensures desks { map seat_of_desk self.new.desks.items ≡ map seat_of_desk self.old.desks.items }
        ensures workers { map seat_of_worker self.new.workers
            ≡ map seat_of_worker self.old.workers }
    {
        let answered = self.recover(rt, before, scan, page, flags);
        assert!(rt; answered == answer);
        assert!(rt; *page == *listed);
    }
}

fn recovers<R: Wait, I: Idle>(
    rt: &R,
    desk: &mut Desk,
    scan: &mut Scan,
    xids: &mut [Xid],
    flags: u32,
    idle: &mut I,
) -> i32
    ensures seat { seat_of_desk desk.new ≡ seat_of_desk desk.old }
    ensures idled { I.leads idle.old idle.new }
{
    xa_recover(rt, desk, scan, xids, 1, flags, idle)
}

// The thread must have the manager open, and a scan must be open.
fn refused<R: Wait + Abort>(rt: &R, opened: &mut Opened, scan: &mut Scan)
    ensures desks { map seat_of_desk opened.new.desks.items ≡ map seat_of_desk opened.old.desks.items }
    ensures workers { map seat_of_worker opened.new.workers
        ≡ map seat_of_worker opened.old.workers }
{
    let none = [xid(rt, b"none")];
    let (mut page, proto) = (none, Code::Proto.value());
    opened.lists(rt, 0, scan, &mut page, TMSTARTRSCAN, proto, &none);
    opened.play(rt, 0, &[calls(1, Call::OpenRm, None, TMNOFLAGS, 0)]);
    is_invalid(rt, opened, scan);
}

// No scan is open, and none is asynchronous.
fn is_invalid<R: Wait + Abort>(rt: &R, opened: &mut Opened, scan: &mut Scan)
    ensures desks { map seat_of_desk opened.new.desks.items ≡ map seat_of_desk opened.old.desks.items }
    ensures workers { map seat_of_worker opened.new.workers
        ≡ map seat_of_worker opened.old.workers }
{
    let none = [xid(rt, b"none")];
    let (mut page, inval) = (none, Code::Inval.value());
    opened.lists(rt, 0, scan, &mut page, TMNOFLAGS, inval, &none);
    opened.lists(rt, 0, scan, &mut page, TMENDRSCAN, inval, &none);
    opened.lists(rt, 0, scan, &mut page, TMASYNC | TMSTARTRSCAN, inval, &none);
}

fn one_by_one<R: Wait + Abort>(rt: &R, opened: &mut Opened, scan: &mut Scan)
    ensures desks { map seat_of_desk opened.new.desks.items ≡ map seat_of_desk opened.old.desks.items }
    ensures workers { map seat_of_worker opened.new.workers
        ≡ map seat_of_worker opened.old.workers }
{
    let (g, h) = (xid(rt, b"g"), xid(rt, b"hh"));
    let mut page = [xid(rt, b"none")];
    opened.lists(rt, 0, scan, &mut page, TMSTARTRSCAN, 1, &[g]);
    opened.lists(rt, 0, scan, &mut page, TMNOFLAGS, 1, &[h]);
    opened.lists(rt, 0, scan, &mut page, TMENDRSCAN, 0, &[h]);
    opened.lists(rt, 0, scan, &mut page, TMNOFLAGS, Code::Inval.value(), &[h]);
}

// With room for none, which begins a scan, then for more than there are, and then for as many.
fn all_at_once<R: Wait + Abort>(rt: &R, opened: &mut Opened, scan: &mut Scan)
    ensures desks { map seat_of_desk opened.new.desks.items ≡ map seat_of_desk opened.old.desks.items }
    ensures workers { map seat_of_worker opened.new.workers
        ≡ map seat_of_worker opened.old.workers }
{
    let (g, h) = (xid(rt, b"g"), xid(rt, b"hh"));
    let none = xid(rt, b"none");
    let (mut wide, mut page) = ([none, none, none], [none, none]);
    opened.lists(rt, 0, scan, &mut [], TMSTARTRSCAN, 0, &[]);
    opened.lists(rt, 0, scan, &mut wide, TMNOFLAGS, 2, &[g, h, none]);
    let whole = TMSTARTRSCAN | TMENDRSCAN;
    opened.lists(rt, 0, scan, &mut page, whole, 2, &[g, h]);
}

// Another thread has a scan of its own; a branch that ends between two of its pages isn't listed.
fn while_branches_end<R: Wait + Abort>(rt: &R, opened: &mut Opened, scan: &mut Scan)
    ensures desks { map seat_of_desk opened.new.desks.items ≡ map seat_of_desk opened.old.desks.items }
    ensures workers { map seat_of_worker opened.new.workers
        ≡ map seat_of_worker opened.old.workers }
{
    let (g, h) = (xid(rt, b"g"), xid(rt, b"hh"));
    let mut page = [xid(rt, b"none")];
    opened.play(rt, 1, &[calls(1, Call::OpenRm, None, TMNOFLAGS, 0)]);
    opened.lists(rt, 1, scan, &mut page, TMSTARTRSCAN, 1, &[g]);
    opened.play(rt, 0, &[calls(1, Call::Rollback, Some(h), TMNOFLAGS, 0)]);
    opened.lists(rt, 1, scan, &mut page, TMNOFLAGS, 0, &[g]);
    opened.play(rt, 1, &[calls(1, Call::Commit, Some(g), TMNOFLAGS, 0)]);
}

// Manager 1 has two branches left, and nothing else is.
fn are_left(rt: &impl Abort, first: &Scan, second: &Scan) {
    let left = [xid(rt, b"g"), xid(rt, b"hh")];
    assert!(rt; first.left(1) == left.as_slice());
    assert!(rt; first.left(2).is_empty() && second.left(0).is_empty());
}

// What is left by a crash is listed, and then one branch is rolled back and the other committed.
fn recovered<R: Wait + Abort>(rt: &R, alloc: Global) -> Settled
    ensures { IsSettled result }
{
    let (mut opened, scans) = reopened(rt, alloc, crash(rt, alloc));
    let (mut first, mut second) = two(scans).expect(rt, "two scans");
    are_left(rt, &first, &second);
    refused(rt, &mut opened, &mut first);
    one_by_one(rt, &mut opened, &mut first);
    all_at_once(rt, &mut opened, &mut first);
    while_branches_end(rt, &mut opened, &mut second);
    opened.settle(rt, alloc)
}

#[test]
fn what_is_left_is_listed_page_by_page(rt: HostRuntime) {
    let settled = recovered(&rt, rt.alloc());
    assert!(rt; settled.value(1, &key(&rt, b"a")) == Some(99));
    assert!(rt; settled.value(1, &key(&rt, b"b")) == Some(7));
}

// It isn't opened again so, and comes back.
fn comes_back<R: Wait + Abort>(rt: &R, alloc: Global, settled: Settled, again: &Again) -> Settled {
    let Err(refused) = reopen(rt, alloc, settled, again) else {
        panic!(rt; "it is opened");
    };
    assert!(rt; refused.why == OpenFault::BadPlan);
    refused.settled
}

#[test]
fn an_opening_is_not_opened_again_with_its_own_number(rt: HostRuntime) {
    let settled = comes_back(&rt, rt.alloc(), crash(&rt, rt.alloc()), &again(1));
    // It may be opened with another, but not with a number outside its limits.
    let none = Again {
        threads: 0,
        ..again(2)
    };
    let settled = comes_back(&rt, rt.alloc(), settled, &none);
    let opened = reopen(&rt, rt.alloc(), settled, &again(2));
    assert!(rt; opened.is_ok());
}
