//! The least client of the switch. Two threads of control make ten transfers each, from manager 1 to manager 2: one
//! moves 3 of account a at a time, the other 30 of b. Manager 1 has 100 of each, and votes against what it hasn't got.
#![tactic(auto)]

use anyhow::{Context, Result, anyhow};
use xa_crew::{Client, run_clients};
use xa_desk::{Desk, Idle};
use xa_driver::Branch;
use xa_words::{Delta, Key, Xid};
use xa_work::{Change, open_all, transact};

#[derive(Drop)]
struct Payer {
    alloc: std::alloc::Global,
    account: u8,
    amount: u32,
    committed: [bool; 10],
}

// The branch at manager m of a transfer, and what is changed there. No other global transaction has this name.
fn leg(m: u32, account: u8, number: u8, amount: i64) -> Option<(Branch, Change)> {
    let xid = Xid::new(1, &[account, number], &m.to_be_bytes()).ok()?;
    let (key, delta) = (Key::new(&[account])?, Delta::new(amount)?);
    Some((Branch { m, xid }, Change { m, key, delta }))
}

impl Client for Payer {
    // For the prover, as the two laws below are: a payer promises nothing beside what each client owes.
    ghost works = { λ payer desk payer' desk'. Unit {0} };

    fn work<R: std::sync::Wait, I: Idle>(&mut self, rt: &R, desk: &mut Desk, idle: &mut I) {
        xa_desk::laws::desks_go_on();
        xa_crew::laws::idles_go_on::<I>();
        open_all(rt, desk, idle);
        let (alloc, mut log) = (self.alloc, xa_log::MemoryLog::new(self.alloc));
        for number in 0..10 {
            let pays = leg(1, self.account, number, -i64::from(self.amount));
            let is_paid = leg(2, self.account, number, i64::from(self.amount));
            let (Some((one, less)), Some((two, more))) = (pays, is_paid) else {
                return;
            };
            // Makes each change in its branch, and then commits both branches or neither, by a decision in the log.
            let outcome = transact(rt, alloc, desk, &mut log, &[one, two], &[less, more], idle);
            self.committed[usize::from(number)] = outcome.is_ok_and(|it| it.is_to_commit());
        }
    }
}

fn main(rt: HostRuntime) -> Result<()> {
    let alloc = rt.alloc();
    let (a, b) = Key::new(b"a").zip(Key::new(b"b")).context("no key")?;
    let plan = xa_switch::Plan::uniform(alloc, 2, 2, &[(a, 100), (b, 100)])?;
    let payer = |account: u8, amount: u32| Payer {
        alloc,
        account,
        amount,
        committed: [false; 10],
    };
    let payers = Vec::from_array(alloc, [payer(b'a', 3), payer(b'b', 30)])?;
    // Each payer has a thread of its own, and so has each manager, at this pace.
    let paces = vec![in alloc; xa_worker::Free; plan.managers.len()]?;
    let run = run_clients(&rt, alloc, &plan, payers, paces).map_err(|fault| anyhow!("{fault:?}"))?;
    for (name, payer) in ["a", "b"].iter().zip(&run.clients) {
        let committed = payer.client.committed.iter().filter(|it| **it).count();
        println!(rt; "{name}: {committed} transfers committed")?;
    }
    let value = |m: u32, key: &Key| run.settled.value(m, key).unwrap_or(0);
    println!(rt; "manager 1: a has {}, b has {}", value(1, &a), value(1, &b))?;
    println!(rt; "manager 2: a has {}, b has {}", value(2, &a), value(2, &b))?;
    Ok(())
}
