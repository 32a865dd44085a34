//! The days of the program.
ghost use Rattle.std.specs.Prelude.{◌≡◌, ◌^◌, ◌<◌, All, IfOk, OnOk, length, map};
ghost use Rattle.xa_log_file.specs.declared.condition.Condition.TheVariants.{Ready};
ghost use Rattle.xa_log_file.specs.Memory.{shut};

use crate::clerk::Clerk;
use crate::fault::Fault;
use crate::files::{logs_of, new_day, open_folder};
use crate::lines::{Event, add_event, write_lines};
use crate::listing::tell_records;
use crate::numbers::{STORES, TELLERS, first_of};
use std::alloc::{AllocError, Global};
use std::io::Write;
use std::sync::Wait;
use std::thread::Threads;
use xa_crew::{Attended, CrewFault, Run, run_clients};
use xa_log::DecisionLog;
use xa_log_file::{Condition, Device, DiskLog, FileLog, LogFolder};
use xa_switch::{ManagerPlan, Plan};
use xa_words::{Key, Tran};
use xa_worker::Free;

// What an account has in the morning.
const START: u64 = 1_000_000;

// The requests of a teller to a store on a day, at most: one that opens it and six for each transfer.
const REQUESTS: u32 = 512;

// The account of the teller at this place, of which each store has one.
fn account_of(place: u32) -> Key {
    let names: [&[u8]; 4] = [b"till1", b"till2", b"till3", b"till4"];
    let Some(account) = Key::new(names[place as usize % 4]) else {
        unreachable!()
    };
    account
}

fn store_plan(alloc: Global) -> Result<ManagerPlan, AllocError> {
    let mut accounts = Vec::new(alloc);
    for place in 0..TELLERS {
        accounts.push((account_of(place), START))?;
    }
    Ok(ManagerPlan {
        use_async: true,
        accounts,
    })
}

// The opening of a day's stores.
fn plan_of(alloc: Global, day: u32) -> Result<Plan, AllocError>
    ensures { IfOk result (λ plan. plan.threads ≡ 4) }
{
    let mut managers = Vec::new(alloc);
    for _ in 0..STORES {
        managers.push(store_plan(alloc)?)?;
    }
    Ok(Plan {
        opening: u64::from(day) + 1,
        threads: TELLERS,
        handles: 6,
        queue: 8,
        requests: REQUESTS,
        managers,
    })
}

// A teller with each of the logs.
fn clerks_of<L: DecisionLog + Drop, W: Write + Copy + Drop>(
    alloc: Global,
    logs: Vec<L>,
    out: W,
    day: u32,
) -> Result<Vec<Clerk<L, W>>, AllocError>
    requires { day < 2 ^ 26 }
    ensures { IfOk result (λ clerks. length clerks.items ≡ length logs.items) }
{
    let mut clerks = Vec::new(alloc);
    let mut place: u32 = 0;
    for log in logs {
        let account = account_of(place);
        clerks.push(Clerk::new(alloc, log, out, first_of(day), account)?)?;
        place = place.wrapping_add(1);
    }
    Ok(clerks)
}

// Whether the log takes records; if not, why.
fn takes_records<D: Device>(log: &FileLog<D>, teller: u32) -> Result<(), Fault>
    ensures { OnOk result (log.now.condition ≡ Ready) }
{
    match log.condition() {
        Condition::Ready => Ok(()),
        Condition::Halted => Err(Fault::Halted(teller)),
        Condition::Lost => Err(Fault::Undecided(teller)),
    }
}

// Forgets what the log still has at the end of a day, and says so before. A log that takes no more records ends the
// program instead.
fn forget_all<D: Device, W: Write>(
    alloc: Global,
    out: &mut W,
    teller: u32,
    log: &mut FileLog<D>,
    recorded: &[Tran],
) -> Result<(), Fault>
    ensures ready { OnOk result (log.new.condition ≡ Ready) }
{
    takes_records(log, teller)?;
    let mut lines = String::new(alloc);
    for tran in recorded {
        add_event(alloc, &mut lines, Event::Forgotten, teller, tran)?;
    }
    write_lines(out, &lines)?;
    log.keep_only(&[]);
    Ok(())
}

// The log of a teller whose day is over, without the records of the day: its stores are gone.
fn close_day<D: Device + Drop, W: Write + Drop>(
    alloc: Global,
    out: &mut W,
    teller: u32,
    clerk: Clerk<FileLog<D>, W>,
) -> Result<FileLog<D>, Fault>
    ensures ready { IfOk result (λ log. log.condition ≡ Ready) }
{
    let (mut log, recorded, fault) = clerk.into_parts();
    match fault {
        Some(Fault::Unrecorded) => {
            takes_records(&log, teller)?;
            return Err(Fault::Full(teller));
        }
        Some(fault) => return Err(fault),
        None => {}
    }
    forget_all(alloc, out, teller, &mut log, &recorded)?;
    Ok(log)
}

// The logs as the day left them. Each takes records: where one doesn't, the program ends.
fn close<D: Device + Drop, W: Write + Copy + Drop>(
    alloc: Global,
    mut out: W,
    clients: Vec<Attended<Clerk<FileLog<D>, W>>>,
) -> Result<Vec<FileLog<D>>, Fault>
    ensures each { IfOk result (λ logs. length logs.items ≡ length clients.items) }
    ensures ready { IfOk result (λ logs. All (λ log. log.condition ≡ Ready) logs.items) }
{
    let mut logs = Vec::new(alloc);
    let mut teller: u32 = 0;
    for attended in clients {
        teller = teller.wrapping_add(1);
        logs.push(close_day(alloc, &mut out, teller, attended.client)?)?;
    }
    Ok(logs)
}

// A day: each teller in a thread of its own, and each store. It gives the four logs back, which take records.
fn run_day<
    R: Threads + Wait + Copy + Send + 'static,
    D: Device + Drop + Send + 'static,
    W: Write + Copy + Drop + Send + 'static,
>(rt: &R, alloc: Global, out: W, day: u32, logs: Vec<FileLog<D>>) -> Result<Vec<FileLog<D>>, Fault>
    requires day { day < 2 ^ 26 }
    requires logs { length logs.items ≡ 4 }
    ensures each { IfOk result (λ logs. length logs.items ≡ 4) }
    ensures ready { IfOk result (λ logs. All (λ log. log.condition ≡ Ready) logs.items) }
{
    let plan = plan_of(alloc, day)?;
    let clerks = clerks_of(alloc, logs, out, day)?;
    let paces = vec![in alloc; Free; plan.managers.len()]?;
    match run_clients(rt, alloc, &plan, clerks, paces) {
        Ok(
            Run {
                clients,
                settled: _,
            },
        ) => close(alloc, out, clients),
        Err(CrewFault::BadPlan) => Err(Fault::Stores),
        Err(CrewFault::NoMemory | CrewFault::Unsettled(_)) => Err(Fault::NoMemory),
    }
}

// The log of each teller, after what it had is told and forgotten.
fn open_logs<W: Write>(
    rt: &HostRuntime,
    folder: &LogFolder,
    out: &mut W,
) -> Result<Vec<DiskLog>, Fault>
    ensures { IfOk result (λ logs. length logs.items ≡ 4) }
{
    let alloc = rt.alloc();
    let mut told = Vec::new(alloc);
    let mut teller: u32 = 0;
    for mut log in logs_of(rt, folder)? {
        teller = teller.wrapping_add(1);
        tell_records(alloc, out, teller, &log)?;
        log.keep_only(&[]);
        told.push(log)?;
    }
    Ok(told)
}

// Has the disk forget what the teller's log has forgotten, so that no later run finds it.
fn close_log<D: Device>(log: &mut FileLog<D>, teller: u32) -> Result<(), Fault>
    ensures { OnOk result (log.new.table.slots.items ≡ map shut log.old.table.slots.items) }
{
    takes_records(log, teller)?;
    if !log.shut_forgotten() {
        return Err(Fault::Halted(teller));
    }
    Ok(())
}

// Has the disk forget what the logs have forgotten.
fn close_logs<D: Device + Drop>(logs: Vec<FileLog<D>>) -> Result<(), Fault> {
    let mut teller: u32 = 0;
    for mut log in logs {
        teller = teller.wrapping_add(1);
        close_log(&mut log, teller)?;
    }
    Ok(())
}

/// Opens the folder, and keeps so many days; without a number, for ever. After the last the logs have no record.
pub fn keep_the_days<H: Threads + Wait + Copy + Send + 'static>(
    files: &HostRuntime,
    rt: &H,
    path: &str,
    days: Option<u32>,
) -> Result<(), Fault> {
    let alloc = files.alloc();
    let mut out = files.stdout();
    let folder = open_folder(files, path)?;
    let mut logs = open_logs(files, &folder, &mut out)?;
    let mut kept: u32 = 0;
    for _ in rt.forever() {
        if days == Some(kept) {
            return close_logs(logs);
        }
        let day = new_day(files, &folder)?;
        logs = run_day(rt, alloc, out, day, logs)?;
        kept = kept.wrapping_add(1);
    }
    unreachable!()
}
