//! Calls and their flags.
ghost use Rattle.std.specs.Prelude.{◌≡◌};
ghost use Rattle.xa_words.specs.Flags.{has, bits_of, go_together, mode_of, check_flags};

use crate::code::Code;
use crate::request::{EndHow, StartHow};

/// No flag stands.
pub const TMNOFLAGS: u32 = 0x0000_0000;
/// The manager's switch: it takes asynchronous calls. No call takes this flag.
pub const TMUSEASYNC: u32 = 0x0000_0004;
/// The call is asynchronous: it answers a handle, and `xa_complete()` its code.
pub const TMASYNC: u32 = 0x8000_0000;
/// `xa_commit()`: in one phase.
pub const TMONEPHASE: u32 = 0x4000_0000;
/// `xa_end()`: the thread's part failed.
pub const TMFAIL: u32 = 0x2000_0000;
/// `xa_complete()`: it doesn't wait.
pub const TMNOWAIT: u32 = 0x1000_0000;
/// `xa_start()`: the thread goes on with the branch that it has suspended.
pub const TMRESUME: u32 = 0x0800_0000;
/// `xa_end()`: the thread's part succeeded.
pub const TMSUCCESS: u32 = 0x0400_0000;
/// `xa_end()`: the thread may resume later.
pub const TMSUSPEND: u32 = 0x0200_0000;
/// `xa_recover()`: the scan begins.
pub const TMSTARTRSCAN: u32 = 0x0100_0000;
/// `xa_recover()`: the scan ends.
pub const TMENDRSCAN: u32 = 0x0080_0000;
/// `xa_complete()`: any operation will do.
pub const TMMULTIPLE: u32 = 0x0040_0000;
/// `xa_start()`: the branch exists, and the thread joins it.
pub const TMJOIN: u32 = 0x0020_0000;

/// A call of C193, chapter 5.
#[derive(Clone, Copy, Debug, PartialEq, Eq)]
pub enum Call {
    /// `xa_open()`
    OpenRm,
    /// `xa_close()`
    CloseRm,
    /// `xa_start()`
    Start,
    /// `xa_end()`
    End,
    /// `xa_prepare()`
    Prepare,
    /// `xa_commit()`
    Commit,
    /// `xa_rollback()`
    Rollback,
    /// `xa_forget()`
    Forget,
    /// `xa_recover()`
    Recover,
    /// `xa_complete()`
    Complete,
}

/// What the flags of a call ask for. What the call doesn't use is false, `Fresh` or `Success`.
#[derive(Clone, Copy, Debug, PartialEq, Eq)]
pub struct Mode {
    /// `TMASYNC`
    pub asynchronous: bool,
    /// `TMNOWAIT`
    pub nowait: bool,
    /// `TMMULTIPLE`
    pub multiple: bool,
    /// `TMONEPHASE`
    pub one_phase: bool,
    /// `TMSTARTRSCAN`
    pub start_scan: bool,
    /// `TMENDRSCAN`
    pub end_scan: bool,
    /// `TMJOIN`, `TMRESUME`, or neither
    pub start: StartHow,
    /// `TMSUSPEND`, `TMFAIL`, or neither
    pub how: EndHow,
}

fn has(flags: u32, flag: u32) -> bool
    ensures { result ≡ has flags flag }
{
    flags & flag != 0
}

// The flags that may stand at a call.
fn bits_of(call: Call) -> u32
    ensures { result ≡ bits_of call }
{
    match call {
        Call::OpenRm | Call::CloseRm | Call::Prepare | Call::Rollback | Call::Forget => TMASYNC,
        Call::Start => TMASYNC | TMJOIN | TMRESUME,
        Call::End => TMASYNC | TMSUCCESS | TMSUSPEND | TMFAIL,
        Call::Commit => TMASYNC | TMONEPHASE,
        Call::Recover => TMSTARTRSCAN | TMENDRSCAN,
        Call::Complete => TMMULTIPLE | TMNOWAIT,
    }
}

// Whether none of the flags is at odds with another, and none is wanting.
fn go_together(call: Call, flags: u32) -> bool
    ensures { result ≡ go_together call flags }
{
    match call {
        Call::Start => !(has(flags, TMJOIN) && has(flags, TMRESUME)),
        Call::End => matches!(
            (
                has(flags, TMSUCCESS),
                has(flags, TMSUSPEND),
                has(flags, TMFAIL)
            ),
            (true, false, false) | (false, true, false) | (false, false, true)
        ),
        _ => true,
    }
}

fn mode_of(flags: u32) -> Mode
    ensures { result ≡ mode_of flags }
{
    Mode {
        asynchronous: has(flags, TMASYNC),
        nowait: has(flags, TMNOWAIT),
        multiple: has(flags, TMMULTIPLE),
        one_phase: has(flags, TMONEPHASE),
        start_scan: has(flags, TMSTARTRSCAN),
        end_scan: has(flags, TMENDRSCAN),
        start: if has(flags, TMJOIN) {
            StartHow::Join
        } else if has(flags, TMRESUME) {
            StartHow::Resume
        } else {
            StartHow::Fresh
        },
        how: if has(flags, TMSUSPEND) {
            EndHow::Suspend
        } else if has(flags, TMFAIL) {
            EndHow::Fail
        } else {
            EndHow::Success
        },
    }
}

/// What the flags of a call ask for, or `Inval`: XAER_INVAL to every flag, and every combination,
/// that isn't in this table (C193, chapter 5; the choice among its optional flags is this
/// project's own).
///
/// | call | flags that may stand |
/// |---|---|
/// | `OpenRm`, `CloseRm`, `Prepare`, `Rollback`, `Forget` | `TMASYNC` |
/// | `Start` | `TMASYNC`, and at most one of `TMJOIN` and `TMRESUME` |
/// | `End` | `TMASYNC`, and exactly one of `TMSUCCESS`, `TMSUSPEND` and `TMFAIL` |
/// | `Commit` | `TMASYNC`, `TMONEPHASE` |
/// | `Recover` | `TMSTARTRSCAN`, `TMENDRSCAN` |
/// | `Complete` | `TMMULTIPLE`, `TMNOWAIT` |
pub fn check_flags(call: Call, flags: u32) -> Result<Mode, Code>
    ensures { result ≡ check_flags call flags }
{
    let bits = bits_of(call);
    if flags | bits != bits || !go_together(call, flags) {
        return Err(Code::Inval);
    }
    Ok(mode_of(flags))
}
