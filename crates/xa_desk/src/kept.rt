//! Which of the kept operations are asked for, and which of these have completed.
ghost use Rattle.std.specs.Prelude.{◌≡◌, ℕ, IfSome, IfNone, IsTrue, true, false};
ghost use Rattle.xa_desk.specs.DeskViews.{IsHandle, IsLeast, keeps_at, ready_at};
ghost use Rattle.xa_desk.specs.Looks.{TakesKept};

use crate::book::Book;
use xa_words::Code;

// Whether an operation of the manager, of any for 0, is kept under the number.
#[inline(always)]
fn is_kept(book: &Book, manager: u32, number: u32) -> bool
    ensures { result ≡ keeps_at book.now manager number }
{
    match book.kept_at(number) {
        Some(operation) => operation.is_of(manager),
        None => false,
    }
}

// The same, and its completion was drained.
#[inline(always)]
fn is_ready(book: &Book, manager: u32, number: u32) -> bool
    ensures { result ≡ ready_at book.now manager number }
{
    match book.kept_at(number) {
        Some(operation) => operation.is_of(manager) && book.is_drained(operation),
        None => false,
    }
}

/// Whether an operation of the manager, of any for 0, is kept.
#[tactic(auto, using(std::proofs::lemmas::Bool::cases_lt))]
#[inline(always)]
pub(crate) fn keeps_any(book: &Book, manager: u32) -> bool
    ensures some { IsTrue result → (k : ℕ) × (keeps_at book.now manager k ≡ true) }
    ensures none { result ≡ false → (k : ℕ) → keeps_at book.now manager k ≡ false }
{
    if manager == 0 {
        return book.keeps();
    }
    let end = book.handles() + 1;
    for number in 0..end {
        if is_kept(book, manager, number) {
            return true;
        }
    }
    false
}

/// The least number under which a drained operation of the manager, of any for 0, is kept.
#[tactic(auto, using(std::proofs::lemmas::Bool::cases_lt))]
#[inline(always)]
pub(crate) fn least_ready(book: &Book, manager: u32) -> Option<u32>
    ensures found { IfSome result (IsLeast (ready_at book.now manager)) }
    ensures absent { IfNone result ((k : ℕ) → ready_at book.now manager k ≡ false) }
{
    if manager == 0 {
        return book.first_ready();
    }
    let end = book.handles() + 1;
    for number in 0..end {
        if is_ready(book, manager, number) {
            return Some(number);
        }
    }
    None
}

/// Collects the operation that is kept under the number, and frees the number.
#[inline(always)]
pub(crate) fn collect_kept(book: &mut Book, number: u32) -> Code
    requires { ready_at book.old 0 number ≡ true }
    ensures taken { TakesKept book.old book.new number result }
    ensures handle { IsHandle number }
{
    let Some(operation) = book.release(number) else {
        unreachable!()
    };
    let Some(code) = book.collect(operation) else {
        unreachable!()
    };
    code
}
