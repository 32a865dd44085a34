//! The declared keys: their committed values, and what branches have added.
ghost use Rattle.std.specs.Prelude.{◌≡◌, ◌≢◌, ◌+◌, ◌<◌, ◌≤◌, ◌^◌, ◌+ℤ◌, ◌≤ℤ◌, ◌++◌, ℕ, Bool, List, [], IfOk, IfSome};
ghost use Rattle.std.specs.Prelude.{if◌then◌else◌, is_some, true, false};
ghost use Rattle.std.specs.Prelude.{option_map, map, filter, filter_map, length, nat_le, pos, vec_len, vec_capacity};
ghost use Rattle.std.specs.List.{IsDistinct, cons_option, list_any, list_all};
ghost use Rattle.std.specs.Map.{keys_of, lookup};
ghost use Rattle.std.specs.Fn.{FnReturnsAt};
ghost use Rattle.std.specs.FinMap as finmap;
ghost use Rattle.xa_words.specs.Delta.{IsDelta};
ghost use Rattle.xa_words.specs.Key.{key_eq};
ghost use Rattle.xa_words.specs.Xid.{XidName};
ghost use Rattle.xa_tables.specs.Accounts.{declared_values, is_held_by, is_held_by_other};
ghost use Rattle.xa_words.specs.Accounts.{are_accounts, are_apart};
ghost use Rattle.xa_tables.specs.Accounts.{is_broken_by, AreIndexed, IsGood, account_of, added_to, posted_by};
ghost use Rattle.xa_tables.specs.Accounts.{kept_where, key_at};
ghost use Rattle.xa_tables.specs.Held.{AreHeld, is_held, is_held_at, noted, own_sum, sum_at};
ghost use Rattle.xa_tables.specs.ManagerTables.{is_within, sum_of, value_of, has_touched, has_other_touched};
ghost use Rattle.xa_tables.specs.ManagerTables.{is_touched, is_broken, posted, sums_without, is_S3};
ghost use Rattle.xa_tables.specs.Steps.{closing_vote};

use crate::branches::Branches;
use crate::places::Places;
use crate::state::State;
use std::alloc::{AllocError, Global};
use std::marker::Model;
use xa_base::{MOST_KEYS, MOST_VALUE};
use xa_words::{Code, Delta, Key, Xid};

/// What a branch has added to a key.
#[derive(Clone, Copy)]
pub(crate) struct Hold {
    xid: Xid,
    amount: i64,
}

/// A declared key and its committed value. At most one branch at a time has touched it.
#[derive(Clone, Copy)]
pub(crate) struct Account {
    key: Key,
    value: i64,
    hold: Option<Hold>,
}

/// The declared keys, in the order in which they were declared, the places of those that branches have touched, and how
/// many additions were made.
#[derive(Drop)]
pub(crate) struct Accounts {
    accounts: Vec<Account>,
    places: Places,
    held: Vec<usize>,
    adds: u64,
}

impl Model for Accounts {
    ghost use Rattle.std.specs.Prelude.{All, length, vec_capacity, ◌≤◌};
    ghost use Rattle.xa_base.specs.declared.limits.TheConstants.{MOST_KEYS};
    ghost use Rattle.xa_tables.specs.Accounts.{Holdings, holdings_code, holdings_of, AreDistinct, IsGood, AreIndexed};
    ghost use Rattle.xa_tables.specs.Held.{AreHeld};

    ghost Value = { Holdings };

    ghost coded = { holdings_code };

    ghost view = { λ a. holdings_of a.accounts.items a.adds };

    ghost invariant = { λ a. AreDistinct a.accounts.items × All (IsGood a.adds) a.accounts.items
        × AreIndexed a.places.places a.accounts.items × AreHeld a.held.items a.accounts.items
        × (length a.accounts.items ≤ vec_capacity a.held) × (length a.accounts.items ≤ MOST_KEYS) };
}

impl Accounts {
    /// The keys with their values at the opening; no branch has touched them.
    pub(crate) fn new(alloc: Global, declared: &[(Key, u64)]) -> Result<Accounts, AllocError>
        requires { are_accounts declared.now ≡ true }
        ensures { IfOk result (λ a. (a.sums ≡ finmap.empty) × (a.values ≡ declared_values declared.now)
            × (a.adds ≡ 0)) }
    {
        let mut accounts = Vec::with_capacity(alloc, declared.len())?;
        let mut places = Places::new(alloc, declared.len())?;
        let held = Vec::with_capacity(alloc, declared.len())?;
        declare(&mut accounts, &mut places, declared);
        Ok(Accounts {
            accounts,
            places,
            held,
            adds: 0,
        })
    }

    /// The committed value of a key, and `None` where it isn't declared.
    #[tactic(auto, using(crate::proofs::PlaceLemmas::place_within, crate::proofs::PlaceLemmas::keys_there))]
    pub(crate) fn value(&self, key: &Key) -> Option<u64>
        ensures value { option_map pos result ≡ finmap.get self.now.values key.now }
        ensures bounded { IfSome result (λ v. v ≤ MOST_VALUE) }
    {
        let place = self.places.get(key)?;
        Some(committed(&self.accounts[place]))
    }

    /// Where a key stands, and `None` where it isn't declared.
    #[inline(always)]
    pub(crate) fn place_of(&self, key: &Key) -> Option<usize>
        ensures declared { is_some result ≡ is_some (finmap.get self.now.values key.now) }
        ensures within { IfSome result (λ place. place < length self.now.keys) }
        ensures placed { IfSome result (λ place. key_at self.now place ≡ key.now) }
    {
        self.places.get(key)
    }

    /// Fills `sums` with the keys that the branch has touched, in no order, each with what it has added.
    #[tactic(auto, using(crate::proofs::PlaceLemmas::held_alike))]
    pub(crate) fn sums_of(&self, xid: &Xid, sums: &mut Vec<(Key, i64)>)
        requires { MOST_KEYS ≤ vec_capacity sums.old }
        ensures each { (k : List ℕ) → lookup (key_eq k) sums.new.items ≡ finmap.get self.now.sums (xid.now, k) }
        ensures once { IsDistinct key_eq (keys_of sums.new.items) }
        ensures room { vec_capacity sums.new ≡ vec_capacity sums.old }
    {
        sums.clear();
        put_sums(&self.accounts, &self.held, xid, sums);
    }

    /// Whether the branch has touched a key.
    #[tactic(auto, using(crate::proofs::PlaceLemmas::touching))]
    pub(crate) fn has_touched(&self, xid: &Xid) -> bool
        ensures { result ≡ has_touched self.now.sums xid.now }
    {
        any_at(&self.accounts, &self.held, |account| {
            is_held_by(account, xid)
        })
    }

    /// Whether another branch than this has touched the key at a place.
    #[tactic(auto, using(crate::proofs::PlaceLemmas::keys_there))]
    #[inline(always)]
    pub(crate) fn has_other_touched(&self, xid: &Xid, place: usize) -> bool
        requires { place < length self.now.keys }
        ensures { result ≡ has_other_touched self.now.sums xid.now (key_at self.now place) }
    {
        is_held_by_other(&self.accounts[place], xid)
    }

    /// Whether a branch has touched the key at a place.
    #[tactic(auto, using(crate::proofs::PlaceLemmas::keys_there))]
    pub(crate) fn is_touched(&self, place: usize) -> bool
        requires { place < length self.now.keys }
        ensures { result ≡ is_touched self.now.sums (key_at self.now place) }
    {
        self.accounts[place].hold.is_some()
    }

    /// Whether the value of the key at a place stays within the limits with this added to it.
    #[tactic(auto, using(crate::proofs::PlaceLemmas::keys_there))]
    pub(crate) fn fits(&self, place: usize, delta: Delta) -> bool
        requires { place < length self.now.keys }
        ensures { result ≡ is_within (value_of self.now.values (key_at self.now place) +ℤ delta) }
    {
        stays_within(&self.accounts[place], delta)
    }

    /// Whether the branch would take a value out of the limits.
    #[tactic(auto, using(crate::proofs::PlaceLemmas::held_alike))]
    pub(crate) fn is_broken(&self, xid: &Xid) -> bool
        ensures { result ≡ is_broken self.now.values self.now.sums xid.now }
    {
        any_at(&self.accounts, &self.held, |account| {
            is_broken_by(account, xid)
        })
    }

    /// The code with which its vote closes the branch, and `None` where it becomes prepared.
    #[inline(always)]
    pub(crate) fn closing_vote(&self, xid: &Xid) -> Option<Code>
        ensures { result ≡ closing_vote self.now.values self.now.sums xid.now }
    {
        if !self.has_touched(xid) {
            return Some(Code::RdOnly);
        }
        if self.is_broken(xid) {
            return Some(Code::RbIntegrity);
        }
        None
    }

    /// Adds to the branch's sum at the key at a place.
    #[tactic(auto, using(crate::proofs::PlaceLemmas::keys_there))]
    #[inline(always)]
    pub(crate) fn add(&mut self, xid: &Xid, place: usize, delta: Delta)
        requires within { place < length self.old.keys }
        requires alone { has_other_touched self.old.sums xid.now (key_at self.old place) ≡ false }
        requires few { self.old.adds < 2 ^ 20 }
        ensures sums { self.new.sums ≡ finmap.insert self.old.sums (xid.now, key_at self.old place)
            (sum_of self.old.sums xid.now (key_at self.old place) +ℤ delta) }
        ensures values { self.new.values ≡ self.old.values }
        ensures adds { self.new.adds ≡ self.old.adds + 1 }
        ensures others { (y : XidName) → y ≢ xid.now → is_broken self.new.values self.new.sums y
            ≡ is_broken self.old.values self.old.sums y }
    {
        let account = &self.accounts[place];
        note(&mut self.held, account, place);
        self.accounts[place] = with_added(account, self.adds, xid, delta);
        self.adds += 1;
    }

    /// What a prepared branch has added to the key at a place, as a store has it: all sums are so from the opening on.
    #[tactic(auto, using(crate::proofs::PlaceLemmas::keys_there))]
    pub(crate) fn hold(&mut self, xid: &Xid, place: usize, delta: Delta)
        requires within { place < length self.old.keys }
        requires free { is_touched self.old.sums (key_at self.old place) ≡ false }
        requires few { self.old.adds ≤ 1 }
        ensures sums { self.new.sums ≡ finmap.insert self.old.sums (xid.now, key_at self.old place) delta }
        ensures values { self.new.values ≡ self.old.values }
        ensures adds { self.new.adds ≡ 1 }
    {
        let account = &self.accounts[place];
        note(&mut self.held, account, place);
        self.accounts[place] = with_added(account, self.adds, xid, delta);
        self.adds = 1;
    }

    /// Adds the branch's sums to the values; the branch has touched no key any more.
    #[tactic(auto, using(crate::proofs::PlaceLemmas::held_alike))]
    pub(crate) fn post(&mut self, xid: &Xid)
        requires { is_broken self.old.values self.old.sums xid.now ≡ false }
        ensures values { self.new.values ≡ posted self.old.values self.old.sums xid.now }
        ensures sums { self.new.sums ≡ sums_without self.old.sums xid.now }
        ensures adds { self.new.adds ≡ self.old.adds }
        ensures others { (y : XidName) → y ≢ xid.now → is_broken self.new.values self.new.sums y
            ≡ is_broken self.old.values self.old.sums y }
    {
        post_all(&mut self.accounts, &self.held, xid);
        keep_held(&mut self.held, &self.accounts);
    }

    /// Leaves the values as they are; the branch has touched no key any more.
    #[tactic(auto, using(crate::proofs::PlaceLemmas::held_alike))]
    pub(crate) fn forget(&mut self, xid: &Xid)
        ensures sums { self.new.sums ≡ sums_without self.old.sums xid.now }
        ensures values { self.new.values ≡ self.old.values }
        ensures adds { self.new.adds ≡ self.old.adds }
        ensures others { (y : XidName) → y ≢ xid.now → is_broken self.new.values self.new.sums y
            ≡ is_broken self.old.values self.old.sums y }
    {
        let_go(&mut self.accounts, &self.held, |own| *own != *xid);
        keep_held(&mut self.held, &self.accounts);
    }

    /// Adds the branch's sums to the values, or doesn't; the branch has touched no key any more.
    #[inline(always)]
    pub(crate) fn settle(&mut self, xid: &Xid, commits: bool)
        requires { commits ≡ true → is_broken self.old.values self.old.sums xid.now ≡ false }
        ensures values { self.new.values
            ≡ (if commits then posted self.old.values self.old.sums xid.now else self.old.values) }
        ensures sums { self.new.sums ≡ sums_without self.old.sums xid.now }
        ensures adds { self.new.adds ≡ self.old.adds }
        ensures others { (y : XidName) → y ≢ xid.now → is_broken self.new.values self.new.sums y
            ≡ is_broken self.old.values self.old.sums y }
    {
        if commits {
            self.post(xid);
        } else {
            self.forget(xid);
        }
    }

    /// Leaves the values as they are; only prepared branches have touched a key any more.
    #[tactic(auto, using(crate::proofs::PlaceLemmas::held_alike))]
    pub(crate) fn retain_prepared(&mut self, branches: &Branches)
        requires { (x : XidName) → is_S3 (finmap.get branches.now.states x) ≡ true
            → is_broken self.old.values self.old.sums x ≡ false }
        ensures sums { self.new.sums ≡ finmap.retain_keys self.old.sums
            (λ p. is_S3 (finmap.get branches.now.states p.0)) }
        ensures values { self.new.values ≡ self.old.values }
        ensures adds { self.new.adds ≡ 1 }
    {
        self.adds = 1;
        let_go(&mut self.accounts, &self.held, |own| {
            branches.get(own) == Some(State::Prepared)
        });
        keep_held(&mut self.held, &self.accounts);
    }
}

/// Whether these can be declared: at most 256 keys, none twice, each value within the limit.
pub(crate) fn are_accounts(declared: &[(Key, u64)]) -> bool
    ensures { result ≡ are_accounts declared.now }
{
    declared.len() <= MOST_KEYS && are_within(declared) && are_apart(declared)
}

fn are_within(declared: &[(Key, u64)]) -> bool
    ensures { result ≡ list_all (λ d. nat_le d.1 MOST_VALUE) declared.now }
{
    declared.iter().all(|(_, value)| *value <= MOST_VALUE)
}

// Compares each two keys, and so needs no memory; an opening does it once, over at most 256 keys.
fn are_apart(declared: &[(Key, u64)]) -> bool
    ensures { result ≡ are_apart declared.now }
{
    let mut rest = declared;
    while let Some(((key, _), others)) = rest.split_first() {
        if has_key(others, key) {
            return false;
        }
        rest = others;
    }
    true
}

// Whether the key is among these.
fn has_key(declared: &[(Key, u64)], key: &Key) -> bool
    ensures { result ≡ list_any (λ d. key_eq d.0 key.now) declared.now }
{
    declared.iter().any(|(own, _)| own == key)
}

// Puts the keys there with their values, and the place of each.
#[tactic(auto, using(crate::proofs::PlaceLemmas::limit_declared))]
fn declare(accounts: &mut Vec<Account>, places: &mut Places, declared: &[(Key, u64)])
    requires declared { are_accounts declared.now ≡ true }
    requires none { accounts.old.items ≡ [] }
    requires room { length declared.now ≤ vec_capacity accounts.old }
    requires nowhere { places.old.places ≡ finmap.empty }
    requires spare { length declared.now ≤ places.old.spare }
    ensures accounts { accounts.new.items ≡ map account_of declared.now }
    ensures places { AreIndexed places.new.places accounts.new.items }
{
    for (place, (key, value)) in declared.iter().enumerate() {
        accounts.push_reserved(Account {
            key: *key,
            value: signed(*value),
            hold: None,
        });
        places.put(*key, place);
    }
}

// A declared value as an account keeps it.
fn signed(value: u64) -> i64
    requires { value ≤ MOST_VALUE }
    ensures { result ≡ pos value }
{
    value as i64
}

// The committed value, which is never below 0.
fn committed(account: &Account) -> u64
    requires { pos 0 ≤ℤ account.now.value }
    ensures { pos result ≡ account.now.value }
{
    account.value as u64
}

// Notes the place of an account that nobody has touched.
fn note(held: &mut Vec<usize>, account: &Account, place: usize)
    requires { is_held account.now ≡ false → vec_len held.old < vec_capacity held.old }
    ensures places { held.new.items ≡ noted held.old.items (is_held account.now) place }
    ensures room { vec_capacity held.new ≡ vec_capacity held.old }
{
    if account.hold.is_none() {
        held.push_reserved(place);
    }
}

// Only the places of accounts that a branch has touched stay.
fn keep_held(held: &mut Vec<usize>, accounts: &[Account])
    ensures places { held.new.items ≡ filter (is_held_at accounts.now) held.old.items }
    ensures room { vec_capacity held.new ≡ vec_capacity held.old }
{
    held.retain(|place| is_held_at(accounts, *place));
}

// Whether a branch has touched the key at this place.
#[tactic(auto, using(crate::proofs::PlaceLemmas::read_at))]
fn is_held_at(accounts: &[Account], place: usize) -> bool
    ensures { result ≡ is_held_at accounts.now place }
{
    if accounts.len() <= place {
        return false;
    }
    accounts[place].hold.is_some()
}

// Whether one of these accounts passes a test, which only accounts pass that a branch has touched.
#[tactic(auto, using(crate::proofs::PlaceLemmas::held_within))]
fn any_at<F: Fn(&Account) -> bool>(accounts: &[Account], held: &[usize], test: F) -> bool
    requires callable { F.IsAlwaysCallable test }
    requires held { AreHeld held.now accounts.now }
    ensures { (passes : _ → Bool) → ((a : _) (b : Bool) → FnReturnsAt F.Fn test a b → b ≡ passes a)
        → ((a : _) → passes a ≡ true → is_held a ≡ true) → result ≡ list_any passes accounts.now }
{
    for place in held {
        if test(&accounts[*place]) {
            return true;
        }
    }
    false
}

// Puts there what the branch has added to the keys at these places.
#[tactic(auto, using(crate::proofs::PlaceLemmas::held_within))]
fn put_sums(accounts: &[Account], held: &[usize], xid: &Xid, sums: &mut Vec<(Key, i64)>)
    requires held { AreHeld held.now accounts.now }
    requires empty { sums.old.items ≡ [] }
    requires room { length held.now ≤ vec_capacity sums.old }
    ensures sums { sums.new.items ≡ filter_map (sum_at xid.now accounts.now) held.now }
    ensures room { vec_capacity sums.new ≡ vec_capacity sums.old }
{
    for place in held {
        put_own(&accounts[*place], xid, sums);
    }
}

// Puts there what the branch has added to this key, if it has touched it.
fn put_own(account: &Account, xid: &Xid, sums: &mut Vec<(Key, i64)>)
    requires { vec_len sums.old < vec_capacity sums.old }
    ensures sums { sums.new.items ≡ sums.old.items ++ cons_option (own_sum xid.now account.now) [] }
    ensures len { vec_len sums.new ≤ vec_len sums.old + 1 }
    ensures room { vec_capacity sums.new ≡ vec_capacity sums.old }
{
    if let Some(hold) = &account.hold {
        if hold.xid == *xid {
            sums.push_reserved((account.key, hold.amount));
        }
    }
}

// Whether the branch has touched this key.
fn is_held_by(account: &Account, xid: &Xid) -> bool
    ensures { result ≡ is_held_by account.now xid.now }
{
    match &account.hold {
        Some(hold) => hold.xid == *xid,
        None => false,
    }
}

// Whether another branch has touched this key.
fn is_held_by_other(account: &Account, xid: &Xid) -> bool
    ensures { result ≡ is_held_by_other account.now xid.now }
{
    match &account.hold {
        Some(hold) => hold.xid != *xid,
        None => false,
    }
}

// Whether the branch would take this value out of the limits.
fn is_broken_by(account: &Account, xid: &Xid) -> bool
    ensures { result ≡ is_broken_by account.now xid.now }
{
    match &account.hold {
        Some(hold) => hold.xid == *xid && !is_within_with(account.value, hold.amount),
        None => false,
    }
}

// Whether the value stays within the limits with this added to it.
fn stays_within(account: &Account, delta: Delta) -> bool
    ensures { result ≡ is_within (account.now.value +ℤ delta) }
{
    is_within_with(account.value, delta.amount())
}

fn is_within_with(value: i64, amount: i64) -> bool
    ensures { result ≡ is_within (value +ℤ amount) }
{
    match value.checked_add(amount) {
        Some(total) => 0 <= total && total <= MOST_VALUE as i64,
        None => false,
    }
}

// The account once the branch, which alone has touched it, has added this.
#[inline(always)]
fn with_added(account: &Account, adds: u64, xid: &Xid, delta: Delta) -> Account
    requires good { IsGood adds account.now }
    requires few { adds < 2 ^ 20 }
    ensures added { result ≡ added_to account.now xid.now delta }
    ensures valid { IsDelta delta }
{
    let before = match account.hold {
        Some(hold) => hold.amount,
        None => 0,
    };
    Account {
        key: account.key,
        value: account.value,
        hold: Some(Hold {
            xid: *xid,
            amount: before + delta.amount(),
        }),
    }
}

// Adds to the values what the branch holds, and lets go of it.
#[tactic(auto, using(crate::proofs::PlaceLemmas::walking))]
fn post_all(accounts: &mut [Account], held: &[usize], xid: &Xid)
    requires held { AreHeld held.now accounts.old }
    requires whole { list_any (λ a. is_broken_by a xid.now) accounts.old ≡ false }
    ensures { accounts.new ≡ map (posted_by xid.now) accounts.old }
{
    for place in held {
        post_account(&mut accounts[*place], xid);
    }
}

fn post_account(account: &mut Account, xid: &Xid)
    requires { is_broken_by account.old xid.now ≡ false }
    ensures { account.new ≡ posted_by xid.now account.old }
{
    if let Some(hold) = &account.hold {
        if hold.xid == *xid {
            account.value += hold.amount;
            account.hold = None;
        }
    }
}

// Lets go of what is held by branches that aren't to be kept.
#[tactic(auto, using(crate::proofs::PlaceLemmas::held_within))]
fn let_go<F: Fn(&Xid) -> bool>(accounts: &mut [Account], held: &[usize], keeps: F)
    requires callable { F.IsAlwaysCallable keeps }
    requires held { AreHeld held.now accounts.old }
    ensures { (keep : XidName → Bool) → ((x : XidName) (b : Bool) → FnReturnsAt F.Fn keeps x b → b ≡ keep x)
        → accounts.new ≡ map (kept_where keep) accounts.old }
{
    for place in held {
        let_go_of(&mut accounts[*place], &keeps);
    }
}

fn let_go_of<F: Fn(&Xid) -> bool>(account: &mut Account, keeps: &F)
    requires { F.IsAlwaysCallable keeps.now }
    ensures { (keep : XidName → Bool) → ((x : XidName) (b : Bool) → FnReturnsAt F.Fn keeps.now x b → b ≡ keep x)
        → account.new ≡ kept_where keep account.old }
{
    if let Some(hold) = &account.hold {
        if !keeps(&hold.xid) {
            account.hold = None;
        }
    }
}
