//! What a line sets or declares.
ghost use Rattle.std.specs.Prelude.{◌≡◌, ◌≤◌, IfOk};
ghost use Rattle.script_grammar.specs.Settings.{before_actions, count_of, not_set, limit_of, setting_of, sync_of};
ghost use Rattle.script_grammar.specs.Settings.{logfail_of, is_kept, logunknown_of, new_key, declared_of};

use crate::fault::Reason;
use crate::keys::DeclaredKeys;
use crate::script::{Count, Declared, Script, Settings, UnknownAppend};
use crate::words::{Words, meaning_in};
use xa_base::{
    MOST_HANDLES, MOST_KEYS, MOST_MANAGERS, MOST_QUEUED, MOST_REQUESTS, MOST_THREADS, MOST_VALUE,
};

// How late the append of a log may fail, or have an unknown end.
const MOST_APPENDS: u64 = 1_000_000;

// What stands for a record that the log turns out to have, or not.
const FATES: [(&[u8], bool); 2] = [(b"kept", true), (b"lost", false)];

fn before_actions(script: &Script) -> Result<(), Reason>
    ensures { result ≡ before_actions script.now.steps }
{
    if !script.is_empty() {
        return Err(Reason::SettingAfterAction);
    }
    Ok(())
}

fn count_of(count: Count, settings: &Settings) -> Option<u32>
    ensures { result ≡ count_of count settings.now }
{
    match count {
        Count::Threads => settings.threads,
        Count::Managers => settings.managers,
        Count::Handles => settings.handles,
        Count::Queue => settings.queue,
        Count::Requests => settings.requests,
    }
}

fn not_set(count: Option<u32>) -> Result<(), Reason>
    ensures { result ≡ not_set count }
{
    if count.is_some() {
        return Err(Reason::SettingTwice);
    }
    Ok(())
}

fn limit_of(count: Count) -> u64
    ensures { result ≡ limit_of count }
{
    match count {
        Count::Threads => MOST_THREADS as u64,
        Count::Managers => MOST_MANAGERS as u64,
        Count::Handles => MOST_HANDLES as u64,
        Count::Queue => MOST_QUEUED as u64,
        Count::Requests => MOST_REQUESTS as u64,
    }
}

// The words after the name of a count.
#[tactic(auto, unfolding(crate::specs::Settings::setting_of))]
pub(crate) fn setting_of(script: &Script, count: Count, words: &mut Words) -> Result<u32, Reason>
    ensures { result ≡ setting_of script.now count words.old }
{
    before_actions(script)?;
    not_set(count_of(count, script.settings()))?;
    let number = words.number(1, limit_of(count))? as u32;
    words.end()?;
    Ok(number)
}

// The words after `sync`.
#[tactic(auto, unfolding(crate::specs::Settings::sync_of))]
pub(crate) fn sync_of(script: &Script, words: &mut Words) -> Result<u32, Reason>
    ensures { result ≡ sync_of script.now words.old }
{
    before_actions(script)?;
    let manager = words.number(1, u64::from(script.managers()))? as u32;
    words.end()?;
    Ok(manager)
}

// The words after `logfail`: the thread, and which append of its log fails.
#[tactic(auto, unfolding(crate::specs::Settings::logfail_of))]
pub(crate) fn logfail_of(script: &Script, words: &mut Words) -> Result<(u32, u32), Reason>
    ensures value { result ≡ logfail_of script.now words.old }
    ensures place { IfOk result (λ x. (1 ≤ x.0) × (x.0 ≤ 8)) }
{
    before_actions(script)?;
    let thread = words.number(1, u64::from(script.threads()))? as u32;
    let append = words.number(1, MOST_APPENDS)? as u32;
    words.end()?;
    Ok((thread, append))
}

// Whether the log turns out to have the record.
fn is_kept(word: &[u8]) -> Option<bool>
    ensures { result ≡ is_kept word.now }
{
    meaning_in(&FATES, word)
}

// The words after `logunknown`: the thread, and which append of its log has an unknown end.
#[tactic(auto, unfolding(crate::specs::Settings::logunknown_of))]
pub(crate) fn logunknown_of(
    script: &Script,
    words: &mut Words,
) -> Result<(u32, UnknownAppend), Reason>
    ensures value { result ≡ logunknown_of script.now words.old }
    ensures place { IfOk result (λ x. (1 ≤ x.0) × (x.0 ≤ 8)) }
{
    before_actions(script)?;
    let thread = words.number(1, u64::from(script.threads()))? as u32;
    let append = words.number(1, MOST_APPENDS)? as u32;
    let kept = is_kept(words.word()?).ok_or(Reason::UnknownWord)?;
    words.end()?;
    Ok((thread, UnknownAppend { append, kept }))
}

// The declaration, where its manager has no such key and room for one more.
fn new_key(keys: &DeclaredKeys, declared: Declared) -> Result<Declared, Reason>
    ensures { result ≡ new_key keys.now declared }
{
    if keys.has(declared.manager, &declared.key) {
        return Err(Reason::KeyTwice);
    }
    if keys.count(declared.manager) >= MOST_KEYS {
        return Err(Reason::TooManyKeys);
    }
    Ok(declared)
}

// The words after `key`.
#[tactic(auto, unfolding(crate::specs::Settings::declared_of))]
pub(crate) fn declared_of(script: &Script, words: &mut Words) -> Result<Declared, Reason>
    ensures { result ≡ declared_of script.now words.old }
{
    before_actions(script)?;
    let manager = words.number(1, u64::from(script.managers()))? as u32;
    let key = words.key()?;
    let value = words.number(0, MOST_VALUE)?;
    words.end()?;
    let declared = Declared {
        manager,
        key,
        value,
    };
    new_key(script.declared(), declared)
}
