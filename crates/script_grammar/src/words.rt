//! The words of a line, taken from left to right, and what each stands for.
ghost use Rattle.std.specs.Prelude.{◌≡◌, ◌<◌, ◌≤◌, ◌∷◌, [], length, take, drop, true, false, Ok, Err, IfOk};
ghost use Rattle.std.specs.Prelude.{MatchOption, MatchResult, ◌==◌, IfSome};
ghost use Rattle.script_grammar.specs.Text.{is_space, starts_blank, words_of, IsPlain, IsWord, dot};
ghost use Rattle.script_grammar.specs.Fields.{TakesWords, word_at, end_of, number_at, key_at, xid_at, tran_at};
ghost use Rattle.script_grammar.specs.Fields.{delta_at, flags_onto, all_digits, number_of_word, number_within};
ghost use Rattle.script_grammar.specs.Fields.{is_name_byte, is_name, xid_of_word, tran_named, signed_number_of};
ghost use Rattle.script_grammar.specs.Fields.{delta_in, flag_of};
ghost use Rattle.script_grammar.specs.Grammar.{are_comment};
ghost use Rattle.std.specs.List.{list_all, position_or_len};
ghost use Rattle.std.specs.Map.{lookup};
ghost use Rattle.std.specs.Str.{bytes_eq};

use crate::fault::Reason;
use crate::name::{Gtrid, Name};
use memchr::memchr;
use std::marker::Model;
use xa_words::{
    Delta, Key, TMASYNC, TMENDRSCAN, TMFAIL, TMJOIN, TMMULTIPLE, TMNOWAIT, TMONEPHASE, TMRESUME,
    TMSTARTRSCAN, TMSUCCESS, TMSUSPEND,
};

// What is left of a line, whose bytes a script may have. A clause sees its words.
#[derive(Drop)]
pub(crate) struct Words<'a> {
    rest: &'a [u8],
}

impl<'a> Model for Words<'a> {
    ghost use Rattle.std.specs.Prelude.{ℕ, List};
    ghost use Rattle.script_grammar.specs.Text.{words_of, IsPlain};

    ghost Value = { List (List ℕ) };

    ghost view = { λ w. words_of w.rest.now };

    ghost invariant = { λ w. IsPlain w.rest.now };
}

impl<'a> Words<'a> {
    pub(crate) fn new(line: &'a [u8]) -> Words<'a>
        requires { IsPlain line.now }
        ensures { result ≡ words_of line.now }
    {
        Words { rest: line }
    }

    // Whether they are those of a comment. The end of its first word isn't looked for.
    #[tactic(auto, using(crate::proofs::Lines::are_comment_words))]
    pub(crate) fn are_comment(&self) -> bool
        ensures { result ≡ are_comment self.now }
    {
        without_spaces(self.rest).starts_with(b"#")
    }

    pub(crate) fn next(&mut self) -> Option<&'a [u8]>
        ensures { MatchOption result ((self.old ≡ []) × (self.new ≡ []))
            (λ w. self.old ≡ w.now ∷ self.new) }
    {
        let line = without_spaces(self.rest);
        if line.is_empty() {
            return None;
        }
        let (word, rest) = line.split_at(word_len(line));
        self.rest = rest;
        Some(word)
    }

    // The next word, where one has to come.
    pub(crate) fn word(&mut self) -> Result<&'a [u8], Reason>
        ensures { MatchResult result (λ w. word_at self.old ≡ Ok (w.now, self.new))
            (λ why. word_at self.old ≡ Err why) }
    {
        self.next().ok_or(Reason::MissingWord)
    }

    // Nothing, where no word may come.
    pub(crate) fn end(&mut self) -> Result<(), Reason>
        ensures { result ≡ end_of self.old }
    {
        match self.next() {
            Some(_) => Err(Reason::ExtraWord),
            None => Ok(()),
        }
    }

    #[tactic(auto, unfolding(crate::specs::Fields::number_at))]
    pub(crate) fn number(&mut self, low: u64, high: u64) -> Result<u64, Reason>
        ensures takes { TakesWords result self.new (number_at low high self.old) }
        ensures at_least { IfOk result (λ n. low ≤ n) }
        ensures at_most { IfOk result (λ n. n ≤ high) }
    {
        number_in(low, high, self.word()?)
    }

    #[tactic(auto, unfolding(crate::specs::Fields::key_at))]
    pub(crate) fn key(&mut self) -> Result<Key, Reason>
        ensures { TakesWords result self.new (key_at self.old) }
    {
        Key::new(self.word()?).ok_or(Reason::BadKey)
    }

    #[tactic(auto, unfolding(crate::specs::Fields::xid_at))]
    pub(crate) fn xid(&mut self) -> Result<Name<'a>, Reason>
        ensures { TakesWords result self.new (xid_at self.old) }
    {
        xid_of(self.word()?).ok_or(Reason::BadXid)
    }

    #[tactic(auto, unfolding(crate::specs::Fields::tran_at))]
    pub(crate) fn tran(&mut self) -> Result<Gtrid<'a>, Reason>
        ensures { TakesWords result self.new (tran_at self.old) }
    {
        tran_named(self.word()?).ok_or(Reason::BadXid)
    }

    #[tactic(auto, unfolding(crate::specs::Fields::delta_at))]
    pub(crate) fn delta(&mut self) -> Result<Delta, Reason>
        ensures { TakesWords result self.new (delta_at self.old) }
    {
        delta_in(self.word()?)
    }

    // The flag words up to the end of the line, joined bit by bit.
    #[tactic(auto, unfolding(crate::specs::Fields::flags_onto))]
    pub(crate) fn flags(&mut self) -> Result<u32, Reason>
        ensures { result ≡ flags_onto 0 self.old }
    {
        let mut flags = 0;
        while let Some(word) = self.next() {
            flags |= flag_of(word).ok_or(Reason::UnknownWord)?;
        }
        Ok(flags)
    }
}

fn is_space(b: u8) -> bool
    ensures { result ≡ is_space b }
{
    b == b' ' || b == b'\t'
}

// The line after the spaces at its front.
#[tactic(auto, using(crate::proofs::Lines::words_of_space, crate::proofs::Lines::plain_rest))]
fn without_spaces(line: &[u8]) -> &[u8]
    ensures words { words_of result.now ≡ words_of line.now }
    ensures word { starts_blank result.now ≡ true → result.now ≡ [] }
    ensures plain { IsPlain line.now → IsPlain result.now }
{
    let mut start = 0;
    while start < line.len() && is_space(line[start]) {
        start += 1;
    }
    &line[start..]
}

// How many bytes stand in front of the first space. Of the bytes that a script may have, spaces are the least.
#[tactic(auto, using(crate::proofs::Lines::no_space, crate::proofs::Lines::plain_blank))]
fn word_len(line: &[u8]) -> usize
    requires { IsPlain line.now }
    ensures fits { result ≤ length line.now }
    ensures word { IsWord (take result line.now) }
    ensures stops { starts_blank (drop result line.now) ≡ true }
    ensures some { starts_blank line.now ≡ false → 0 < result }
{
    let mut end = 0;
    while end < line.len() && line[end] > b' ' {
        end += 1;
    }
    end
}

// What a word stands for, by a table of words and what each of them stands for.
pub(crate) fn meaning_in<T: Copy>(mut table: &[(&[u8], T)], word: &[u8]) -> Option<T>
    ensures { result ≡ lookup (λ name. bytes_eq word.now name.now) table.entry.now }
{
    while let [(name, meaning), rest @ ..] = table {
        if word == *name {
            return Some(*meaning);
        }
        table = rest;
    }
    None
}

pub(crate) fn all_digits(word: &[u8]) -> bool
    ensures { result ≡ all_digits word.now }
{
    word.iter().all(|b| b.is_ascii_digit())
}

// The number that 1 to 18 digits are.
fn number_of(word: &[u8]) -> Option<u64>
    ensures value { result ≡ number_of_word word.now }
    ensures fits { IfSome result (λ n. n < 1_000_000_000_000_000_000) }
{
    if word.is_empty() || word.len() > 18 {
        return None;
    }
    let mut value: u64 = 0;
    for b in word {
        if !b.is_ascii_digit() {
            return None;
        }
        value = 10 * value + u64::from(*b - b'0');
    }
    Some(value)
}

pub(crate) fn number_in(low: u64, high: u64, word: &[u8]) -> Result<u64, Reason>
    ensures value { result ≡ number_within low high word.now }
    ensures at_least { IfOk result (λ n. low ≤ n) }
    ensures at_most { IfOk result (λ n. n ≤ high) }
{
    let number = number_of(word).ok_or(Reason::BadNumber)?;
    if number < low || number > high {
        return Err(Reason::OutOfRange);
    }
    Ok(number)
}

fn is_name_byte(b: u8) -> bool
    ensures { result ≡ is_name_byte b }
{
    b.is_ascii_lowercase() || b.is_ascii_digit()
}

fn all_name_bytes(bytes: &[u8]) -> bool
    ensures { result ≡ list_all is_name_byte bytes.now }
{
    // Without a return at the first bad byte many bytes are judged at once.
    let mut good = true;
    for b in bytes {
        good &= is_name_byte(*b);
    }
    good
}

// Whether these are 1 to 64 of a to z and 0 to 9.
fn is_name(bytes: &[u8]) -> bool
    ensures { result ≡ is_name bytes.now }
{
    !bytes.is_empty() && bytes.len() <= 64 && all_name_bytes(bytes)
}

// Where the first dot stands, or the length where there is none.
fn dot_at(word: &[u8]) -> usize
    ensures place { result ≡ position_or_len (λ b. b == dot) word.now }
    ensures fits { result ≤ length word.now }
{
    memchr(b'.', word).unwrap_or(word.len())
}

// The branch that `G.B` names, of format 1.
pub(crate) fn xid_of(word: &[u8]) -> Option<Name<'_>>
    ensures { result ≡ xid_of_word word.now }
{
    let dot = dot_at(word);
    if dot == word.len() {
        return None;
    }
    if !is_name(&word[..dot]) || !is_name(&word[dot + 1..]) {
        return None;
    }
    Some(Name::new(word, dot))
}

// The global transaction of format 1 that a name stands for.
pub(crate) fn tran_named(word: &[u8]) -> Option<Gtrid<'_>>
    ensures { result ≡ tran_named word.now }
{
    if !is_name(word) {
        return None;
    }
    Some(Gtrid::new(word))
}

// A number that may have a minus before it.
fn signed_number_of(word: &[u8]) -> Option<i64>
    ensures { result ≡ signed_number_of word.now }
{
    match word {
        [b'-', digits @ ..] => Some(-(number_of(digits)? as i64)),
        _ => Some(number_of(word)? as i64),
    }
}

pub(crate) fn delta_in(word: &[u8]) -> Result<Delta, Reason>
    ensures { result ≡ delta_in word.now }
{
    let amount = signed_number_of(word).ok_or(Reason::BadNumber)?;
    Delta::new(amount).ok_or(Reason::OutOfRange)
}

// Each flag word, and the flag of `xa.h` that it stands for.
const FLAG_WORDS: [(&[u8], u32); 11] = [
    (b"async", TMASYNC),
    (b"onephase", TMONEPHASE),
    (b"fail", TMFAIL),
    (b"nowait", TMNOWAIT),
    (b"resume", TMRESUME),
    (b"success", TMSUCCESS),
    (b"suspend", TMSUSPEND),
    (b"startrscan", TMSTARTRSCAN),
    (b"endrscan", TMENDRSCAN),
    (b"multiple", TMMULTIPLE),
    (b"join", TMJOIN),
];

// The flag of `xa.h` that a flag word stands for.
pub(crate) fn flag_of(word: &[u8]) -> Option<u32>
    ensures { result ≡ flag_of word.now }
{
    meaning_in(&FLAG_WORDS, word)
}
