//! Tests of how scripts are read, run and shown, over the public surfaces of script_grammar, script_transcript and
//! xa_script.
#![tactic(auto)]

#[cfg(test)]
mod grammar;
#[cfg(test)]
mod script;
#[cfg(test)]
mod transcript;
