//! What the program says of itself.

use std::io::Write;

// What `--help` shows. `./xaswitch --help` shows the same, from tools/xaswitch.help.
const HELP: &str = "\
Usage: xaswitch turns < SCRIPT\n\
\x20      xaswitch threads < SCRIPT\n\
\n\
Runs a script of XA calls from standard input and prints its transcript: what each call returned, and at\n\
the end the values of all keys. With `turns` one thread runs all lines in their order, and the script says\n\
when a manager works. With `threads` each thread of the script and each manager has a thread of its own.\n\
\n\
A script of six lines, which adds 5 to key a at manager 1:\n\
\n\
\x20   key 1 a 100\n\
\x20   1 open 1\n\
\x20   1 start 1 g.1\n\
\x20   1 add 1 a 5\n\
\x20   1 end 1 g.1 success\n\
\x20   1 commit 1 g.1 onephase\n\
\n\
Exit status: 0 the run ended; 1 the script has a fault; 2 other words than these; 3 out of memory, or no\n\
thread could be started; 4 a read or a write failed.\n\
\n\
docs/SCRIPT.md of the repository has the grammar, the transcript and the codes.\n\
";

/// Whether the words ask for help alone.
pub fn is_help(words: &[String]) -> bool {
    matches!(words, [word] if word.as_str() == "--help")
}

/// Shows it, and answers the exit status: 4 where the output fails.
pub fn show_help(out: &mut impl Write, err: &mut impl Write) -> u8 {
    if out.write_all(HELP.as_bytes()).is_ok() && out.flush().is_ok() {
        return 0;
    }
    let _ = err.write_all(b"output failed\n");
    4
}
