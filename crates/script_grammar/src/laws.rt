//! The limits that the format of scripts gives, as numbers, so that a definition which names one doesn't move with the
//! code.
ghost use Rattle.std.specs.Prelude.{◌≡◌};
ghost use Rattle.script_grammar.specs.declared.step.TheConstants.{MOST_HANDLE, MOST_COUNT};
ghost use Rattle.script_grammar.specs.declared.commit.TheConstants.{MOST_MANAGER, MOST_ANSWERS};
ghost use Rattle.script_grammar.specs.declared.read.TheConstants.{LONGEST_LINE, MOST_LINES};
ghost use Rattle.script_grammar.specs.declared.setting.TheConstants.{MOST_APPENDS};

/// The constants that the definitions name have these values.
pub fn limits_are_those_of_the_format()
    ensures handle { MOST_HANDLE ≡ 2147483647 }
    ensures count { MOST_COUNT ≡ 64 }
    ensures manager { MOST_MANAGER ≡ 4294967295 }
    ensures answers { MOST_ANSWERS ≡ 7 }
    ensures line { LONGEST_LINE ≡ 512 }
    ensures lines { MOST_LINES ≡ 100000 }
    ensures appends { MOST_APPENDS ≡ 1000000 }
{}
