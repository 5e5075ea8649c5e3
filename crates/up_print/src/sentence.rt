//! What is wrong with a stanza, and what to do (init(5)).

use up_conf::FaultCode;

// The replacement for an unsupported stanza, by its first word.
const LEFT_OUT: &'static [(&str, &str)] = &[
    (
        "expect",
        "`expect` isn't supported: run the program in the foreground, such as `sshd -D`, so that its own process is watched",
    ),
    (
        "chroot",
        "`chroot` isn't supported: use `chroot DIR PROGRAM`",
    ),
    (
        "setuid",
        "`setuid` isn't supported: use `setpriv --reuid=USER --init-groups PROGRAM` or `chpst -u USER PROGRAM`",
    ),
    (
        "setgid",
        "`setgid` isn't supported: use `setpriv --regid=GROUP --clear-groups PROGRAM`",
    ),
    (
        "umask",
        "`umask` isn't supported: set it in a script, such as `umask 022` before `exec PROGRAM`",
    ),
    (
        "nice",
        "`nice` isn't supported: use `nice -n NUMBER PROGRAM`",
    ),
    (
        "limit",
        "`limit` isn't supported: use `prlimit`, such as `prlimit --nofile=4096 PROGRAM`",
    ),
    (
        "oom",
        "`oom` isn't supported: use `choom -n NUMBER -- PROGRAM`",
    ),
    (
        "apparmor",
        "`apparmor` isn't supported: use `aa-exec -p PROFILE -- PROGRAM`",
    ),
    (
        "cgroup",
        "`cgroup` isn't supported: in a script, write $$ to the `cgroup.procs` of the group before `exec PROGRAM`",
    ),
    (
        "console",
        "`console owner` isn't supported: use `setsid --ctty PROGRAM` with the console as its standard streams",
    ),
];

fn is_blank(byte: u8) -> bool {
    byte == b' ' || byte == b'\t'
}

// Whether a line, after its blanks, begins with this whole word.
fn begins_with(line: &[u8], word: &str) -> bool {
    let word = word.as_bytes();
    let start = line
        .iter()
        .position(|byte| !is_blank(*byte))
        .unwrap_or(line.len());
    match line[start..].strip_prefix(word) {
        Some(rest) => rest.first().is_none_or(|byte| is_blank(*byte)),
        None => false,
    }
}

fn instead(line: &[u8]) -> &'static str {
    for (word, said) in LEFT_OUT {
        if begins_with(line, word) {
            return said;
        }
    }
    "init(5) lists the stanzas that aren't supported"
}

/// What is wrong at this line, by the code, and what to do.
pub(crate) fn sentence(code: FaultCode, line: &[u8]) -> &'static str {
    match code {
        FaultCode::UnknownStanza =>
            "no stanza begins with this word: init(5) lists all stanzas; to continue the line above, end it with a backslash",
        FaultCode::NotInProfile => instead(line),
        FaultCode::ExpectedToken =>
            "an argument is missing: init(5) describes the arguments of each stanza",
        FaultCode::UnexpectedToken =>
            "too many words, or one that isn't allowed here: quote a value with blanks; init(5) describes the arguments of each stanza",
        FaultCode::UnterminatedQuote => "a quote in this stanza is never closed",
        FaultCode::UnterminatedBlock => "the script that begins here has no line `end script`",
        FaultCode::TrailingBackslash => "the file ends with a backslash: remove it",
        FaultCode::BadExpression =>
            "this isn't an expression: write events joined by `and` and `or`, and close each parenthesis",
        FaultCode::ValueBeforeKey =>
            "a value without a key follows one with a key: write those without keys first",
        FaultCode::BadNumber =>
            "a number has only digits, and a limit: 65535 for a count, 255 for a status, 2147483647 for seconds",
        FaultCode::BadSignal =>
            "a signal is a name, such as TERM or SIGTERM, or a number from 1 to 31",
        FaultCode::BadName =>
            "a name has no blanks, quotes, backslashes, parentheses or `#=$`; a key has only letters, digits and `_`, and no digit first; the name of a job is its file's path without the ending",
        FaultCode::BadPattern =>
            "a set in a pattern must not contain `[:`, `[.` or `[=`: list its characters",
        FaultCode::BadExpansion =>
            "an expansion is $KEY, ${KEY}, ${KEY-text} or ${KEY:-text}, nested at most 16 deep",
        FaultCode::NotText => "the file isn't UTF-8 text, or contains a zero byte",
        FaultCode::TooLarge =>
            "the file, or a part of it, exceeds a limit: init(5) lists the limits",
        FaultCode::Memory => "out of memory",
    }
}
