//! The command lines, and the help. `tools/manual.py` makes the manual page from these tables.

use std::fmt::{self, Formatter, Write};

/// What `--version` says, as CHANGELOG.md has it.
const VERSION: &str = "1.0.0";

/// The kit's logic by which the program was proved, as README.md has it.
const LOGIC: &str = "dac8208d650f15bf";

/// Each command with the words after it, and after a colon what it does, in the order of the help.
pub(crate) const COMMANDS: &[&str] = &[
    "gaps LOG: one log's damage and gaps; no signature checked",
    "play SCRIPT PREFIX: plays a script; writes a roster and signed logs",
    "run SCRIPT PREFIX: the same in threads; lists each lost entry, too",
    "repair SCRIPT PREFIX: plays, mends logs before the close, and finishes",
    "order ROSTER X Y LOG..: which of two entries came first, if it is known",
    "audit ROSTER RULES LOG..: the report on the logs that survive",
    "watch ROSTER RULES LOG..: what an audit says after each entry",
    "prove ROSTER PROOF LOG..: writes a proof by which others check an audit",
    "check ROSTER RULES PROOF LOG..: judges rules by a proof",
    "make N: prints the script of a day of N sessions",
    "demo N: plays such a day, loses logs, counts an audit",
    "office NAME SEED: makes an office's key: NAME.office and NAME.key",
    "endorse NAME FILE: signs FILE with the office's key: FILE.sig",
    "endorsed KEY FILE SIG: whether SIG is the office's signature of FILE",
];

/// What the words of a command are.
const WORDS: &[&str] = &[
    "LOG: a log's file, as play and run write it; LOG.. means 1 to 16 logs",
    "SCRIPT: a script's file",
    "PREFIX: the prefix of the names of the written files",
    "ROSTER: a roster's file, as play and run write it",
    "RULES: a file of rules, or the word standard",
    "PROOF: the file of a proof, which prove writes and check reads",
    "X, Y: NAME.NUMBER, as b1.0, or an entry's digest in 64 lower-case hexadecimal digits",
    "N: a number of sessions from 1 to 800, in digits without a leading zero",
    "NAME: an office's name, which is part of its key; NAME.office is secret, NAME.key public",
    "SEED: 32 secret random bytes, in 64 lower-case hexadecimal digits",
    "FILE: any file of at most 67,108,864 bytes",
    "KEY: a file of an office's public key, as office writes it",
    "SIG: a file of a signature, as endorse writes it",
];

/// What to know about the keys of offices.
const KEYS: &[&str] = &[
    "an office's key is made of NAME and SEED, so give endorse the same NAME, folders included",
    "SEED stays in the shell's history, and the list of processes shows it while office runs",
    "so call office in a shell that keeps no history, on a machine used for nothing else",
];

/// What a user may have meant by a word that is no command.
const MEANT: &[&str] = &[
    "help: --help",
    "version: --version",
    "log: gaps",
    "verify: endorsed",
    "sign: endorse",
];

/// What each exit status means, from 0 on.
const STATUSES: &[&str] = &[
    "done, or nothing to report",
    "findings, and no rule broken or unsettled",
    "a rule is unsettled, and none broken",
    "a rule is broken",
    "the command line isn't valid",
    "an input was refused",
    "a named file doesn't exist",
    "an action of the script was left undone",
    "a read failed, and nothing was written",
    "a write failed, and what was written before it stays",
    "out of memory, and nothing was written",
];

/// A command line of the help.
#[derive(Clone, Copy)]
pub(crate) struct CommandLine {
    pub(crate) command: &'static str,
    /// The names of the words after it.
    pub(crate) wanted: &'static str,
    does: &'static str,
}

/// The command line that a row of the table is.
pub(crate) fn command_line(row: &'static str) -> CommandLine {
    let (line, does) = row.split_once(": ").unwrap_or((row, ""));
    let (command, wanted) = line.split_once(' ').unwrap_or((line, ""));
    CommandLine {
        command,
        wanted,
        does,
    }
}

/// The names of the words after the command of this name.
pub(crate) fn words_after(command: &str) -> Option<&'static str> {
    for &row in COMMANDS {
        let line = command_line(row);
        if line.command == command {
            return Some(line.wanted);
        }
    }
    None
}

/// What the first row that has this name says of it.
fn row_of(rows: &[&'static str], name: &str) -> Option<&'static str> {
    for &row in rows {
        let (names, text) = row.split_once(": ").unwrap_or((row, ""));
        if names.split(", ").any(|other| other == name) {
            return Some(text);
        }
    }
    None
}

/// What the words of this name are.
pub(crate) fn meaning_of(name: &str) -> &'static str {
    row_of(WORDS, name).unwrap_or("")
}

/// The command, or the word for help, that a user may have meant by this word.
pub(crate) fn meant_by(word: &str) -> Option<&'static str> {
    row_of(MEANT, word)
}

/// Writes the names of the commands.
pub(crate) fn write_names<W: fmt::Write>(f: &mut Formatter<W>) -> fmt::Result {
    for (place, &row) in COMMANDS.iter().enumerate() {
        f.write_str(if place == 0 { "" } else { ", " })?;
        f.write_str(command_line(row).command)?;
    }
    Ok(())
}

/// Writes the usage line of this command, or that of all where it is none.
pub(crate) fn write_usage<W: fmt::Write>(f: &mut Formatter<W>, command: &str) -> fmt::Result {
    if let Some(wanted) = words_after(command) {
        return write!(f, "usage: auditorium {command} {wanted}\n");
    }
    match command {
        "--help" | "--version" => write!(f, "usage: auditorium {command}\n"),
        _ => f.write_str("usage: auditorium COMMAND WORD..\n"),
    }
}

/// Writes each command line with what it does, and what its words are.
fn write_commands<W: fmt::Write>(f: &mut Formatter<W>) -> fmt::Result {
    f.write_str("usage: auditorium COMMAND WORD..\ncommands:\n")?;
    for &row in COMMANDS {
        let CommandLine {
            command,
            wanted,
            does,
        } = command_line(row);
        write!(f, "  {command:<8} {wanted:<24} {does}\n")?;
    }
    f.write_str("words:\n")?;
    for &row in WORDS {
        let (word, meaning) = row.split_once(": ").unwrap_or((row, ""));
        write!(f, "  {word:<8} {meaning}\n")?;
    }
    f.write_str("keys of offices:\n")?;
    for &row in KEYS {
        write!(f, "  {row}\n")?;
    }
    Ok(())
}

/// Writes the version, the help and what the exit statuses mean.
pub(crate) fn write_help<W: fmt::Write>(f: &mut Formatter<W>) -> fmt::Result {
    write!(
        f,
        "auditorium {VERSION}: a simulated polling place and the auditor of its logs\n\
         proved with logic {LOGIC}\n"
    )?;
    write_commands(f)?;
    f.write_str("exit status:\n")?;
    for (status, &meaning) in STATUSES.iter().enumerate() {
        write!(f, "  {status:<8} {meaning}\n")?;
    }
    Ok(())
}
