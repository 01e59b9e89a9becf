//! Plays scripts over stores on disks in memory: texts that say what a store is asked, and what it
//! is to answer.
//!
//!     pk_player < SCRIPTS
//!
//! It says each line that is answered otherwise than its script says, by its file and number, what
//! was wanted and what came, and passes over the rest of that script. Its last line is `N passed, M
//! failed`, in scripts. The status is 0 where none failed and there was one, 1 else, and 2 where
//! the scripts could not be read or there was no memory.
//!
//! | `pk_player ..` | each line is answered as it comes, behind `= ` |
//! |---|---|
//! | `--tell` | whatever is wanted |
//! | `--again` | what is refused memory is asked once more, and answered behind `+ `; where a call of the disk has failed that was to be answered, the lines up to `!left` are passed over |
//!
//! A line is what is asked, ` => ` and the answer; without an arrow the answer is to be empty. What
//! doesn't begin with `!` is a line for the shell, and the answer its reply. `{c*n}` stands for the
//! characters `c`, `n` times. Blanks at both ends of a line don't count, nor do empty lines, nor
//! those that begin with `#`.
//!
//! | step | does | answers |
//! |---|---|---|
//! | `!script F` | a script of the file `F` begins, without a disk; its lines are counted from 1 | |
//! | `!at F N` | the lines from here on are those of the file `F`, from the `N`th on | |
//! | `!left` | the lines behind it are played, whatever was passed over | |
//! | `!disk N` | a new disk of `N` zero bytes | |
//! | `!create`, `!open` | a store on the disk | `created`, `opened`, or why not |
//! | `!close` | the disk of the store | |
//! | `!check` | a check of the store | the program's line, or why not |
//! | `!blocks N` | stores keep `N` decoded blocks at most, from the next opening on; 0 at first | |
//! | `!pages N` | stores are on a page cache of `N` pages, from the next opening on; on none for 0 | |
//! | `!within` | stores are on as many units as their bodies say, from the next opening on, and on no page cache | |
//! | `!grow N` | makes the disk `N` units long where it is shorter, and grows its store to as many | `grown`, `as it was`, or why not |
//! | `!fail K` | of the calls from the next opening on the `K`th fails, alone | |
//! | `!fail K read` | of its reads the `K`th; so with `write` and `sync` | |
//! | `!stop K`, `!stop K read` | that call fails, and all later ones of any kind | |
//! | `!crash B` | a crash that leaves the byte `B` at all open positions | |
//! | `!crash` | a crash that leaves what was written | |
//! | `!set P B ..` | puts bytes at place `P` of the disk | |
//! | `!bytes P N` | | the `N` bytes at place `P` |
//! | `!nonzero` | | how many bytes of the disk aren't zero |
//! | `!reads` | | how many bytes were read from opening to closing |
//! | `!calls` | | the calls from opening to closing: `r`, `w` and `s`, the first 4,096 of them |
#![tactic(auto)]

mod device;
mod player;
mod script;

use script::{Answer, Mode, Stage};
use std::io;
use std::io::{BufRead, BufReader, Write};
use std::process::ExitCode;

/// All scripts were answered as they say.
const PASSED: u8 = 0;

/// One was not, or there was none.
const FAILED: u8 = 1;

/// The scripts could not be read, or there was no memory for them.
const STOPPED: u8 = 2;

fn main(rt: HostRuntime) -> ExitCode {
    match play_all(&rt) {
        Ok(status) => ExitCode::from(status),
        Err(_) => ExitCode::from(STOPPED),
    }
}

/// The mode that the arguments name.
fn mode(rt: &HostRuntime) -> io::Result<Mode> {
    let words = std::env::args(rt)?.collect::<Vec<String>>(rt.alloc())?;
    Ok(match words.last().map(|word| word.as_str()) {
        Some("--tell") => Mode::Answers,
        Some("--again") => Mode::Again,
        _ => Mode::Differences,
    })
}

/// Plays a line, and tells what it was answered.
fn play<W: Write>(stage: &mut Stage, line: &str, mode: Mode, output: &mut W) -> io::Result<()> {
    if let Some(answer) = stage.take(line)? {
        tell(output, mode, &answer)?;
    }
    Ok(())
}

/// Plays what standard input has.
fn play_all(rt: &HostRuntime) -> io::Result<u8> {
    let mode = mode(rt)?;
    let mut stage = Stage::new(rt.alloc(), mode);
    let mut output = rt.stdout();
    for line in BufReader::new(rt.alloc(), rt.reader())?.lines(rt.alloc()) {
        play(&mut stage, line?.as_str(), mode, &mut output)?;
    }
    let (passed, failed) = stage.counts();
    if mode == Mode::Differences {
        writeln!(output, "{passed} passed, {failed} failed")?;
    }
    Ok(if failed == 0 && passed != 0 {
        PASSED
    } else {
        FAILED
    })
}

/// Tells what a line was answered.
fn tell<W: Write>(output: &mut W, mode: Mode, answer: &Answer) -> io::Result<()> {
    let Answer {
        file,
        line,
        asked,
        wanted,
        got,
        is_second,
    } = answer;
    if mode != Mode::Differences {
        let mark = if *is_second { '+' } else { '=' };
        return writeln!(output, "{mark} {got}");
    }
    if answer.is_wanted() {
        return Ok(());
    }
    writeln!(output, "{file}:{line}: {asked}")?;
    writeln!(output, "  wanted: {wanted}")?;
    writeln!(output, "  got:    {got}")
}
