//! Runs of modes that make their commands themselves: what they show, one after the other, and what a crash leaves of them.

use crate::runs::{new_store, over, replay, run_words};
use fsrm_outside::{MemoryOutside, Pick};
use std::test::Fail;

// Words, which blanks part, and what a run of them shows.
type Turn = (&'static str, &'static [u8]);

// A store to which a script was done.
fn filled(rt: &HostRuntime, script: &[u8]) -> Result<MemoryOutside, Fail> {
    let mut outside = over(rt, &new_store(rt)?, script, [].as_slice())?;
    let _status = replay(rt, &mut outside, "1")?;
    Ok(outside)
}

fn words_of(rt: &HostRuntime, line: &str) -> Result<Vec<String>, Fail> {
    let mut words = Vec::new(rt.alloc());
    for word in line.split(' ') {
        words.push(String::from_str(rt.alloc(), word)?)?;
    }
    Ok(words)
}

// Runs these words over what another device's disk holds.
fn run_over(rt: &HostRuntime, disk: &MemoryOutside, line: &str) -> Result<MemoryOutside, Fail> {
    let mut outside = over(rt, disk, &[], [].as_slice())?;
    let words = words_of(rt, line)?;
    let _status = run_words(rt, words.as_slice(), &mut outside);
    Ok(outside)
}

// Whether runs that follow one another show these texts.
fn show(rt: &HostRuntime, store: MemoryOutside, turns: &[Turn]) -> Result<bool, Fail> {
    let mut outside = store;
    for (line, text) in turns {
        outside = run_over(rt, &outside, line)?;
        if outside.shown() != *text {
            return Ok(false);
        }
    }
    Ok(true)
}

const FILES: &[u8] = b"1000000000 mkdir D:\\a 1
1000000000 mkdir D:\\a\\b 1
1000000000 mkdir D:\\old 1
1000000000 create D:\\a\\x.log 10 1
1000000000 create D:\\a\\b\\X.LOG 10 1
1000000000 create D:\\a\\y.txt 10 1
1000864000 create D:\\a\\z.log 10 1
";

// What is in the folder that files are moved to stays there, wherever the files come from.
const MOVES: [Turn; 5] = [
    (
        "expire D:\\a D:\\old 10 *.log 1000864000",
        b"1 move D:\\a\\x.log\n1 ok\n2 move D:\\a\\b\\X.LOG\n2 refused AlreadyExists\n",
    ),
    (
        "expire D:\\a D:\\old 10 *.log 1000864000",
        b"1 move D:\\a\\b\\X.LOG\n1 refused AlreadyExists\n",
    ),
    (
        "expire D:\\none D:\\old 0 * 1000864000",
        b"0 refused PathNotFound\n",
    ),
    (
        "expire D:\\ D:\\a 0 * 1000864000",
        b"1 move D:\\old\\x.log\n1 ok\n",
    ),
    ("expire D:\\a\\b D:\\a 0 * 1000864000", b""),
];

#[test]
fn old_files_are_moved(rt: HostRuntime) -> Result<(), Fail> {
    assert!(rt; show(&rt, filled(&rt, FILES)?, MOVES.as_slice())?);
    Ok(())
}

const JOBS: &[u8] =
    b"1000000000 storrept reports add /Task:A /Report:LargeFiles /Scope:D:\\ \"/Schedule:daily 02:00 1\"
1000000000 storrept reports add /Task:B /Report:LargeFiles /Scope:D:\\ \"/Schedule:daily 2:00 1\"
";

const TICKS: [Turn; 3] = [
    ("tick 1000000799", b"  unread B\n"),
    ("tick 1000000800", b"  unread B\n1 ok\n"),
    ("tick 1000000800", b"  unread B\n"),
];

#[test]
fn due_jobs_run(rt: HostRuntime) -> Result<(), Fail> {
    assert!(rt; show(&rt, filled(&rt, JOBS)?, TICKS.as_slice())?);
    Ok(())
}

#[test]
fn a_made_script_is_summed_up(rt: HostRuntime) -> Result<(), Fail> {
    let made = run_over(&rt, &new_store(&rt)?, "work 7 40")?;
    assert!(rt; made.shown() == b"work 40 ok 40 refused 0 acts 0 bytes 231\n".as_slice());
    Ok(())
}

// What a run shows that finds none, the first or both of two commands done, and how many bytes the run before it may have
// shown, which was stopped.
type Left = [(&'static [u8], usize); 3];

// Whether a run that stops at this call leaves what it has to: a later one does what isn't done, and all is done of which
// the first one showed a reply.
fn is_safe(
    rt: &HostRuntime,
    store: &MemoryOutside,
    line: &str,
    stop: u64,
    pick: Pick,
    left: Left,
) -> Result<bool, Fail> {
    let mut outside = over(rt, store, &[], [].as_slice())?;
    outside.stop_at(stop);
    let words = words_of(rt, line)?;
    let _status = run_words(rt, words.as_slice(), &mut outside);
    outside.crash(pick);
    let later = run_over(rt, &outside, line)?;
    for (text, most) in left {
        if later.shown() == text {
            return Ok(outside.shown().len() <= most);
        }
    }
    Ok(false)
}

// Whether that holds of each image that a test may pick.
fn are_safe(
    rt: &HostRuntime,
    store: &MemoryOutside,
    line: &str,
    stop: u64,
    left: Left,
) -> Result<bool, Fail> {
    for pick in [Pick::Lost, Pick::Taken, Pick::Fill(1), Pick::Fill(255)] {
        if !is_safe(rt, store, line, stop, pick, left)? {
            return Ok(false);
        }
    }
    Ok(true)
}

// Whether it holds of each call of a run, which makes fewer than 20.
fn is_safe_throughout(
    rt: &HostRuntime,
    store: &MemoryOutside,
    line: &str,
    left: Left,
) -> Result<bool, Fail> {
    for stop in 1..20 {
        if !are_safe(rt, store, line, stop, left)? {
            return Ok(false);
        }
    }
    Ok(run_over(rt, store, line)?.calls() < 20)
}

const TWO_FILES: &[u8] = b"100 mkdir D:\\a 1
100 mkdir D:\\b 1
100 create D:\\a\\x 1 1
100 create D:\\a\\y 1 1
";

#[test]
fn a_crash_leaves_the_moves_that_were_acknowledged(rt: HostRuntime) -> Result<(), Fail> {
    let left: Left = [
        (b"1 move D:\\a\\x\n1 ok\n2 move D:\\a\\y\n2 ok\n", 14),
        (b"1 move D:\\a\\y\n1 ok\n", 33),
        (b"", usize::MAX),
    ];
    let store = filled(&rt, TWO_FILES)?;
    assert!(rt; is_safe_throughout(&rt, &store, "expire D:\\a D:\\b 0 * 100", left)?);
    Ok(())
}

const TWO_JOBS: &[u8] =
    b"100 storrept reports add /Task:A /Report:QuotaUsage /Scope:D:\\ \"/Schedule:daily 00:00 1\"
100 storrept reports add /Task:B /Report:QuotaUsage /Scope:D:\\ \"/Schedule:daily 00:00 1\"
";

#[test]
fn a_crash_leaves_the_jobs_that_were_acknowledged(rt: HostRuntime) -> Result<(), Fail> {
    let left: Left = [(b"1 ok\n2 ok\n", 0), (b"1 ok\n", 5), (b"", usize::MAX)];
    let store = filled(&rt, TWO_JOBS)?;
    assert!(rt; is_safe_throughout(&rt, &store, "tick 86400", left)?);
    Ok(())
}
