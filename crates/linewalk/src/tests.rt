//! Whole scripts and batches with what they print, and arguments with what they ask for.
use crate::mode::Mode;
use std::alloc::{AllocError, Global};
use std::io::Write;
use std::process::Abort;
use std::test::Fail;
use walking::batch::write_batch;
use walking::explain::write_explained;
use walking::walk::walk_script;

/// A ticket is posted and collected; the crew drains and reports.
const WHOLE: &[u8] =
    b"\x10\0\x01\0\x01\0\x02\0\0\0\0\0\0\0\0\0\x12\0\x03\0\0\0\x07\0\0\0\x08\0\0\0\x09\0\0\0\x08\0\x05\0\0\0\x0d\0\x04\0\x06\0\x06\0\x07\0\x0b\0\x04\0\x08\0\x04\0\x09\0\x04\0\x0a\0";

/// A collect that is begun twice and settled too soon, and a record that is cut short.
const OPEN_COLLECT: &[u8] =
    b"\x10\0\x01\0\x01\0\x02\0\0\0\0\0\0\0\0\0\x04\0\x06\0\x04\0\x06\0\x04\0\x08\0\x07\0\x06\0";

/// Two notes for the one place of a lane, a lane that is not there, and a report too soon.
const FULL: &[u8] =
    b"\x10\0\x02\0\x01\0\x02\0\0\0\0\0\0\0\0\0\x0c\0\x04\0\0\0\x01\0\0\0\xc0\x3f\x08\0\x05\0\0\0\x01\0\x08\0\x05\0\0\0\x0d\0\x0c\0\x04\0\0\0\x04\0\x01\0\0\0\x08\0\x05\0\0\0\x0d\0\x08\0\x05\0\x01\0\x01\0\x04\0\x0a\0";

/// Too many lanes, and a temperature that is no number.
const NEVER_LAID: &[u8] =
    b"\x10\0\x02\0\x11\0\x02\0\0\0\0\0\0\0\0\0\x04\0\x08\0\x0c\0\x04\0\0\0\x01\0\0\0\x80\x7f";

/// A start at which no stamp is left, calls with nothing under way, and a kind that is not there.
const USED_UP: &[u8] =
    b"\x10\0\x02\0\x02\0\x03\0\0\0\0\0\0\0\0\x40\x0c\0\x04\0\0\0\x02\0\0\0\x10\xc0\x0c\0\x04\0\0\0\x03\0\0\0\0\x3f\x08\0\x05\0\0\0\x0d\0\x08\0\x05\0\0\0\x01\0\x06\0\x07\0\x01\0\x04\0\x08\0\x04\0\x06\0\x04\0\x09\0\x04\0\x0a\0\x04\0\x0b\0";

/// The lines of a script, each ended by a semicolon.
fn printed(heap: Global, script: &[u8]) -> Result<String, AllocError> {
    let mut text = String::new(heap);
    for line in walk_script(heap, script)?.iter() {
        let line = *line;
        text.push_str(format!(in heap; "{line};")?.as_str())?;
    }
    Ok(text)
}

/// Checks one script after another against the lines that it must print.
fn check_all(rt: &impl Abort, heap: Global, table: &[(&[u8], &str)]) -> Result<(), Fail> {
    for row in table {
        assert_eq!(rt; printed(heap, row.0)?.as_str(), row.1);
    }
    Ok(())
}

#[test]
fn a_line_has_the_same_words_in_any_width(rt: HostRuntime) -> Result<(), Fail> {
    let heap = rt.alloc();
    let mut text = String::new(heap);
    for line in walk_script(heap, WHOLE)?.iter() {
        let line = *line;
        text.push_str(format!(in heap; "{line:>24.2};")?.as_str())?;
    }
    assert_eq!(rt;
        text.as_str(),
        "laid;begun;L0 posted 0 9;begun;C delivered 0 0 6;settled;draining;report 1 1;"
    );
    Ok(())
}

#[test]
fn ticket_scripts(rt: HostRuntime) -> Result<(), Fail> {
    check_all(
        &rt,
        rt.alloc(),
        &[
            (
                WHOLE,
                "laid;begun;L0 posted 0 9;begun;C delivered 0 0 6;settled;draining;report 1 1;",
            ),
            (
                OPEN_COLLECT,
                "laid;begun;refused 10;refused 12;fault 14 at 28;",
            ),
            (b"", ""),
        ],
    )
}

#[test]
fn note_scripts(rt: HostRuntime) -> Result<(), Fail> {
    check_all(
        &rt,
        rt.alloc(),
        &[
            (
                FULL,
                "laid;begun;L0 on;L0 posted 0 9;begun;L0 refused 8 1;refused 5;fault 16 at 72;",
            ),
            (NEVER_LAID, "refused 1;refused 4;fault 17 at 20;"),
        ],
    )
}

#[test]
fn script_of_used_up_stamps(rt: HostRuntime) -> Result<(), Fail> {
    let lines =
        "laid;begun;refused 6;L0 refused 9 2;refused 7;refused 11;refused 11;begun;draining;refused 13;fault 15 at 78;";
    check_all(&rt, rt.alloc(), &[(USED_UP, lines)])
}

/// Checks one script after another against what it must print in words.
fn check_words(rt: &impl Abort, heap: Global, table: &[(&[u8], &str)]) -> Result<(), Fail> {
    for row in table {
        let mut out = Vec::new(heap);
        write_explained(heap, row.0, &mut out)?;
        assert_eq!(rt; String::from_utf8(out)?.as_str(), row.1);
    }
    Ok(())
}

#[test]
fn ticket_scripts_in_words(rt: HostRuntime) -> Result<(), Fail> {
    let whole = concat!(
        "    0  lay a line for tickets: 1 lane of 2 cells, stamps from 0 -> laid\n",
        "   16  post on lane 0: frame 7, place 8, length 9 -> begun\n",
        "   34  grant lane 0, at most 13 times -> L0 posted 0 9\n",
        "   42  begin a collect -> begun\n",
        "   46  grant the collector, at most 11 times -> C delivered 0 0 6\n",
        "   52  settle the collect -> settled\n",
        "   56  drain the crew -> draining\n",
        "   60  report both totals -> report 1 1\n",
    );
    let open_collect = concat!(
        "    0  lay a line for tickets: 1 lane of 2 cells, stamps from 0 -> laid\n",
        "   16  begin a collect -> begun\n",
        "   20  begin a collect -> refused 10 (a collect is under way or not settled)\n",
        "   24  settle the collect -> refused 12 (the collect has not ended)\n",
        "   28  a record cut short or of wrong length -> fault 14 at 28\n",
    );
    check_words(
        &rt,
        rt.alloc(),
        &[(WHOLE, whole), (OPEN_COLLECT, open_collect), (b"", "")],
    )
}

#[test]
fn note_scripts_in_words(rt: HostRuntime) -> Result<(), Fail> {
    let full = concat!(
        "    0  lay a line for notes: 1 lane of 2 cells, stamps from 0 -> laid\n",
        "   16  post on lane 0: temperature 1.5 -> begun\n",
        "   28  grant lane 0, at most 1 time -> L0 on\n",
        "   36  grant lane 0, at most 13 times -> L0 posted 0 9\n",
        "   44  post on lane 0: fault code 1 -> begun\n",
        "   56  grant lane 0, at most 13 times -> L0 refused 8 1 (the lane is full)\n",
        "   64  grant lane 1, at most 1 time -> refused 5 (there is no such lane)\n",
        "   72  a record whose kind is out of place -> fault 16 at 72\n",
    );
    let never_laid = concat!(
        "    0  lay a line for notes: 17 lanes of 2 cells, stamps from 0 -> refused 1 (lanes outside 1 to 16, or cells outside 2 to 64)\n",
        "   16  settle the collect -> refused 4 (no line is laid)\n",
        "   20  a record with a field that is not allowed -> fault 17 at 20\n",
    );
    let used_up = concat!(
        "    0  lay a line for notes: 2 lanes of 3 cells, stamps from 4611686018427387904 -> laid\n",
        "   16  post on lane 0: bias voltage -2.25 -> begun\n",
        "   28  post on lane 0: mean dark level 0.5 -> refused 6 (a post is under way on the lane)\n",
        "   40  grant lane 0, at most 13 times -> L0 refused 9 2 (the stamps are used up)\n",
        "   48  grant lane 0, at most 1 time -> refused 7 (no post is under way on the lane)\n",
        "   56  grant the collector, at most 1 time -> refused 11 (no collect is under way)\n",
        "   62  settle the collect -> refused 11 (no collect is under way)\n",
        "   66  begin a collect -> begun\n",
        "   70  drain the crew -> draining\n",
        "   74  report both totals -> refused 13 (a post or collect is under way or unsettled, or a lane holds a frame)\n",
        "   78  a record of unknown kind -> fault 15 at 78\n",
    );
    check_words(
        &rt,
        rt.alloc(),
        &[(FULL, full), (NEVER_LAID, never_laid), (USED_UP, used_up)],
    )
}

/// A batch of an empty script and one whose only record is out of place.
const BATCH: [u8; 12] = [0, 0, 0, 0, 4, 0, 0, 0, 4, 0, 6, 0];

/// What a batch prints, and behind it the message that it ends with.
fn batched(heap: Global, batch: &[u8]) -> Result<String, Fail> {
    let mut out = Vec::new(heap);
    if let Err(error) = write_batch(heap, batch, &mut out) {
        write!(out, "{error}")?;
    }
    Ok(String::from_utf8(out)?)
}

/// The batch, cut behind each of its bytes.
#[test]
fn batches(rt: HostRuntime) -> Result<(), Fail> {
    let table = [
        "",
        "batch cut short at byte 0: the length has 1 of its 4 bytes",
        "batch cut short at byte 0: the length has 2 of its 4 bytes",
        "batch cut short at byte 0: the length has 3 of its 4 bytes",
        "\n",
        "\nbatch cut short at byte 4: the length has 1 of its 4 bytes",
        "\nbatch cut short at byte 4: the length has 2 of its 4 bytes",
        "\nbatch cut short at byte 4: the length has 3 of its 4 bytes",
        "\nbatch cut short at byte 4: the script has 0 of its 4 bytes",
        "\nbatch cut short at byte 4: the script has 1 of its 4 bytes",
        "\nbatch cut short at byte 4: the script has 2 of its 4 bytes",
        "\nbatch cut short at byte 4: the script has 3 of its 4 bytes",
        "\nfault 16 at 0\n\n",
    ];
    for (kept, text) in table.iter().enumerate() {
        assert!(rt; kept <= BATCH.len());
        assert_eq!(rt; batched(rt.alloc(), &BATCH[0..kept])?.as_str(), *text);
    }
    Ok(())
}

/// The mode that the arguments ask for, or the message that they end the program with.
fn asked(heap: Global, args: &[&str]) -> Result<String, AllocError> {
    let mut owned = Vec::new(heap);
    for arg in args {
        owned.push(String::from_str(heap, *arg)?)?;
    }
    match Mode::parse(owned.as_slice()) {
        Ok(mode) => format!(in heap; "{mode:?}"),
        Err(bad) => format!(in heap; "{bad}"),
    }
}

#[test]
fn arguments(rt: HostRuntime) -> Result<(), Fail> {
    let table: &[(&[&str], &str)] = &[
        (&[], "Walk"),
        (&["--explain"], "Explain"),
        (&["--batch"], "Batch"),
        (&["--help"], "Help"),
        (&["-h"], "Help"),
        (
            &["--Help"],
            "unknown argument (see linewalk --help): --Help",
        ),
        (&["-hx"], "unknown argument (see linewalk --help): -hx"),
        (&[""], "unknown argument (see linewalk --help): "),
        (
            &["SCRIPT", "--help"],
            "unknown argument (see linewalk --help): SCRIPT",
        ),
        (
            &["--explain", "--batch"],
            "one argument too many (see linewalk --help): --batch",
        ),
    ];
    for row in table {
        assert_eq!(rt; asked(rt.alloc(), row.0)?.as_str(), row.1);
    }
    Ok(())
}
