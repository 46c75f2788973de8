//! Runs of the program on answers and faults known from outside, and on devices that fail.
ghost use Rattle.std.specs.Prelude.{◌≡◌, false};

use crate::devices::{Feed, Full, Paper, Shelf, Stumbling};
use guppy_lines::{Lines, RunFault};
use guppy_program::{IoSink, IoSource, NoFiles, Sink, Source, run_process};
use std::alloc::{AllocError, Global};
use std::process::Abort;
use std::test::Fail;

fn words_of(alloc: Global, line: &str) -> Result<Vec<String>, AllocError> {
    let mut words = Vec::new(alloc);
    for word in line.split(' ') {
        words.push(String::from_str(alloc, word)?)?;
    }
    Ok(words)
}

// The line that tells the fault, where there is one.
fn line_of(alloc: Global, fault: &str) -> Result<Vec<u8>, AllocError> {
    let mut line = Vec::new(alloc);
    if !fault.is_empty() {
        line.extend_from_slice(b"error: ")?;
        line.extend_from_slice(fault.as_bytes())?;
        line.extend_from_slice(b"\n")?;
    }
    Ok(line)
}

// What is set on platforms, and a file with a line that says nothing of this.
const FILES: Shelf = Shelf(&[
    ("unix.cfgs", b"unix\n"),
    ("a.cfgs", b"a=\"b\""),
    ("empty.cfgs", b""),
    ("bad.cfgs", b"unix\n\n"),
]);

// A run tells this fault, if there is one, and ends with this status. What fails is told with the command line and the
// input.
fn assert_ends<R: Source, W: Sink>(
    rt: &impl Abort,
    alloc: Global,
    line: &str,
    input: &str,
    reader: &mut R,
    writer: &mut W,
    fault: &str,
    status: u8,
) -> Result<(), AllocError>
    requires input_works { R.has_failed reader.old ≡ false }
    requires output_works { W.has_failed writer.old ≡ false }
{
    let args = words_of(alloc, line)?;
    let mut errors = Paper::new(alloc, MANY, MANY);
    let ending = run_process::<Lines, _, _, _, _>(
        alloc,
        Ok(args),
        &FILES,
        reader,
        writer,
        &mut errors,
    );
    let told = line_of(alloc, fault)?;
    assert_eq!(rt; errors.bytes(), told.as_slice(), "{line}, on {input:?}");
    assert!(rt;
        ending.is_told && ending.status == status,
        "{line}, on {input:?}"
    );
    Ok(())
}

// Runs a command line on devices that move pieces of so many bytes, and fail after so many reads or writes. What is
// written, the fault's text and the status are these, and a device has failed exactly where the fault blames it.
fn assert_run(
    rt: &impl Abort,
    alloc: Global,
    line: &str,
    input: &[u8],
    moves: [usize; 3],
    output: &[u8],
    fault: &str,
    status: u8,
) -> Result<(), AllocError> {
    let [piece, reads, writes] = moves;
    let mut reader = Feed::new(input, piece, reads);
    let mut writer = Paper::new(alloc, piece, writes);
    let input = str::from_utf8(input).unwrap_or("what is no text");
    assert_ends(
        rt,
        alloc,
        line,
        input,
        &mut reader,
        &mut writer,
        fault,
        status,
    )?;
    assert_eq!(rt; writer.bytes(), output, "{line}, on {input:?}");
    assert_eq!(rt;
        reader.failed(),
        fault == "input failed",
        "{line}, on {input:?}"
    );
    assert_eq!(rt;
        writer.failed(),
        fault == "output failed",
        "{line}, on {input:?}"
    );
    Ok(())
}

// A command line, an input, and what is printed or, where the status isn't 0, the text of the fault.
type Row = (&'static str, &'static [u8], &'static str);

// Runs each row on devices that work, and move all at once or a byte at a time.
fn assert_rows(rt: &impl Abort, alloc: Global, rows: &[Row], status: u8) -> Result<(), AllocError> {
    for &(line, input, text) in rows {
        let (output, fault) = if status == 0 { (text, "") } else { ("", text) };
        for piece in [MANY, 1] {
            let moves = [piece, MANY, MANY];
            assert_run(
                rt,
                alloc,
                line,
                input,
                moves,
                output.as_bytes(),
                fault,
                status,
            )?;
        }
    }
    Ok(())
}

// More reads and writes than any run here takes, and a piece that holds each input.
const MANY: usize = 9999;

const FIRST: &[u8] = b"package a\npackage b\npackage c\nlink a b normal\n";

const NO_LAST_NEWLINE: &[u8] = b"package a\n\npackage b\nlink a b dev";

const BACKS: &[u8] = b"package D\npackage C\npackage B\npackage A\n\
    link A B normal\nlink B A dev\nlink B C normal\nlink C D normal\nlink D C dev\n";

const CYCLIC_ROOTS: &[u8] = b"package a\npackage b\npackage c\n\
    link a b normal\nlink b a dev\nlink a a dev\nlink a c build\n";

const CHAIN: &[u8] = b"package a\npackage b\npackage c\nlink a b normal\nlink b c normal\n";

const LOOP: &[u8] = b"package r\npackage a\npackage b\npackage c\n\
    link r a normal\nlink a c normal\nlink c b normal\nlink b a normal\n";

const TWO_NORMAL: &[u8] = b"package a\npackage b\nlink a b normal\nlink b a normal\n";

const NO_DEV: &[u8] = b"package a\npackage b\nlink a b normal\nlink b a build\n";

const SHORT_CUT: &[u8] = b"package a\npackage b\npackage c\npackage d\n\
    link a b normal\nlink b c normal\nlink c d build\nlink a c dev\n";

const SELF_LINK: &[u8] = b"package a\npackage b\nlink a a normal\nlink a b normal\n";

const SELF_LINKS: &[u8] = b"package a\npackage b\nlink a a dev\nlink a b normal\nlink b b build\n";

const TWO_SPACES: &[u8] = b"package a\npackage  b\n";

const BIG_LETTER: &[u8] = b"package a\npackage b\nlink a b Normal\n";

// What links lead to.
const REACHED: &[Row] = &[
    ("reach forward a", FIRST, "a\nb\n"),
    ("reach forward a", NO_LAST_NEWLINE, "a\nb\n"),
    ("reach forward b a a", FIRST, "a\nb\n"),
    ("reach reverse b", FIRST, "a\nb\n"),
    ("depends a b", FIRST, "true\n"),
    ("depends a c", FIRST, "false\n"),
    (
        "depends a b",
        b"link a b dev\npackage a\npackage b\n",
        "true\n",
    ),
    ("depends a\r a\r", b"package a\r\r\n", "true\n"),
    ("depends a\r a\r", b"package a\r", "true\n"),
];

const ORDERED: &[Row] = &[
    ("order", BACKS, "A\nB\nC\nD\n"),
    ("order", b"package Y\npackage X\nlink X Y dev\n", "X\nY\n"),
    ("order", b"package a\r\r\n", "a\r\n"),
    ("order", b"package a\r", "a\r\n"),
    ("cycles", FIRST, ""),
    ("cycles", BACKS, "A B\nC D\n"),
    ("cycles", SELF_LINKS, "a\nb\n"),
    ("roots forward", CYCLIC_ROOTS, "a\nb\n"),
    ("roots reverse", CYCLIC_ROOTS, "c\n"),
    ("verify", FIRST, "ok\n"),
    ("verify", BACKS, "ok\n"),
    ("publish-order", BACKS, "D\nC\nB\nA\n"),
    ("publish-order --publishable", BACKS, "D\nC\nB\nA\n"),
    ("publish-order", SELF_LINK, "b\na\n"),
];

const OF_NO_PACKAGE: &[Row] = &[
    ("order", b"", ""),
    ("roots forward", b"", ""),
    ("roots reverse", b"", ""),
    ("links forward", b"", ""),
    ("links reverse", b"", ""),
    ("cycles", b"", ""),
    ("duplicates", b"", ""),
    ("verify", b"", "ok\n"),
    ("publish-order", b"", ""),
    ("dot", b"", "digraph {\n}\n"),
];

const OF_LINKS: &[Row] = &[
    ("links forward", CHAIN, "a b\nb c\n"),
    ("links reverse", CHAIN, "b c\na b\n"),
    ("links forward", LOOP, "r a\na c\nc b\nb a\n"),
    ("duplicates", FIRST, ""),
    ("why a a", FIRST, "a\n"),
    ("why b b", TWO_NORMAL, "b\n"),
    ("why a b", FIRST, "a\nb normal\n"),
    ("why D C", BACKS, "D\nC dev\n"),
    ("why r b", LOOP, "r\na normal\nc normal\nb normal\n"),
    ("why a d", SHORT_CUT, "a\nc dev\nd build\n"),
    (
        "--kinds normal,build --workspace --ids why a d",
        SHORT_CUT,
        "a\nb normal\nc normal\nd build\n",
    ),
];

const OF_KINDS: &[Row] = &[
    ("--kinds normal cycles", BACKS, ""),
    ("--kinds dev,normal cycles", BACKS, "A B\nC D\n"),
    ("--kinds dev cycles", CYCLIC_ROOTS, "a\n"),
    ("--kinds normal depends B A", BACKS, "false\n"),
    ("--kinds=normal depends B A", BACKS, "false\n"),
    ("--kinds dev depends B A", BACKS, "true\n"),
    ("--kinds build reach forward a", CYCLIC_ROOTS, "a\nc\n"),
    ("--kinds normal,build links forward", CHAIN, "a b\nb c\n"),
    ("--kinds build links forward", CHAIN, ""),
    ("--kinds normal publish-order", NO_DEV, "b\na\n"),
    ("--kinds build,build publish-order", NO_DEV, "a\nb\n"),
    ("--kinds build,dev verify", TWO_NORMAL, "ok\n"),
    ("--kinds dev order", b"package a\nlink a z normal\n", "a\n"),
];

const ON_PLATFORMS: &[Row] = &[
    (
        "--platform x --cfgs unix.cfgs --kinds dev depends B A",
        BACKS,
        "true\n",
    ),
    (
        "--kinds normal --platform=x --ids --platform y --cfgs empty.cfgs --cfgs=a.cfgs depends B A",
        BACKS,
        "false\n",
    ),
    (
        "--cfgs empty.cfgs --platform x links forward",
        CHAIN,
        "a b\nb c\n",
    ),
    (
        "--platform x --cfgs a.cfgs --host-cfgs=unix.cfgs --host y links forward",
        CHAIN,
        "a b\nb c\n",
    ),
];

const SHOWN: &[Row] = &[
    ("--workspace order", CHAIN, "a\nb\nc\n"),
    (
        "--ids --kinds build --workspace reach forward a",
        FIRST,
        "a\n",
    ),
    ("--null order", CHAIN, "a\0b\0c\0"),
    ("--null reach forward b", CHAIN, "b\0c\0"),
    ("--null links forward", CHAIN, "a b\0b c\0"),
    ("--null cycles", BACKS, "A B\0C D\0"),
    ("--null why a c", CHAIN, "a\0b normal\0c normal\0"),
    ("--format lines order", CHAIN, "a\nb\nc\n"),
    ("--format lines links forward", CHAIN, "a b\nb c\n"),
    ("--format lines cycles", BACKS, "A B\nC D\n"),
    (
        "--format flags order",
        CHAIN,
        "--package=a\n--package=b\n--package=c\n",
    ),
    (
        "--ids --null --format=flags reach forward b",
        CHAIN,
        "--package=b\0--package=c\0",
    ),
];

// What needs escapes: an ID with a quotation mark and a backslash, one with a control character, and one that isn't
// ASCII.
const ESCAPED: &[u8] =
    b"package q\"\\\npackage \x01\tz\npackage \xc3\xa9\nlink q\"\\ \x01\tz build\n";

const OBJECTS: &[Row] = &[
    ("--format json order", b"", "[]\n"),
    ("--null --format json roots forward", b"", "[]\0"),
    (
        "--format json --workspace order",
        CHAIN,
        "[{\"name\":\"a\",\"version\":\"0.0.0\",\"id\":\"a\",\"manifest_path\":\"Cargo.toml\"},\
        {\"name\":\"b\",\"version\":\"0.0.0\",\"id\":\"b\",\"manifest_path\":\"Cargo.toml\"},\
        {\"name\":\"c\",\"version\":\"0.0.0\",\"id\":\"c\",\"manifest_path\":\"Cargo.toml\"}]\n",
    ),
    (
        "--ids --null --format=json reach reverse b",
        CHAIN,
        "[{\"name\":\"a\",\"version\":\"0.0.0\",\"id\":\"a\",\"manifest_path\":\"Cargo.toml\"},\
        {\"name\":\"b\",\"version\":\"0.0.0\",\"id\":\"b\",\"manifest_path\":\"Cargo.toml\"}]\0",
    ),
    (
        "--format json publish-order",
        b"package a\n",
        "[{\"name\":\"a\",\"version\":\"0.0.0\",\"id\":\"a\",\"manifest_path\":\"Cargo.toml\"}]\n",
    ),
    (
        "--format json reach forward q\"\\ \u{e9}",
        ESCAPED,
        "[{\"name\":\"\\u0001\\tz\",\"version\":\"0.0.0\",\"id\":\"\\u0001\\tz\",\
        \"manifest_path\":\"Cargo.toml\"},\
        {\"name\":\"q\\\"\\\\\",\"version\":\"0.0.0\",\"id\":\"q\\\"\\\\\",\
        \"manifest_path\":\"Cargo.toml\"},\
        {\"name\":\"\u{e9}\",\"version\":\"0.0.0\",\"id\":\"\u{e9}\",\
        \"manifest_path\":\"Cargo.toml\"}]\n",
    ),
    (
        "--format json links forward",
        ESCAPED,
        "[{\"from\":{\"name\":\"q\\\"\\\\\",\"version\":\"0.0.0\",\"id\":\"q\\\"\\\\\",\
        \"manifest_path\":\"Cargo.toml\"},\
        \"to\":{\"name\":\"\\u0001\\tz\",\"version\":\"0.0.0\",\"id\":\"\\u0001\\tz\",\
        \"manifest_path\":\"Cargo.toml\"},\"sections\":[\"build\"]}]\n",
    ),
    ("--format json links reverse", b"package a\n", "[]\n"),
    (
        "--format json why a c",
        CHAIN,
        "[{\"package\":{\"name\":\"a\",\"version\":\"0.0.0\",\"id\":\"a\",\"manifest_path\":\"Cargo.toml\"},\
        \"sections\":[]},\
        {\"package\":{\"name\":\"b\",\"version\":\"0.0.0\",\"id\":\"b\",\"manifest_path\":\"Cargo.toml\"},\
        \"sections\":[\"normal\"]},\
        {\"package\":{\"name\":\"c\",\"version\":\"0.0.0\",\"id\":\"c\",\"manifest_path\":\"Cargo.toml\"},\
        \"sections\":[\"normal\"]}]\n",
    ),
    (
        "--null --format json cycles",
        BACKS,
        "[[{\"name\":\"A\",\"version\":\"0.0.0\",\"id\":\"A\",\"manifest_path\":\"Cargo.toml\"},\
        {\"name\":\"B\",\"version\":\"0.0.0\",\"id\":\"B\",\"manifest_path\":\"Cargo.toml\"}],\
        [{\"name\":\"C\",\"version\":\"0.0.0\",\"id\":\"C\",\"manifest_path\":\"Cargo.toml\"},\
        {\"name\":\"D\",\"version\":\"0.0.0\",\"id\":\"D\",\"manifest_path\":\"Cargo.toml\"}]]\0",
    ),
    ("--format json cycles", CHAIN, "[]\n"),
    ("--format json duplicates", FIRST, "[]\n"),
    ("--format json -p b built", CHAIN, "[]\n"),
    ("--format json features a", CHAIN, "[]\n"),
];

// A cycle, a link from a package to itself, links of each kind, and an ID with a quotation mark and a backslash.
const DRAWN: &[u8] = b"package app\npackage disk\npackage gen\npackage q\"\\\n\
    link app disk dev\nlink app gen build\nlink disk app normal\n\
    link gen gen dev\nlink gen q\"\\ normal\n";

const DRAWINGS: &[Row] = &[
    (
        "dot",
        DRAWN,
        "digraph {\n\
        \x20 \"disk\" [shape=box, color=red];\n\
        \x20 \"app\" [shape=box, color=red];\n\
        \x20 \"gen\" [shape=box, color=red];\n\
        \x20 \"q\\\"\\\\\" [shape=box];\n\
        \x20 \"disk\" -> \"app\" [color=red];\n\
        \x20 \"app\" -> \"disk\" [style=dashed, color=red];\n\
        \x20 \"app\" -> \"gen\" [style=dotted];\n\
        \x20 \"gen\" -> \"gen\" [style=dashed, color=red];\n\
        \x20 \"gen\" -> \"q\\\"\\\\\";\n\
        }\n",
    ),
    (
        "dot q\"\\ gen gen",
        DRAWN,
        "digraph {\n\
        \x20 \"gen\" [shape=box, color=red];\n\
        \x20 \"q\\\"\\\\\" [shape=box];\n\
        \x20 \"gen\" -> \"gen\" [style=dashed, color=red];\n\
        \x20 \"gen\" -> \"q\\\"\\\\\";\n\
        }\n",
    ),
    (
        "--kinds normal,build --workspace dot app",
        DRAWN,
        "digraph {\n\
        \x20 \"app\" [shape=box];\n\
        \x20 \"gen\" [shape=box];\n\
        \x20 \"q\\\"\\\\\" [shape=box];\n\
        \x20 \"app\" -> \"gen\" [style=dotted];\n\
        \x20 \"gen\" -> \"q\\\"\\\\\";\n\
        }\n",
    ),
];

#[test]
fn answers(rt: HostRuntime) -> Result<(), Fail> {
    for rows in [
        REACHED,
        ORDERED,
        OF_NO_PACKAGE,
        OF_LINKS,
        OF_KINDS,
        ON_PLATFORMS,
        SHOWN,
    ] {
        assert_rows(&rt, rt.alloc(), rows, 0)?;
    }
    assert_rows(&rt, rt.alloc(), OBJECTS, 0)?;
    assert_rows(&rt, rt.alloc(), DRAWINGS, 0)?;
    Ok(())
}

// Faults of the library.
const REFUSED: &[Row] = &[
    (
        "reach forward a z",
        NO_LAST_NEWLINE,
        "unknown package ID: z",
    ),
    ("depends a b", b"", "unknown package ID: a"),
    ("why z y", FIRST, "unknown package ID: z"),
    ("why b z", FIRST, "unknown package ID: z"),
    ("why b a", FIRST, "no links lead from b to a"),
    ("--kinds dev why a b", FIRST, "no links lead from a to b"),
    (
        "depends a a",
        b"package a\npackage a\n",
        "failed to construct package graph: repeated package ID at package 1",
    ),
    (
        "why b a",
        b"package a\npackage a\n",
        "failed to construct package graph: repeated package ID at package 1",
    ),
    // The first fault, though the link's end is unknown.
    (
        "depends a a",
        b"package a\npackage a\nlink a z normal\n",
        "failed to construct package graph: repeated package ID at package 1",
    ),
    (
        "depends a a",
        b"package a\npackage a/\n",
        "failed to construct package graph: repeated workspace path at package 1",
    ),
    (
        "verify",
        TWO_NORMAL,
        "internal error in package graph: cycle over links that are not dev-only: a -> b -> a",
    ),
    (
        "publish-order",
        TWO_NORMAL,
        "internal error in package graph: cycle over links that are not dev-only: a -> b -> a",
    ),
];

// Lines that say nothing.
const BAD_LINES: &[Row] = &[
    ("depends a b", TWO_SPACES, "bad line 2"),
    ("order", b"\n\r\nlink a\n", "bad line 3"),
    ("depends a a", b"\n\r\nlink a\n", "bad line 3"),
    ("order", b" package a\n", "bad line 1"),
    ("depends a a", b" package a\n", "bad line 1"),
    ("order", b"package\n", "bad line 1"),
    ("depends a a", b"package\n", "bad line 1"),
    ("order", b"package a b\n", "bad line 1"),
    ("depends a a", b"package a b\n", "bad line 1"),
    ("order", b"pack", "bad line 1"),
    ("depends a a", b"pack", "bad line 1"),
    ("order", b"package \xff\n", "bad line 1"),
    ("depends a a", b"package \xff\n", "bad line 1"),
    ("order", BIG_LETTER, "bad line 3"),
    ("depends a a", BIG_LETTER, "bad line 3"),
];

// Command lines that ask nothing.
const BAD_COMMANDS: &[&str] = &[
    "reach backward b",
    "reach reverse",
    "reach forward",
    "depends a b c",
    "why a",
    "why a b a",
    "order a",
    "roots",
    "roots backward",
    "roots forward a",
    "links",
    "links backward",
    "links reverse a",
    "cycles a",
    "duplicates a",
    "verify a",
    "publish-order a",
    "publish-order --publishable a",
    "",
    "affected a",
];

const BAD_OPTIONS: &[&str] = &[
    "--publishable publish-order",
    "--kinds normal",
    "--kinds",
    "--kinds order",
    "--kinds normal,proc order",
    "--kinds normal, order",
    "--kinds dev --kinds dev order",
    "--kinds= order",
    "--workspace",
    "--workspace --workspace order",
    "--workspace=yes order",
    "--id order",
    "--null depends a b",
    "--null verify",
    "--null dot",
    "--null=yes order",
];

const BAD_PLATFORMS: &[&str] = &[
    "--platform order",
    "--platform x order",
    "--cfgs unix.cfgs order",
    "--platform x --cfgs bad.cfgs order",
    "--platform x --cfgs gone.cfgs order",
    "order --platform x --cfgs unix.cfgs",
    "--host x order",
    "--host-cfgs unix.cfgs order",
    "--host x --host-cfgs bad.cfgs order",
];

const BAD_FORMATS: &[&str] = &[
    "--format order",
    "--format flag order",
    "--format= order",
    "--format flags links forward",
    "--format flags why a b",
    "--format flags cycles",
    "--format flags duplicates",
    "--format flags built",
    "--format flags features a",
    "--format json depends a b",
    "--format json dot",
    "--format json verify",
    "--format JSON order",
    "--format lines verify",
];

fn assert_bad_arguments(
    rt: &impl Abort,
    alloc: Global,
    lines: &[&'static str],
) -> Result<(), AllocError> {
    for &line in lines {
        assert_rows(rt, alloc, &[(line, FIRST, "bad arguments")], 2)?;
    }
    Ok(())
}

#[test]
fn faults(rt: HostRuntime) -> Result<(), Fail> {
    let alloc = rt.alloc();
    assert_rows(&rt, alloc, REFUSED, 1)?;
    assert_rows(&rt, alloc, BAD_LINES, 2)?;
    // The arguments' fault is told first.
    assert_rows(&rt, alloc, &[("depends a", TWO_SPACES, "bad arguments")], 2)?;
    for lines in [BAD_COMMANDS, BAD_OPTIONS, BAD_PLATFORMS, BAD_FORMATS] {
        assert_bad_arguments(&rt, alloc, lines)?;
    }
    Ok(())
}

// Two packages that lead to each other.
const THERE_AND_BACK: &[u8] = b"package a\npackage b\nlink a b normal\nlink b a dev\n";

// What each command prints there.
const PRINTED: [(&str, &[u8]); 12] = [
    ("reach forward a", b"a\nb\n"),
    ("reach reverse b", b"a\nb\n"),
    ("depends a b", b"true\n"),
    ("why b a", b"b\na dev\n"),
    ("order", b"a\nb\n"),
    ("roots forward", b"a\nb\n"),
    ("roots reverse", b"a\nb\n"),
    ("links forward", b"b a\na b\n"),
    ("links reverse", b"a b\nb a\n"),
    ("cycles", b"a b\n"),
    ("verify", b"ok\n"),
    ("publish-order", b"b\na\n"),
];

// Each read of the command's input fails, and each write of what it prints.
fn assert_each_fails(
    rt: &impl Abort,
    alloc: Global,
    line: &str,
    printed: &[u8],
) -> Result<(), AllocError> {
    let input = THERE_AND_BACK;
    assert_run(rt, alloc, line, input, [1, MANY, MANY], printed, "", 0)?;
    // 10 pieces of at most 5 bytes, and the end.
    for reads in 0..11 {
        let moves = [5, reads, MANY];
        assert_run(rt, alloc, line, input, moves, b"", "input failed", 2)?;
    }
    for writes in 0..printed.len() {
        let (moves, output) = ([1, MANY, writes], &printed[..writes]);
        assert_run(rt, alloc, line, input, moves, output, "output failed", 2)?;
    }
    Ok(())
}

#[test]
fn failing_devices(rt: HostRuntime) -> Result<(), Fail> {
    let alloc = rt.alloc();
    for (line, printed) in PRINTED {
        assert_each_fails(&rt, alloc, line, printed)?;
        // After a bad line.
        let moves = [5, 1, MANY];
        assert_run(&rt, alloc, line, b"pack\n", moves, b"", "input failed", 2)?;
    }
    Ok(())
}

// Runs `reach forward a` on std's reader and writer: the fault's text and the status are these, and so many
// bytes were taken.
fn assert_std_fails(
    rt: &impl Abort,
    alloc: Global,
    reads: usize,
    room: &mut [u8],
    count: usize,
    fault: &str,
    status: u8,
) -> Result<(), AllocError> {
    let mut reader = IoSource::new(Stumbling::new(FIRST, reads));
    let mut full = Full::new(room);
    let mut writer = IoSink::new(&mut full);
    let line = "reach forward a";
    assert_ends(
        rt,
        alloc,
        line,
        "std's reader",
        &mut reader,
        &mut writer,
        fault,
        status,
    )?;
    assert_eq!(rt; reader.failed(), fault == "input failed", "{fault}");
    assert_eq!(rt; writer.failed(), fault == "output failed", "{fault}");
    assert_eq!(rt; full.count, count, "{fault}");
    Ok(())
}

#[test]
fn std_devices(rt: HostRuntime) -> Result<(), Fail> {
    let alloc = rt.alloc();
    let mut room = [0; 4];
    assert_std_fails(&rt, alloc, MANY, &mut room, 4, "", 0)?;
    assert_eq!(rt; room.as_slice(), b"a\nb\n".as_slice());
    // 46 bytes, and the end.
    for reads in [0, 1, 45, 46] {
        assert_std_fails(&rt, alloc, reads, &mut room, 0, "input failed", 2)?;
    }
    for count in 0..4 {
        assert_std_fails(
            &rt,
            alloc,
            MANY,
            &mut room[..count],
            count,
            "output failed",
            2,
        )?;
    }
    Ok(())
}

// Arguments that could not be had, and a sink that takes so many of the bytes of the fault's line.
#[test]
fn no_arguments(rt: HostRuntime) {
    let alloc = rt.alloc();
    for (writes, is_told) in [(MANY, true), (21, true), (20, false), (0, false)] {
        let mut reader = Feed::new(FIRST, MANY, MANY);
        let mut writer = Paper::new(alloc, MANY, MANY);
        let mut errors = Paper::new(alloc, 1, writes);
        let ending = run_process::<Lines, _, _, _, _>(
            alloc,
            Err(RunFault::BadArguments),
            &NoFiles,
            &mut reader,
            &mut writer,
            &mut errors,
        );
        assert!(rt; ending.is_told == is_told && ending.status == 2);
        assert!(rt; errors.bytes() == &b"error: bad arguments\n"[..writes.min(21)]);
        assert!(rt; writer.bytes().is_empty());
    }
}
