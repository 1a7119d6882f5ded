//! Commands over two files in memory.
use super::same;
use super::tighten::{IGNORED, ROUNDED};
use std::alloc::Global;
use std::process::Abort;
use std::str;
use vipr_bytes::Bytes;
use vipr_command::{NamedText, TwoFiles, run};

/// A text under two names, and another one under two others.
fn files<'a>(alloc: Global, first: &'a [u8], second: &'a [u8]) -> TwoFiles<'a> {
    TwoFiles {
        alloc,
        first: NamedText {
            names: &["plan.vipr", "./plan.vipr"],
            text: first,
        },
        second: NamedText {
            names: &["out.vipr", "link"],
            text: second,
        },
    }
}

/// Runs a command, and compares its status, what it prints and what it says.
fn ends(rt: &impl Abort, files: &mut TwoFiles<'_>, words: &[&str], wanted: (u8, &[u8], &str)) {
    let alloc = files.alloc;
    let mut out = Vec::with_capacity(alloc, 4096).expect(rt, "room");
    let mut err = Vec::with_capacity(alloc, 4096).expect(rt, "room");
    let input = Bytes::new(b"");
    let status = run(alloc, files, words, input, &mut out, &mut err);
    same(
        rt,
        str::from_utf8(err.as_slice()).expect(rt, "text"),
        wanted.2,
    );
    same(rt, out.as_slice(), wanted.1);
    same(rt, status, wanted.0);
    drop(out);
    drop(err);
}

#[test]
fn the_named_file_is_read(rt: HostRuntime) {
    let mut both = files(rt.alloc(), ROUNDED, b"VER");
    let verdict = b"verified range 3 3\nsolutions 1 derived 1 peak 1\n";
    ends(
        &rt,
        &mut both,
        &["vipr", "check", "plan.vipr"],
        (0, verdict, ""),
    );
    ends(
        &rt,
        &mut both,
        &["vipr", "show", "./plan.vipr"],
        (0, ROUNDED, ""),
    );
    ends(
        &rt,
        &mut both,
        &["vipr", "check", "link"],
        (1, b"refused 1 at byte 3\n", ""),
    );
    ends(
        &rt,
        &mut both,
        &["vipr", "check", "plan"],
        (3, b"", "fault read\n"),
    );
}

#[test]
fn a_file_is_replaced_under_all_its_names(rt: HostRuntime) {
    let mut both = files(rt.alloc(), IGNORED, b"VER");
    let tightened: (u8, &[u8], &str) = (0, b"", "kept 1 removed 1 peak 2 1\n");
    ends(
        &rt,
        &mut both,
        &["vipr", "tighten", "plan.vipr", "-o", "plan"],
        (3, b"", "fault write after 123\n"),
    );
    ends(
        &rt,
        &mut both,
        &["vipr", "tighten", "link", "-o", "plan.vipr"],
        (1, b"", "refused 1 at byte 3\n"),
    );
    same(&rt, both.second.text, b"VER");
    ends(
        &rt,
        &mut both,
        &["vipr", "tighten", "plan.vipr", "-o", "out.vipr"],
        tightened,
    );
    same(&rt, both.first.text, IGNORED);
    ends(&rt, &mut both, &["vipr", "show", "link"], (0, ROUNDED, ""));
    ends(
        &rt,
        &mut both,
        &["vipr", "tighten", "plan.vipr", "-o", "./plan.vipr"],
        tightened,
    );
    same(&rt, both.first.text, ROUNDED);
}
