//! Whole runs over real files, and over a disk that is full.
use crate::full_disk::FullDisk;
use crate::memory::words_of;
use crate::same::same_count;
use dsp_blocks::BlockUnit;
use dsp_cli::Words;
use dsp_files::{FilePorts, FileSink, FileSource, run_files};
use dsp_ports::{Sink, Source};
use std::alloc::{AllocError, Global};
use std::fs::{self, Files};
use std::io::{self, Print};
use std::marker::Brand;
use std::os::fd::AsRawFd;
use std::os::unix::fs::symlink;
use std::process::Abort;
use std::sync::ledger::Blank;

/// What the program answers to these words, with a counter of its own.
fn answer(
    alloc: Global,
    rt: &(impl Files<File: AsRawFd> + Print),
    words: &Words,
) -> Result<u8, AllocError> {
    let mut ports = FilePorts::new(alloc, rt, words)?;
    Ok(run_files::<BlockUnit, _, Brand>(alloc, words, &mut ports, Blank::new(2)))
}

/// Compares what the program answers to these words over the files of this disk.
fn answers(
    rt: &impl Abort,
    alloc: Global,
    disk: &(impl Files<File: AsRawFd> + Print),
    texts: &[&str],
    status: u8,
) {
    let words = words_of(rt, alloc, texts);
    let found = answer(alloc, disk, &words).expect(rt, "memory");
    assert_same!(rt; found, status);
}

/// Makes a file of these bytes.
fn make(rt: &(impl Files + Abort), name: &str, bytes: &[u8]) {
    fs::write(rt, name, bytes).expect(rt, "a file");
}

/// Compares the bytes of a file that was read.
fn has(rt: &impl Abort, found: io::Result<Vec<u8>>, bytes: &[u8]) {
    let found = found.expect(rt, "a file");
    assert_same!(rt; found.as_slice(), bytes);
}

/// Removes what a test wrote.
fn remove(rt: &(impl Files + Abort), names: &[&str]) {
    for name in names {
        fs::remove_file(rt, *name).expect(rt, "a file");
    }
}

/// A file that declares four bytes of samples and has three.
const SHORT: &[u8] = &[
    0x52, 0x49, 0x46, 0x46, 0x28, 0x00, 0x00, 0x00, 0x57, 0x41, 0x56, 0x45, 0x66, 0x6D, 0x74, 0x20,
    0x10, 0x00, 0x00, 0x00, 0x01, 0x00, 0x01, 0x00, 0x40, 0x1F, 0x00, 0x00, 0x40, 0x1F, 0x00, 0x00,
    0x01, 0x00, 0x08, 0x00, 0x64, 0x61, 0x74, 0x61, 0x04, 0x00, 0x00, 0x00, 0x81, 0x82, 0x83,
];

const SCRIPT: &[u8] = b"dspfx 1 input raw q15 1 8000 fir {16384} output raw\n";

/// Files that are made, the words of a call over them, the status that it answers, and what stands then
/// in the file of this name.
struct Case {
    files: &'static [(&'static str, &'static [u8])],
    words: &'static [&'static str],
    status: u8,
    name: &'static str,
    bytes: &'static [u8],
}

const CASES: &[Case] = &[
    // A run over real files writes its output.
    Case {
        files: &[
            ("first.txt", SCRIPT),
            ("first.raw", &[0xE8, 0x03, 0x18, 0xFC, 0xFF, 0xFF]),
        ],
        words: &["run", "first.txt", "first.raw", "halved.raw"],
        status: 0,
        name: "halved.raw",
        bytes: &[0xF4, 0x01, 0x0C, 0xFE, 0xFF, 0xFF],
    },
    // A generated input needs no file.
    Case {
        files: &[(
            "generated.txt",
            b"dspfx 1 input raw q15 1 8000 output raw\n",
        )],
        words: &["gen", "0", "3", "generated.txt", "made.raw"],
        status: 0,
        name: "made.raw",
        bytes: &[0x6E, 0x3C, 0x50, 0x47, 0xCC, 0xD1],
    },
    // The output of the whole blocks stands in the file where the input ends too early.
    Case {
        files: &[
            ("short.txt", b"dspfx 1 input wave q7 1 block 2 output raw\n"),
            ("short.wav", SHORT),
        ],
        words: &["run", "short.txt", "short.wav", "short.raw"],
        status: 4,
        name: "short.raw",
        bytes: &[0x01, 0x02],
    },
    // An empty input makes an empty output, also of a file that had bytes.
    Case {
        files: &[
            ("third.txt", SCRIPT),
            ("empty.raw", b""),
            ("old.raw", b"old"),
        ],
        words: &["run", "third.txt", "empty.raw", "old.raw"],
        status: 0,
        name: "old.raw",
        bytes: b"",
    },
];

/// Makes the files of a case, and compares what the program answers to its words.
fn case_answers(rt: &(impl Files<File: AsRawFd> + Print + Abort), alloc: Global, case: &Case) {
    for (name, bytes) in case.files {
        make(rt, name, bytes);
    }
    answers(rt, alloc, rt, case.words, case.status);
}

#[test]
fn calls_over_real_files_write_their_outputs(rt: HostRuntime) {
    for case in CASES {
        case_answers(&rt, rt.alloc(), case);
        has(&rt, fs::read(&rt, case.name), case.bytes);
    }
    remove(&rt, &["first.txt", "first.raw", "halved.raw"]);
    remove(&rt, &["generated.txt", "made.raw"]);
    remove(&rt, &["short.txt", "short.wav", "short.raw"]);
    remove(&rt, &["third.txt", "empty.raw", "old.raw"]);
}

#[test]
fn a_missing_input_leaves_no_output(rt: HostRuntime) {
    make(&rt, "second.txt", SCRIPT);
    answers(
        &rt,
        rt.alloc(),
        &rt,
        &["run", "second.txt", "missing.raw", "none.raw"],
        7,
    );
    assert_holds!(&rt; fs::read(&rt, "none.raw").is_err());
    remove(&rt, &["second.txt"]);
}

#[test]
fn a_file_is_copied_by_its_ports(rt: HostRuntime) {
    make(&rt, "from.raw", &[1, 2, 3]);
    let mut source = FileSource::new(rt.alloc(), &rt, "from.raw", 16_384).expect(&rt, "memory");
    let mut sink = FileSink::new(rt.alloc(), &rt, "to.raw", "", "from.raw").expect(&rt, "memory");
    let mut bytes = [0; 4];
    assert_same!(&rt; source.read(&mut bytes).ok(), Some(3));
    assert_same!(&rt; sink.write(&bytes[..3]).ok(), Some(3));
    assert_holds!(&rt; sink.flush().is_ok());
    has(&rt, fs::read(&rt, "to.raw"), &[1, 2, 3]);
    remove(&rt, &["from.raw", "to.raw"]);
}

/// A file of many reads and writes is made, and copied: so that what is read ahead and gathered is whole.
#[test]
fn a_long_file_is_copied_whole(rt: HostRuntime) {
    make(
        &rt,
        "copy.txt",
        b"dspfx 1 input raw q15 1 8000 block 300 output raw\n",
    );
    answers(
        &rt,
        rt.alloc(),
        &rt,
        &["gen", "7", "50000", "copy.txt", "long.raw"],
        0,
    );
    let made = fs::read(&rt, "long.raw").expect(&rt, "a file");
    same_count(&rt, made.len(), 100000);
    assert_same!(&rt; &made[16384..16388], [0x42, 0x57, 0x4F, 0x43].as_slice());
    assert_same!(&rt; &made[32768..32772], [0x63, 0x41, 0xC4, 0x2C].as_slice());
    assert_same!(&rt; &made[65536..65540], [0xA7, 0x85, 0xAF, 0xAF].as_slice());
    assert_same!(&rt; &made[99996..], [0x2E, 0xDA, 0x49, 0xF6].as_slice());
    answers(
        &rt,
        rt.alloc(),
        &rt,
        &["run", "copy.txt", "long.raw", "copied.raw"],
        0,
    );
    let copied = fs::read(&rt, "copied.raw").expect(&rt, "a file");
    assert_same!(&rt; copied.as_slice(), made.as_slice());
    remove(&rt, &["copy.txt", "long.raw", "copied.raw"]);
}

/// A disk that is full from the first byte on: the output cannot be written, and no sample is asked for.
#[test]
fn a_full_disk_ends_a_run_at_its_first_write(rt: HostRuntime) {
    short_run_on_a_disk(&rt, rt.alloc(), 0, 8);
    has(&rt, fs::read(&rt, "full.raw"), b"");
    remove(&rt, &["full.txt", "full.wav", "full.raw"]);
}

/// What a stopped run has accepted cannot be written after it, and that is answered in place of the run's status.
#[test]
fn a_short_input_on_a_full_disk_is_not_written(rt: HostRuntime) {
    short_run_on_a_disk(&rt, rt.alloc(), 1, 8);
    has(&rt, fs::read(&rt, "full.raw"), &[0x01]);
    short_run_on_a_disk(&rt, rt.alloc(), 3, 4);
    has(&rt, fs::read(&rt, "full.raw"), &[0x01, 0x02, 0x03]);
    remove(&rt, &["full.txt", "full.wav", "full.raw"]);
}

/// Writes three blocks of one byte each, of an input that is short, to a disk with so many bytes of
/// room, and compares the status.
fn short_run_on_a_disk(
    rt: &(impl Files<File: AsRawFd> + Print + Abort),
    alloc: Global,
    room: u64,
    status: u8,
) {
    make(
        rt,
        "full.txt",
        b"dspfx 1 input wave q7 1 block 1 output raw\n",
    );
    make(rt, "full.wav", SHORT);
    let disk = FullDisk { files: rt, room };
    answers(
        rt,
        alloc,
        &disk,
        &["run", "full.txt", "full.wav", "full.raw"],
        status,
    );
}

/// Commands whose output is a file that they read, by another name.
const REFUSED: &[&[&str]] = &[
    &["run", "kept.txt", "kept.raw", "./kept.raw"],
    &["run", "kept.txt", "kept.raw", "hard.raw"],
    &["run", "kept.txt", "hard.raw", "kept.raw"],
    &["run", "kept.txt", "kept.raw", "soft.raw"],
    &["run", "kept.txt", "soft.raw", "kept.raw"],
    &["run", "kept.txt", "kept.raw", "folder/kept.raw"],
    &["run", "kept.txt", "kept.raw", ".//kept.txt"],
    &["gen", "1", "9", "kept.txt", "./kept.txt"],
    &["gen", "1", "9", "kept.txt", "folder/kept.txt"],
    &["convert", "wave", "au", "kept.wav", "./kept.wav"],
    &["convert", "wave", "au", "kept.wav", "folder/kept.wav"],
];

/// Gives files other names: hard and symbolic links, and a link to their folder.
fn link(rt: &(impl Files + Abort)) {
    fs::hard_link(rt, "kept.raw", "hard.raw").expect(rt, "a file");
    symlink(rt, "kept.raw", "soft.raw").expect(rt, "a file");
    symlink(rt, ".", "folder").expect(rt, "a file");
}

/// Each name of a file that is read as well is refused as an output, and the file stays as it is.
#[test]
fn an_output_that_is_read_stays_as_it_is(rt: HostRuntime) {
    make(&rt, "kept.txt", SCRIPT);
    make(&rt, "kept.raw", &[1, 2, 3, 4]);
    make(&rt, "kept.wav", &SHORT[..46]);
    link(&rt);
    for words in REFUSED {
        answers(&rt, rt.alloc(), &rt, words, 8);
    }
    has(&rt, fs::read(&rt, "kept.txt"), SCRIPT);
    has(&rt, fs::read(&rt, "kept.raw"), &[1, 2, 3, 4]);
    has(&rt, fs::read(&rt, "kept.wav"), &SHORT[..46]);
    remove(
        &rt,
        &[
            "kept.txt", "kept.raw", "kept.wav", "hard.raw", "soft.raw", "folder",
        ],
    );
}
