//! What a file in memory holds.
use crate::claims::holds;
use goo_cli_registry::memory_file::MemoryFile;
use sqlite_disk::Disk;
use std::alloc::Global;
use std::io::ErrorKind;
use std::process::Abort;

/// A file with two texts, and a gap between them.
fn written(rt: &impl Abort, alloc: Global) -> MemoryFile {
    let mut file = MemoryFile::new(alloc);
    file.write_at(0, b"registry").expect(rt, "room");
    file.write_at(10, b"more").expect(rt, "room");
    file.sync().expect(rt, "a disk");
    holds(rt, file.len().expect(rt, "a length") == 14, "the length");
    let mut read = [7; 6];
    file.read_at(6, &mut read).expect(rt, "a text");
    holds(rt, &read == b"ry\0\0mo", "what was written");
    file
}

/// The file is cut and written again.
fn is_cut(rt: &impl Abort, file: &mut MemoryFile) {
    file.set_len(3).expect(rt, "room");
    file.write_at(1, b"ows").expect(rt, "room");
    let mut read = [7; 4];
    file.read_at(0, &mut read).expect(rt, "a text");
    holds(rt, &read == b"rows", "what was cut");
}

/// Nothing is read at a place that is too near to the end, or beyond it.
fn ends_before(rt: &impl Abort, file: &mut MemoryFile, at: usize) {
    let mut kept = [7; 2];
    match file.read_at(at, &mut kept) {
        Ok(()) => panic!(rt; "read beyond the end"),
        Err(error) => holds(
            rt,
            error.kind() == ErrorKind::UnexpectedEof && &kept == &[7, 7],
            "nothing is read beyond the end",
        ),
    }
}

#[test]
fn what_is_written_is_read_and_nothing_beyond_the_end(rt: HostRuntime) {
    let mut file = written(&rt, rt.alloc());
    is_cut(&rt, &mut file);
    for at in [3, 4, 5, usize::MAX] {
        ends_before(&rt, &mut file, at);
    }
}
