use pv_base::{Files, GoodFiles, GoodSink, ReadFault, RealErr, RealFiles, RealOut, Sink};
use std::alloc::Global;
use std::process::Abort;
use std::{env, fs, process};

/// Whether a read of this name answers these bytes.
fn gives<F: Files>(files: &mut F, alloc: Global, name: &str, bytes: &[u8]) -> bool {
    let mut into = Vec::new(alloc);
    files.read(alloc, name, &mut into).is_ok() && into.as_slice() == bytes
}

/// Whether a read of this name fails, and leaves nothing.
fn fails<F: Files>(files: &mut F, alloc: Global, name: &str) -> bool {
    let mut into = Vec::new(alloc);
    let answer = files.read(alloc, name, &mut into);
    matches!(answer, Err(ReadFault::Failed)) && into.is_empty()
}

/// Whether a read of this name is refused as too long, and leaves these bytes.
fn is_too_long<F: Files>(files: &mut F, alloc: Global, name: &str, bytes: &[u8]) -> bool {
    let mut into = Vec::new(alloc);
    let answer = files.read(alloc, name, &mut into);
    matches!(answer, Err(ReadFault::TooLong)) && into.as_slice() == bytes
}

/// This many bytes. Fewer of them are a prefix of more of them.
fn counted(rt: &impl Abort, alloc: Global, length: usize) -> Vec<u8> {
    let mut bytes = vec![in alloc; 0; length].expect(rt, "memory");
    for (place, byte) in bytes.iter_mut().enumerate() {
        *byte = (place % 251) as u8;
    }
    bytes
}

#[test]
fn good_files_never_fail(rt: HostRuntime) {
    let alloc = rt.alloc();
    let mut files = GoodFiles::new(alloc).expect(&rt, "memory");
    files.add("model", b"first").expect(&rt, "memory");
    files.add("model", b"second").expect(&rt, "memory");
    assert!(rt; gives(&mut files, alloc, "model", b"second"));
    assert!(rt; gives(&mut files, alloc, "report", b""));
}

#[test]
fn a_good_sink_takes_all(rt: HostRuntime) {
    let mut sink = GoodSink::new();
    assert!(rt; sink.put(b"abcd").is_ok());
    assert!(rt; GoodSink::default().put(b"").is_ok());
}

#[test]
fn the_real_ones_read_and_write(rt: HostRuntime) {
    let alloc = rt.alloc();
    let folder = env::temp_dir(&rt).expect(&rt, "a folder");
    let process = process::id(rt.process());
    let name = format!(in alloc; "{}/pv_base-{process}", folder.display()).expect(&rt, "memory");
    let mut files = RealFiles::new(&rt);
    assert!(rt; fails(&mut files, alloc, &name));
    for length in [0, 1, 4096, 4097, 1_048_576] {
        let bytes = counted(&rt, alloc, length);
        fs::write(&rt, &name, &bytes).expect(&rt, "a file");
        assert!(rt; gives(&mut files, alloc, &name, &bytes), "{length}");
    }
    fs::write(&rt, &name, &counted(&rt, alloc, 1_048_578)).expect(&rt, "a file");
    let begun = counted(&rt, alloc, 1_048_577);
    let is_long = is_too_long(&mut files, alloc, &name, &begun);
    fs::remove_file(&rt, &name).expect(&rt, "the file");
    assert!(rt; is_long);
}

#[test]
fn the_real_sinks_write(rt: HostRuntime) {
    let mut out = RealOut::new(rt.stdout());
    assert!(rt; out.put(b"to standard output\n").is_ok());
    assert!(rt; RealErr::new(rt.stderr()).put(b"").is_ok());
}
