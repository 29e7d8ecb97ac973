// Tests of files and sinks, in memory and at the edge.
use edge_io::{
    DiskFiles, Files, LONGEST_FILE, MemFiles, MemSink, OutSink, PutFault, ReadFault, Sink,
    SureFiles, SureSink, WriteFault,
};
use frp_tree::List;
use std::alloc::{AllocError, Global};
use std::fmt::Display;
use std::test::Fail;
use std::{fs, io, process};

fn numbers(alloc: Global, all: &[u32]) -> Result<List<u32>, AllocError> {
    let mut list = List::new(alloc);
    list.extend_from_slice(all)?;
    Ok(list)
}

/// A standard output that takes just these bytes, in one call; where there are none, a closed one.
#[derive(Clone, Copy)]
struct Expecting<'a>(Option<&'a [u8]>);

impl Print for Expecting<'_> {
    fn print<D: Display + Drop>(&self, _value: D) -> io::Result<()> {
        self.write_all(b"")
    }

    fn println<D: Display + Drop>(&self, _value: D) -> io::Result<()> {
        self.write_all(b"")
    }

    fn write_all(&self, bytes: &[u8]) -> io::Result<()> {
        match self.0 {
            Some(expected) if bytes == expected => Ok(()),
            Some(_) => Err(io::Error::from(io::ErrorKind::InvalidInput)),
            None => Err(io::Error::from(io::ErrorKind::BrokenPipe)),
        }
    }
}

/// Writes a file over another, and reads it.
fn rewritten<F: Files>(files: &mut F, alloc: Global, name: &str) -> Result<List<u8>, Fail> {
    files.write(alloc, name, b"first")?;
    files.write(alloc, name, b"then")?;
    Ok(files.read(alloc, name)?)
}

type Faults = (Option<ReadFault>, Option<ReadFault>, Result<(), WriteFault>);

/// What is answered where a file that isn't there is read, and where one that fails is read and written.
fn faults<F: Files>(files: &mut F, alloc: Global, missing: &str, failing: &str) -> Faults {
    let absent = files.read(alloc, missing).err();
    let unread = files.read(alloc, failing).err();
    (absent, unread, files.write(alloc, failing, b"lost"))
}

const FAULTS: Faults = (
    Some(ReadFault::Missing),
    Some(ReadFault::Failed),
    Err(WriteFault::Failed),
);

fn greet<S: Sink>(sink: &mut S, alloc: Global) -> Result<(), PutFault> {
    sink.put(alloc, b"good ")?;
    sink.put(alloc, b"day\n")
}

#[test]
fn files_fail_at_their_numbers(rt: HostRuntime) -> Result<(), Fail> {
    let alloc = rt.alloc();
    let mut files = MemFiles::new(alloc, numbers(alloc, &[0, 1, 2])?);
    files.place(alloc, "a", b"old")?;
    assert_eq!(rt; faults(&mut files, alloc, "b", "a"), FAULTS);
    assert_eq!(rt; files.file("a"), Some(b"old".as_slice()));
    assert_eq!(rt;
        rewritten(&mut files, alloc, "a")?.as_slice(),
        b"then".as_slice()
    );
    Ok(())
}

#[test]
fn sure_files_keep_what_is_written(rt: HostRuntime) -> Result<(), Fail> {
    let mut files = SureFiles::new(rt.alloc());
    files.place(rt.alloc(), "a", b"kept")?;
    assert_eq!(rt;
        rewritten(&mut files, rt.alloc(), "b")?.as_slice(),
        b"then".as_slice()
    );
    assert_eq!(rt; files.file("a"), Some(b"kept".as_slice()));
    Ok(())
}

#[test]
fn sinks_take_bytes(rt: HostRuntime) -> Result<(), Fail> {
    let alloc = rt.alloc();
    let mut sure = SureSink::new(alloc);
    greet(&mut sure, alloc)?;
    assert_eq!(rt; sure.taken(), b"good day\n".as_slice());
    let mut failing = MemSink::new(alloc, numbers(alloc, &[1])?);
    assert_eq!(rt; greet(&mut failing, alloc), Err(PutFault::Failed));
    failing.put(alloc, b"night")?;
    assert_eq!(rt; failing.taken(), b"good night".as_slice());
    Ok(())
}

#[test]
fn standard_output_takes_bytes(rt: HostRuntime) -> Result<(), Fail> {
    greet(&mut OutSink::new(&rt), rt.alloc())?;
    let closed = greet(&mut OutSink::new(&Expecting(None)), rt.alloc());
    assert_eq!(rt; closed, Err(PutFault::Failed));
    Ok(())
}

#[test]
fn standard_output_is_given_all_bytes(rt: HostRuntime) -> Result<(), Fail> {
    let alloc = rt.alloc();
    let text = b"good day\n";
    OutSink::new(&Expecting(Some(text))).put(alloc, text)?;
    let other = OutSink::new(&Expecting(Some(b"good"))).put(alloc, text);
    assert_eq!(rt; other, Err(PutFault::Failed));
    Ok(())
}

/// Whether a file of the greatest length is read, and one byte more is too long.
fn reads_the_longest<F: Files>(files: &mut F, alloc: Global, name: &str) -> Result<bool, Fail> {
    let mut bytes = vec![in alloc; 7u8; LONGEST_FILE]?;
    files.write(alloc, name, bytes.as_slice())?;
    let length = files.read(alloc, name)?.len();
    bytes.push(7)?;
    files.write(alloc, name, bytes.as_slice())?;
    Ok(length == LONGEST_FILE && files.read(alloc, name).err() == Some(ReadFault::TooLong))
}

#[test]
fn the_longest_file_is_read(rt: HostRuntime) -> Result<(), Fail> {
    let mut files = SureFiles::new(rt.alloc());
    assert!(rt; reads_the_longest(&mut files, rt.alloc(), "long")?);
    Ok(())
}

#[test]
fn disk_files_are_written_and_read(rt: HostRuntime) -> Result<(), Fail> {
    let alloc = rt.alloc();
    let path = format!(in alloc; "/tmp/edge_io-{}", process::id(rt.process()))?;
    let mut files = DiskFiles::new(&rt);
    assert_eq!(rt;
        rewritten(&mut files, alloc, path.as_str())?.as_slice(),
        b"then".as_slice()
    );
    assert!(rt; reads_the_longest(&mut files, alloc, path.as_str())?);
    fs::remove_file(&rt, path)?;
    Ok(())
}

// A name behind a file can't be opened, which is no missing file.
#[test]
fn a_file_is_no_folder(rt: HostRuntime) -> Result<(), Fail> {
    let alloc = rt.alloc();
    let mut files = DiskFiles::new(&rt);
    let path = format!(in alloc; "/tmp/edge_io-file-{}", process::id(rt.process()))?;
    let inside = format!(in alloc; "{}/x", path.as_str())?;
    files.write(alloc, path.as_str(), b"here")?;
    let told = faults(&mut files, alloc, "/no such folder/file", inside.as_str());
    assert_eq!(rt; told, FAULTS);
    let kept = files.read(alloc, path.as_str())?;
    assert_eq!(rt; kept.as_slice(), b"here".as_slice());
    fs::remove_file(&rt, path)?;
    Ok(())
}

#[test]
fn a_folder_is_no_file(rt: HostRuntime) {
    let mut files = DiskFiles::new(&rt);
    assert_eq!(rt;
        faults(&mut files, rt.alloc(), "/no such folder/file", "/"),
        FAULTS
    );
}
