use crate::{
    Files, LoadFault, MemFiles, MemSink, PutAllFault, PutFault, RealFiles, RealOut, Sink, put_all,
};
use std::alloc::{AllocError, Global};
use std::test::Fail;
use std::{env, fs, process};

fn loaded<F: Files>(
    files: &mut F,
    alloc: Global,
    name: &str,
    most: usize,
) -> Result<Vec<u8>, LoadFault> {
    files.load(alloc, name, most)
}

fn put<K: Sink>(out: &mut K, bytes: &[u8]) -> Result<usize, PutFault> {
    out.put(bytes)
}

fn file(alloc: Global, name: &str, bytes: &[u8]) -> Result<(String, Vec<u8>), AllocError> {
    Ok((
        String::from_str(alloc, name)?,
        Vec::from_slice(alloc, bytes)?,
    ))
}

#[test]
fn loads_from_memory(rt: HostRuntime) -> Result<(), Fail> {
    let alloc = rt.alloc();
    let mut held = Vec::new(alloc);
    held.push(file(alloc, "a", b"first")?)?;
    held.push(file(alloc, "a", b"second")?)?;
    let mut failing = Vec::new(alloc);
    failing.push(1)?;
    let mut files = MemFiles::new(alloc, held, failing);
    assert_eq!(rt;
        loaded(&mut files, alloc, "a", 3)?.as_slice(),
        b"fir".as_slice()
    );
    assert!(rt; loaded(&mut files, alloc, "a", 9).is_err());
    assert_eq!(rt;
        loaded(&mut files, alloc, "a", 9)?.as_slice(),
        b"first".as_slice()
    );
    assert!(rt; loaded(&mut files, alloc, "b", 9).is_err());
    assert_eq!(rt; files.asked().len(), 4);
    Ok(())
}

#[test]
fn puts_to_memory(rt: HostRuntime) -> Result<(), Fail> {
    let alloc = rt.alloc();
    let mut failing = Vec::new(alloc);
    failing.push(2)?;
    let mut out = MemSink::new(alloc, 2, failing);
    assert_eq!(rt; put_all(&mut out, b"abc"), Ok(()));
    assert_eq!(rt; put(&mut out, b""), Ok(0));
    assert_eq!(rt; put_all(&mut out, b"de"), Err(PutAllFault::Write));
    assert_eq!(rt; put(&mut out, b"fgh"), Ok(2));
    assert_eq!(rt; out.bytes(), b"abcfg".as_slice());
    Ok(())
}

#[test]
fn loads_a_real_file(rt: HostRuntime) -> Result<(), Fail> {
    let alloc = rt.alloc();
    let name = format!(in alloc; "vg_io-test-{}", process::id(rt.process()))?;
    let path = env::temp_dir(&rt)?.join(alloc, name.as_str())?;
    fs::write(&rt, path.as_path(), "some text")?;
    let mut files = RealFiles::new(alloc, &rt);
    let whole = loaded(&mut files, alloc, path.as_str(), 100);
    let part = loaded(&mut files, alloc, path.as_str(), 4);
    fs::remove_file(&rt, path.as_path())?;
    let missing = loaded(&mut files, alloc, path.as_str(), 100);
    assert_eq!(rt; whole?.as_slice(), b"some text".as_slice());
    assert_eq!(rt; part?.as_slice(), b"some".as_slice());
    assert!(rt; missing.is_err_and(|fault| fault == LoadFault::Failed));
    Ok(())
}

#[test]
fn puts_to_the_real_output(rt: HostRuntime) {
    let mut out = RealOut::new(&rt);
    assert_eq!(rt; put(&mut out, b""), Ok(0));
    assert_eq!(rt; put_all(&mut out, b"short\n"), Ok(()));
}
