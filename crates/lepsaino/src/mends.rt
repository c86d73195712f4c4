// lepsaino mend FILE COPY: writes a repaired copy of a dump to a new file, and prints its length and what was mended as one line.
// A refusal and an error are as for a listing, and leave no file.
use crate::shared::{Failure, Fault, argument_count, path_at, read_file};
use console::path_of;
use mending::Mended;
use std::fs::{File, OpenOptions};
use std::io::Write;
use std::{fmt, fs, io};

// The copy's length and the six counts, each under its name.
#[derive(Drop)]
struct Report(Mended);

impl fmt::Display for Report {
    fn fmt<W: fmt::Write>(&self, f: &mut fmt::Formatter<W>) -> fmt::Result {
        let Mended { length, repairs } = self.0;
        write!(
            f,
            "{{\"length\":{length},\"missing\":{},\"current\":{}",
            repairs.missing, repairs.current
        )?;
        write!(
            f,
            ",\"types\":{},\"ids\":{},\"packed\":{},\"moved\":{}}}",
            repairs.types, repairs.ids, repairs.packed, repairs.moved
        )
    }
}

// Writes all bytes, and waits until its device has them.
fn write_whole(file: &mut File, bytes: &[u8]) -> io::Result<()> {
    file.write_all(bytes)?;
    file.sync_all()
}

fn create(rt: &HostRuntime, path: &[u8]) -> io::Result<File> {
    OpenOptions::new()
        .write(true)
        .create_new(true)
        .open(rt, path_of(path)?)
}

fn remove(rt: &HostRuntime, path: &[u8]) -> io::Result<()> {
    fs::remove_file(rt, path_of(path)?)
}

// Fills a new file with these bytes. Where not all can be written it says so, and then none are kept.
fn fill(rt: &HostRuntime, path: &[u8], mut file: File, bytes: &[u8]) -> bool {
    if let Err(error) = write_whole(&mut file, bytes) {
        let failure = Failure {
            what: b"COPY cannot be written",
            error,
        };
        failure.tell(rt);
        let _ = remove(rt, path);
        return false;
    }
    true
}

// Makes a new file of these bytes, and answers whether it keeps them.
fn keep(rt: &HostRuntime, path: &[u8], bytes: &[u8]) -> Result<bool, Failure<'static>> {
    let file = create(rt, path).map_err(|error| Failure {
        what: b"COPY cannot be made",
        error,
    })?;
    Ok(fill(rt, path, file, bytes))
}

// No copy is longer than the space. Nothing is printed where the copy is not kept.
fn mend_dump(rt: &HostRuntime, dump: &[u8], path: &[u8]) -> Result<(), Failure<'static>> {
    let mut space = [0u8; 65536];
    match mender::mend(dump, &mut space) {
        Err(refusal) => {
            let _ = println!(rt; "{refusal}");
        }
        Ok(mended) => {
            if let Some(copy) = space.get(..mended.length) {
                if keep(rt, path, copy)? {
                    let _ = println!(rt; "{}", Report(mended));
                }
            }
        }
    }
    Ok(())
}

fn mend_file<'p>(rt: &HostRuntime, from: &'p [u8], to: &[u8]) -> Result<(), Failure<'p>> {
    let mut space = [0u8; 65537];
    mend_dump(rt, read_file(rt, from, &mut space)?, to)
}

// The spaces for mending are made here, so that a listing does not take them.
#[inline(never)]
pub(crate) fn mend_by_arguments(rt: &HostRuntime) -> Result<(), Fault> {
    if argument_count(rt) != 4 {
        return Err(Fault::Usage("lepsaino mend FILE COPY"));
    }
    let mut from_space = [0u8; 4096];
    let from = path_at(rt, 2, "FILE", &mut from_space)?;
    let mut to_space = [0u8; 4096];
    let to = path_at(rt, 3, "COPY", &mut to_space)?;
    if let Err(failure) = mend_file(rt, from, to) {
        failure.tell(rt);
    }
    Ok(())
}
