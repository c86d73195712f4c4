// What the listing and mending share: what is wrong with the arguments, what failed with a file, an argument, and a file's bytes.
ghost use Rattle.std.specs.Prelude.{◌≡◌, ◌≤◌, ◌↔◌, [], ◌∷◌, IsTrue};

use console::{fail, open_file};
use std::env::{Env, FillError};
use std::io::Read;
use std::{fmt, io};

// What is wrong with the arguments.
#[derive(Clone, Copy)]
pub(crate) enum Fault {
    Usage(&'static str),
    Path(&'static str),
    Number {
        called: &'static str,
        least: u64,
        most: u64,
    },
    TwoDashes,
}

impl fmt::Display for Fault {
    fn fmt<W: fmt::Write>(&self, f: &mut fmt::Formatter<W>) -> fmt::Result {
        match self {
            Fault::Usage(forms) => write!(f, "usage: {forms}; lepsaino --help says more"),
            Fault::Path(called) => write!(f, "{called}'s name is empty, or longer than 4096 bytes"),
            Fault::Number {
                called,
                least,
                most,
            } => write!(f, "{called} is no decimal number from {least} to {most}"),
            Fault::TwoDashes => write!(f, "FILE and NAMES cannot both be a dash"),
        }
    }
}

// What failed with a file, and the system's reason.
#[derive(Drop)]
pub(crate) struct Failure<'a> {
    pub what: &'a [u8],
    pub error: io::Error,
}

impl Failure<'_> {
    // One line on standard error.
    pub(crate) fn tell(self, rt: &HostRuntime) {
        fail(rt, self.what, self.error);
    }
}

// The bytes of an argument; none where it is not there, or has more than there is room for.
pub(crate) fn argument<'a>(rt: &HostRuntime, i: usize, space: &'a mut [u8]) -> Option<&'a [u8]> {
    let length = rt.arg(i, space).ok()?;
    Some(&space[..length])
}

// The path in an argument.
pub(crate) fn path_at<'a>(
    rt: &HostRuntime,
    i: usize,
    called: &'static str,
    space: &'a mut [u8],
) -> Result<&'a [u8], Fault> {
    argument(rt, i, space)
        .filter(|path| !path.is_empty())
        .ok_or(Fault::Path(called))
}

fn is_given(rt: &HostRuntime, i: usize) -> bool {
    !matches!(rt.arg(i, &mut []), Err(FillError::NotPresent))
}

// How many arguments there are, the program's name among them; of more than seven it counts seven.
pub(crate) fn argument_count(rt: &HostRuntime) -> usize
    ensures { result ≤ 7 }
{
    for i in 0..7 {
        if !is_given(rt, i) {
            return i;
        }
    }
    7
}

// Reads until the space is full or the file ends. One byte more than a dump may have is room enough.
fn read_all<'a, R: Read>(file: &mut R, space: &'a mut [u8]) -> io::Result<&'a [u8]> {
    let mut done = 0;
    // No range counts the turns: how far each goes the read before it says.
    while done < space.len() {
        match file.read(&mut space[done..])? {
            0 => break,
            more => done += more,
        }
    }
    Ok(&space[..done])
}

pub(crate) fn is_dash(path: &[u8]) -> bool
    ensures { IsTrue result ↔ (path.now ≡ 45 ∷ []) }
{
    path == b"-".as_slice()
}

// Standard input has no path: by a path of its own, as /dev/stdin, it would be read from its start anew.
fn read_path<'a>(rt: &HostRuntime, path: &[u8], space: &'a mut [u8]) -> io::Result<&'a [u8]> {
    if is_dash(path) {
        return read_all(&mut rt.stdin(), space);
    }
    read_all(&mut open_file(rt, path)?, space)
}

// The bytes of the file at a path, or of standard input where the path is a dash.
pub(crate) fn read_file<'a, 'p>(
    rt: &HostRuntime,
    path: &'p [u8],
    space: &'a mut [u8],
) -> Result<&'a [u8], Failure<'p>> {
    let what = if is_dash(path) {
        b"standard input".as_slice()
    } else {
        path
    };
    read_path(rt, path, space).map_err(|error| Failure { what, error })
}
