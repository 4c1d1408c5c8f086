// Names of files that are no UTF-8. std has no path for them, so they cannot be opened. It lists a folder in octets all the same, and so
// such a file that is missing is told as the system tells it.
use std::io::{Error, Read};
use std::rt::Files;

// Octets of the longest path, and of the longest name in a folder
const LONGEST: usize = 4095;

const LONGEST_NAME: usize = 255;

// The system's numbers of what is said: no such file, too long a name, and octets that are no text
const ENOENT: i32 = 2;

const ENAMETOOLONG: i32 = 36;

const EILSEQ: i32 = 84;

// What a file is opened for: to be read, or made where it is missing, emptied where it is there, and written
#[derive(Clone, Copy)]
pub enum Access {
    Read,
    Create,
}

// Why it is not opened
pub fn unnamed(rt: &HostRuntime, name: &[u8], access: Access) -> Error {
    if LONGEST < name.len() {
        return Error::from_raw_os_error(ENAMETOOLONG);
    }
    let listed = match is_listed(rt, name) {
        Ok(listed) => listed,
        Err(error) => return error,
    };
    match access {
        Access::Read if !listed => Error::from_raw_os_error(ENOENT),
        Access::Read | Access::Create => Error::from_raw_os_error(EILSEQ),
    }
}

// Whether its folder has it, where the folder's name is UTF-8
fn is_listed(rt: &HostRuntime, name: &[u8]) -> Result<bool, Error> {
    match name.iter().rposition(|octet| *octet == b'/') {
        None => has_name(rt, b".", name),
        Some(at) => has_name(rt, &name[..at + 1], &name[at + 1..]),
    }
}

fn has_name(rt: &HostRuntime, folder: &[u8], name: &[u8]) -> Result<bool, Error> {
    let Ok(path) = str::from_utf8(folder) else {
        return Err(Error::from_raw_os_error(EILSEQ));
    };
    let mut names = Vec::new(rt.alloc());
    rt.open_dir(path)?.read_to_end(&mut names)?;
    if LONGEST_NAME < name.len() {
        return Err(Error::from_raw_os_error(ENAMETOOLONG));
    }
    Ok(
        names
            .split(|octet| *octet == 0)
            .any(|listed| listed == name),
    )
}
