//! The file of a server's socket.

use std::alloc::Global;
use std::fs::{DirBuilder, Permissions};
use std::io::{Eprint, ErrorKind};
use std::net::Net;
use std::os::unix::fs::{DirBuilderExt, FileTypeExt, PermissionsExt};
use std::os::unix::net::{UnixListener, UnixStream};
use std::rt::Files;
use std::{fs, io};
use sysv_connect::complain;
use sysv_options::SocketFile;

/// The mode of a folder that only its owner may use.
const PRIVATE: u32 = 0o700;

/// The name of the socket in the private folder.
const SOCKET: &str = "s";

/// What is said if the file is there already, and may be one that `--replace` removes.
const HINT: &str = " (--replace removes a socket that no server uses)";

/// What is said if `--replace` leaves the file, by the reason.
const SERVED: &str = " (a server listens there)";

const NO_SOCKET: &str = " (not a socket: --replace leaves it)";

const MAY_NOT_REMOVE: &str = " (no permission to remove it)";

const NOT_REMOVED: &str = " (it cannot be removed)";

const MAY_NOT_CONNECT: &str = " (no permission to find out whether a server listens there)";

const NOT_KNOWN: &str = " (--replace cannot find out whether a server listens there)";

/// The names of the files that a server makes.
#[derive(Drop)]
struct Names {
    /// The private folder, in which a socket with a mode is made.
    folder: String,
    /// The socket in it.
    private: String,
}

/// Creates the socket and listens on it. If there is none, the reason is reported on standard
/// error.
pub(crate) fn listen_at<R: Files + Net + Eprint + AllocGlobal + Clone + Drop>(
    rt: &R,
    file: &SocketFile<'_>,
) -> io::Result<UnixListener> {
    let names = names_of(rt.alloc(), file.path)?;
    let hint = if file.replace {
        clear(rt, file.path, &names)
    } else {
        HINT
    };
    match file.mode {
        Some(mode) => bind_with(rt, file, &names, mode, hint),
        None => {
            let outcome = UnixListener::bind(rt, file.path);
            told(rt, file.path, hint, outcome)
        }
    }
}

/// Returns the outcome. If the file `path` is at fault, that is reported on standard error, with
/// the hint if the file is there already.
fn told<T, R: Eprint + AllocGlobal>(
    rt: &R,
    path: &str,
    hint: &str,
    outcome: io::Result<T>,
) -> io::Result<T> {
    if let Err(why) = &outcome {
        complain(rt, path, why, if is_there(why) { hint } else { "" });
    }
    outcome
}

/// Returns whether a file is there already.
fn is_there(why: &io::Error) -> bool {
    matches!(why.kind(), ErrorKind::AddrInUse | ErrorKind::AlreadyExists)
}

/// Removes what a server that was killed has left: the socket, and the private folder if nothing is
/// in it but its socket. A socket on which a server listens stays. Returns why the file at `path`
/// stays, or nothing if it does not.
fn clear<R: Files + Net + AllocGlobal + Clone + Drop>(
    rt: &R,
    path: &str,
    names: &Names,
) -> &'static str {
    let left = remove_unused(rt, path);
    if has_no_other(rt, names) {
        let _ = remove_unused(rt, names.private.as_str());
        let _ = fs::remove_dir(rt, names.folder.as_str());
    }
    left
}

/// Removes the file at `path` if it is a socket on which no server listens. Returns why it stays,
/// or nothing if it does not.
fn remove_unused<R: Files + Net>(rt: &R, path: &str) -> &'static str {
    match fs::symlink_metadata(rt, path) {
        Ok(found) if !found.file_type().is_socket() => return NO_SOCKET,
        Ok(_) => {}
        Err(_) => return "",
    }
    match UnixStream::connect(rt, path) {
        Ok(_) => SERVED,
        Err(why) => match why.kind() {
            ErrorKind::ConnectionRefused => remove(rt, path),
            ErrorKind::WouldBlock => SERVED,
            ErrorKind::PermissionDenied => MAY_NOT_CONNECT,
            _ => NOT_KNOWN,
        },
    }
}

/// Removes the file at `path`. Returns why it stays, or nothing if it does not.
fn remove<R: Files>(rt: &R, path: &str) -> &'static str {
    match fs::remove_file(rt, path) {
        Ok(()) => "",
        Err(why) if why.kind() == ErrorKind::PermissionDenied => MAY_NOT_REMOVE,
        Err(_) => NOT_REMOVED,
    }
}

/// Returns whether the private folder holds nothing but its socket. If it cannot be read, it does
/// not.
fn has_no_other<R: Files + AllocGlobal + Clone + Drop>(rt: &R, names: &Names) -> bool {
    let Ok(mut entries) = fs::read_dir(rt, names.folder.as_str()) else {
        return false;
    };
    entries.all(|entry| entry.is_ok_and(|entry| entry.file_name() == SOCKET))
}

/// Creates a socket with this mode. The socket is created in a private folder beside the path, and
/// is linked to the path once it has the mode, so that it never has another mode there.
fn bind_with<R: Files + Net + Eprint + AllocGlobal>(
    rt: &R,
    file: &SocketFile<'_>,
    names: &Names,
    mode: u32,
    hint: &str,
) -> io::Result<UnixListener> {
    let (folder, private) = (names.folder.as_str(), names.private.as_str());
    let made = DirBuilder::new().mode(PRIVATE).create(rt, folder);
    told(rt, folder, if file.replace { "" } else { hint }, made)?;
    let outcome = bind_in(rt, private, file.path, mode);
    let _ = fs::remove_file(rt, private);
    let _ = fs::remove_dir(rt, folder);
    told(rt, file.path, hint, outcome)
}

/// Returns the names of the files that a server at this path makes.
fn names_of(alloc: Global, path: &str) -> io::Result<Names> {
    Ok(Names {
        folder: format!(in alloc; "{path}.d")?,
        private: format!(in alloc; "{path}.d/{SOCKET}")?,
    })
}

/// Creates a socket with this mode at the path `private`, and links it to `path`.
fn bind_in<R: Files + Net>(
    rt: &R,
    private: &str,
    path: &str,
    mode: u32,
) -> io::Result<UnixListener> {
    let listener = UnixListener::bind(rt, private)?;
    fs::set_permissions(rt, private, Permissions::from_mode(mode))?;
    fs::hard_link(rt, private, path)?;
    Ok(listener)
}
