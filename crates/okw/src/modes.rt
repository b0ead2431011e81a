//! The owner, group and mode of a file that is replaced, for the file in its place.
use std::fs::{File, Metadata, Permissions};
use std::io;
use std::os::unix::fs::{MetadataExt, PermissionsExt, fchown};

fn set_mode(file: &File, mode: u32) -> io::Result<()> {
    file.set_permissions(Permissions::from_mode(mode))
}

/// Owner and group, then the mode, since a change of owner takes bits from it. Where the process may not give the owner, it gives the group, and the file
/// has no set-user and set-group bits; where it may not give the group either, the group may do what everyone may.
fn give(file: &File, known: &Metadata) -> io::Result<()> {
    let mode = known.mode();
    if fchown(file, Some(known.uid()), Some(known.gid())).is_ok() {
        return set_mode(file, mode & 0o7777);
    }
    if fchown(file, None, Some(known.gid())).is_ok() {
        return set_mode(file, mode & 0o777);
    }
    set_mode(file, (mode & 0o707) | ((mode & 7) << 3))
}

/// Gives the file at new the owner, where the process may, the group and the mode of the one at old.
pub(crate) fn keep(old: &File, new: &File) -> io::Result<()> {
    give(new, &old.metadata()?)
}
