//! The calls by which a new file takes an old one's place. Each adds its step to the history where it returned `Ok`.
ghost use Rattle.acsub.specs.Swap.{Takes};
ghost use Rattle.acsub.specs.declared.swap.Step.TheVariants.{Created, Owned, Permitted, Renamed, Synced};

use crate::swap::{Step, Swap};
use std::fs::{self, Metadata, OpenFile, OpenOptions};
use std::io;
use std::os::unix::fs::{MetadataExt, OpenOptionsExt, lchown};
use std::rt::Files;

/// Makes a file that only its owner may read and write, where there is none of this name.
pub fn create<F: Files>(rt: &F, path: &str, swap: &mut Swap) -> io::Result<F::File>
    ensures { Takes Created swap.old swap.new result }
{
    let mut how = OpenOptions::new();
    how.write(true).create_new(true).mode(0o600);
    match how.open(rt, path) {
        Ok(file) => {
            *swap = swap.and(&Step::Created);
            Ok(file)
        }
        Err(error) => Err(error),
    }
}

/// Gives a new file the owner and the group of the old one, where it has others.
pub fn keep_owner<F: Files>(
    rt: &F,
    path: &str,
    new: &Metadata,
    old: &Metadata,
    swap: &mut Swap,
) -> io::Result<()>
    ensures { Takes Owned swap.old swap.new result }
{
    let user = (new.uid() != old.uid()).then_some(old.uid());
    let group = (new.gid() != old.gid()).then_some(old.gid());
    if user.is_some() || group.is_some() {
        if let Err(error) = lchown(rt, path, user, group) {
            return Err(error);
        }
    }
    *swap = swap.and(&Step::Owned);
    Ok(())
}

/// Gives a new file the permissions of the old one.
pub fn permit<F: Files>(rt: &F, path: &str, old: &Metadata, swap: &mut Swap) -> io::Result<()>
    ensures { Takes Permitted swap.old swap.new result }
{
    match fs::set_permissions(rt, path, old.permissions()) {
        Ok(()) => {
            *swap = swap.and(&Step::Permitted);
            Ok(())
        }
        Err(error) => Err(error),
    }
}

/// Writes the bytes of a new file through.
pub fn sync<T: OpenFile>(file: &T, swap: &mut Swap) -> io::Result<()>
    ensures { Takes Synced swap.old swap.new result }
{
    match file.sync_all() {
        Ok(()) => {
            *swap = swap.and(&Step::Synced);
            Ok(())
        }
        Err(error) => Err(error),
    }
}

/// Gives a new file the name of the old one, which is gone then.
pub fn rename<F: Files>(rt: &F, new: &str, old: &str, swap: &mut Swap) -> io::Result<()>
    ensures { Takes Renamed swap.old swap.new result }
{
    match fs::rename(rt, new, old) {
        Ok(()) => {
            *swap = swap.and(&Step::Renamed);
            Ok(())
        }
        Err(error) => Err(error),
    }
}
