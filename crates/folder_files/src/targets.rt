//! Files that a save would replace, looked at before they are read.
#![tactic(auto)]

ghost use Rattle.std.specs.Prelude.{◌≡◌, IfOk, IfSome, string_bytes};
ghost use Rattle.folder_files.specs.Paths.{folder_of_path, name_of_path};

use crate::disk::found_under;
use crate::opening::{Identity, identity_of};
use crate::user::Who;
use save_rules::{FileFolder, Harm, Standing, harm_of, is_in_folder};
use std::alloc::{Alloc, AllocError, Global};
use std::fs::{self, Metadata, OpenOptions};
use std::io::{self, ErrorKind};
use std::os::unix::fs::MetadataExt;
use std::rt::Files as Disk;

/// The most links that are followed from one name.
const LINKS: u32 = 40;

/// Why the files of a run aren't read: what they hold couldn't be saved.
#[derive(Clone, Copy)]
pub enum Hindrance {
    /// Another program has the folder.
    Taken,
    /// A program on a file system without locks has the folder, or had it when it ended.
    LockFile,
    /// The file system knows no locks.
    NoLocks,
    /// The folder can't be read.
    Closed,
    /// No file can be made in the folder.
    NoRoom,
    /// Another program's file stands where a plan would be written.
    Draft,
    /// The file can't be replaced as it was.
    Harm(Harm),
    /// The system lets nobody write the file, or rename it.
    Frozen,
    /// The file is a link that leaves the folder.
    LeavesFolder,
    /// The file is one that was read already, under another name.
    Twice,
    /// The device failed, or memory was refused.
    Disk,
}

/// The file under a name, after links within its folder.
#[derive(Drop)]
pub(crate) struct Target {
    pub(crate) name: String,
    /// What the system says of the file, none if there is none. A save goes by this one look: the new file gets this
    /// owner, group and mode.
    pub(crate) found: Option<Metadata>,
}

impl Target {
    /// Which file it is, none if there is none.
    pub(crate) fn identity(&self) -> Option<Identity> {
        self.found.as_ref().map(|data| identity_of(data))
    }
}

/// A path cut into its folder's, which ends with a slash or is empty, and the name in it.
fn parted(path: &str) -> (&str, &str)
    ensures folder { result.0.now ≡ folder_of_path path.now }
    ensures name { result.1.now ≡ name_of_path path.now }
{
    match path.rfind('/') {
        Some(slash) => path.split_at(slash.saturating_add(1)),
        None => ("", path),
    }
}

/// The path of the folder in which a file of this path stands.
pub(crate) fn folder_of(path: &str) -> &str {
    match parted(path) {
        ("", _) => ".",
        (folder, _) => folder,
    }
}

/// The name to which a link of this name leads; none where it leaves its folder.
fn named_by(alloc: Global, name: &str, link: &str) -> Result<Option<String>, AllocError>
    ensures { IfOk result (λ found. IfSome found (λ next. folder_of_path (string_bytes next)
        ≡ folder_of_path name.now)) }
{
    let link = link.strip_prefix("./").unwrap_or(link);
    if !is_in_folder(link.as_bytes()) {
        return Ok(None);
    }
    let (folder, _) = parted(name);
    Ok(Some(format!(in alloc; "{folder}{link}")?))
}

/// The name of the file to which a link leads next; none where the name isn't that of a link.
fn next_name<R: Disk + Alloc<A = Global>>(rt: &R, name: &str) -> Result<Option<String>, Hindrance>
    ensures { IfOk result (λ found. IfSome found (λ next. folder_of_path (string_bytes next)
        ≡ folder_of_path name.now)) }
{
    match fs::symlink_metadata(rt, name) {
        Ok(data) => {
            if !data.is_symlink() {
                return Ok(None);
            }
        }
        Err(error) => {
            return match error.kind() {
                ErrorKind::NotFound => Ok(None),
                _ => Err(Hindrance::Disk),
            };
        }
    }
    let Ok(path) = fs::read_link(rt, name) else {
        return Err(Hindrance::Disk);
    };
    match named_by(rt.alloc(), name, path.as_str()) {
        Ok(Some(next)) => Ok(Some(next)),
        Ok(None) => Err(Hindrance::LeavesFolder),
        Err(_) => Err(Hindrance::Disk),
    }
}

/// The name behind all links.
fn last_name<R: Disk + Alloc<A = Global>>(rt: &R, name: &str) -> Result<String, Hindrance>
    ensures { IfOk result (λ last. folder_of_path (string_bytes last) ≡ folder_of_path name.now) }
{
    let Ok(mut last) = String::from_str(rt.alloc(), name) else {
        return Err(Hindrance::Disk);
    };
    for _ in 0..LINKS {
        match next_name(rt, last.as_str())? {
            Some(next) => last = next,
            None => return Ok(last),
        }
    }
    Err(Hindrance::Disk)
}

/// The name of a file in its folder.
pub fn name_in_folder(path: &str) -> &str
    ensures { result.now ≡ name_of_path path.now }
{
    let (_, name) = parted(path);
    name
}

/// The path of the file to which a name leads behind links within its folder; none where they lead elsewhere.
pub fn behind_links<R: Disk + Alloc<A = Global>>(rt: &R, name: &str) -> Option<String>
    ensures { IfSome result (λ path. folder_of_path (string_bytes path) ≡ folder_of_path name.now) }
{
    last_name(rt, name).ok()
}

/// What the rules of a save know of a file.
fn standing_of(data: &Metadata) -> Standing {
    Standing {
        is_plain: data.is_file(),
        mode: data.mode(),
        owner: data.uid(),
        group: data.gid(),
        links: data.nlink(),
        device: data.dev(),
    }
}

/// What the rules of a save know of the folder of a file.
pub(crate) fn folder_standing<R: Disk>(rt: &R, name: &str) -> io::Result<FileFolder> {
    let data = fs::metadata(rt, folder_of(name))?;
    Ok(FileFolder {
        mode: data.mode(),
        owner: data.uid(),
        group: data.gid(),
        device: data.dev(),
    })
}

/// The system's number of what is permitted to nobody: a file that is immutable or only grows.
const NOT_PERMITTED: i32 = 1;

/// Whether the system lets nobody write a file, whatever its mode says. The file is opened for reading too, because
/// that doesn't wait for the other end of a pipe.
pub(crate) fn is_frozen<R: Disk>(rt: &R, name: &str) -> bool {
    let mut options = OpenOptions::new();
    options.read(true);
    options.write(true);
    match options.open(rt, name) {
        Ok(_) => false,
        Err(error) => {
            error.raw_os_error() == Some(NOT_PERMITTED)
                || error.kind() == ErrorKind::ReadOnlyFilesystem
        }
    }
}

/// Why a file of a name can't be replaced as it was, if it can't.
fn hindrance_at<R: Disk>(
    rt: &R,
    name: &str,
    data: &Metadata,
    who: &Who,
    takes_over: bool,
) -> Option<Hindrance> {
    let Ok(folder) = folder_standing(rt, name) else {
        return Some(Hindrance::Disk);
    };
    let user = who.user();
    if let Some(harm) = harm_of(&standing_of(data), &folder, &user, takes_over) {
        return Some(Hindrance::Harm(harm));
    }
    if is_frozen(rt, name) {
        return Some(Hindrance::Frozen);
    }
    None
}

/// The file under a name, after links within its folder, whether or not it can be replaced.
pub(crate) fn linked_to<R: Disk + Alloc<A = Global>>(
    rt: &R,
    name: &str,
) -> Result<Target, Hindrance> {
    let name = last_name(rt, name)?;
    match found_under(rt, name.as_str()) {
        Ok(found) => Ok(Target { name, found }),
        Err(_) => Err(Hindrance::Disk),
    }
}

/// Why a file can't be replaced as it was, if it can't. A user who takes files over needn't give them their owners.
pub(crate) fn hindrance_of<R: Disk>(
    rt: &R,
    target: &Target,
    who: &Who,
    takes_over: bool,
) -> Option<Hindrance> {
    let data = target.found.as_ref()?;
    hindrance_at(rt, target.name.as_str(), data, who, takes_over)
}

/// The file under a name, if it can be replaced as it was. A user who takes files over needn't give them their owners.
pub(crate) fn target_of<R: Disk + Alloc<A = Global>>(
    rt: &R,
    name: &str,
    who: &Who,
    takes_over: bool,
) -> Result<Target, Hindrance> {
    let target = linked_to(rt, name)?;
    match hindrance_of(rt, &target, who, takes_over) {
        Some(hindrance) => Err(hindrance),
        None => Ok(target),
    }
}

/// Whether one file stands under two names, behind links.
pub fn is_same_file(rt: &impl Disk, one: &str, other: &str) -> bool {
    match (fs::metadata(rt, one), fs::metadata(rt, other)) {
        (Ok(one), Ok(other)) => one.dev() == other.dev() && one.ino() == other.ino(),
        _ => false,
    }
}
