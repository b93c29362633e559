// What may be replaced, and under which names.
#![tactic(auto)]

ghost use Rattle.std.specs.Prelude.{◌≡◌};
ghost use Rattle.std.specs.List.{list_any};
ghost use Rattle.save_rules.specs.Rules as spec;

/// What is known of a file that is to be replaced.
#[derive(Clone, Copy)]
pub struct Standing {
    /// Whether it is a file, and no folder, device or pipe.
    pub is_plain: bool,
    /// Its permission bits.
    pub mode: u32,
    pub owner: u32,
    pub group: u32,
    /// How many names it has.
    pub links: u64,
    /// The device on which it lies.
    pub device: u64,
}

/// What is known of the folder in which a file is to be replaced.
#[derive(Clone, Copy)]
pub struct FileFolder {
    /// Its permission bits.
    pub mode: u32,
    pub owner: u32,
    pub group: u32,
    /// The device on which it lies.
    pub device: u64,
}

/// Who runs the program.
#[derive(Clone, Copy)]
pub struct User<'a> {
    pub id: u32,
    pub group: u32,
    /// Further groups.
    pub groups: &'a [u32],
    /// Whether this user may give files to other users and to any group.
    pub gives_away: bool,
    /// Whether this user may do with each file what its owner may.
    pub acts_for_owners: bool,
    /// Whether permission bits don't bind this user.
    pub overrides_modes: bool,
}

/// Why a file can't be replaced as it was.
#[derive(Clone, Copy)]
pub enum Harm {
    /// It is a folder, a device or a pipe.
    NoFile,
    /// Nobody may write it.
    NotWritable,
    /// It has further names, which would keep the old file.
    Links,
    /// It lies on another device than its folder: it is mounted there, and no file can take its place.
    Mounted,
    /// Its folder lets only owners rename files, and neither is this user's.
    Guarded,
    /// It is another user's, to whom this one can't give the new file.
    Owner,
    /// It is of a group to which this user can't give the new file.
    Group,
}

/// Whether a group is among others.
fn is_one_of(group: u32, groups: &[u32]) -> bool
    ensures { result ≡ spec.is_one_of group groups.now }
{
    groups.iter().any(|other| *other == group)
}

/// Whether a user is in a group.
fn is_member(user: &User<'_>, group: u32) -> bool
    ensures { result ≡ spec.is_member user.now group }
{
    user.group == group || is_one_of(group, user.groups)
}

/// The permission bits that a user needs to write a folder and to search it: those of the owner, else those of the
/// group's members, else those of the others.
#[tactic(auto, unfolding(crate::specs::Rules::bits_needed))]
fn bits_needed(folder: &FileFolder, user: &User<'_>) -> u32
    ensures { result ≡ spec.bits_needed folder.now user.now }
{
    if user.id == folder.owner {
        return 0o300;
    }
    if is_member(user, folder.group) {
        return 0o030;
    }
    0o003
}

/// Whether permission bits let a user make, rename and remove files in a folder. They don't tell of a file system that
/// is read-only.
#[tactic(auto, unfolding(crate::specs::Rules::may_make_files))]
pub fn may_make_files(folder: &FileFolder, user: &User<'_>) -> bool
    ensures { result ≡ spec.may_make_files folder.now user.now }
{
    let needed = bits_needed(folder, user);
    user.overrides_modes || folder.mode & needed == needed
}

/// Whether a folder with the sticky bit keeps a user from renaming a file that isn't theirs.
fn is_guarded(file: &Standing, folder: &FileFolder, user: &User<'_>) -> bool
    ensures { result ≡ spec.is_guarded file.now folder.now user.now }
{
    folder.mode & 0o1000 != 0
        && !user.acts_for_owners
        && user.id != folder.owner
        && user.id != file.owner
}

/// Why a file of a folder can't be replaced as it was, if it can't. A user who takes files over needn't give them their
/// owners and groups.
#[tactic(auto, unfolding(crate::specs::Rules::harm_of))]
pub fn harm_of(
    file: &Standing,
    folder: &FileFolder,
    user: &User<'_>,
    takes_over: bool,
) -> Option<Harm>
    ensures { result ≡ spec.harm_of file.now folder.now user.now takes_over }
{
    if !file.is_plain {
        return Some(Harm::NoFile);
    }
    if file.mode & 0o222 == 0 {
        return Some(Harm::NotWritable);
    }
    if file.links > 1 {
        return Some(Harm::Links);
    }
    if file.device != folder.device {
        return Some(Harm::Mounted);
    }
    if is_guarded(file, folder, user) {
        return Some(Harm::Guarded);
    }
    if takes_over || user.gives_away {
        return None;
    }
    if user.id != file.owner {
        return Some(Harm::Owner);
    }
    if !is_member(user, file.group) {
        return Some(Harm::Group);
    }
    None
}

/// Whether a byte can't stand in the name of a file in the folder.
fn leads_away(byte: u8) -> bool
    ensures { result ≡ spec.leads_away byte }
{
    byte == b'/' || byte == 0
}

/// Whether a byte among some leads away from the folder.
fn has_one_that_leads_away(name: &[u8]) -> bool
    ensures { result ≡ list_any spec.leads_away name.now }
{
    name.iter().any(|byte| leads_away(*byte))
}

/// Whether a name is that of a file in the folder.
#[tactic(auto, unfolding(crate::specs::Rules::is_in_folder))]
pub fn is_in_folder(name: &[u8]) -> bool
    ensures { result ≡ spec.is_in_folder name.now }
{
    name != b"".as_slice()
        && name != b".".as_slice()
        && name != b"..".as_slice()
        && !has_one_that_leads_away(name)
}

/// Whether a file of a name may stand beside another one as its new file: its name begins with the other's and `.new`.
#[tactic(auto, unfolding(crate::specs::Rules::is_beside))]
pub fn is_beside(name: &[u8], other: &[u8]) -> bool
    ensures { result ≡ spec.is_beside name.now other.now }
{
    let (front, rest) = other.split_at(name.len().min(other.len()));
    front == name && &rest[..rest.len().min(4)] == b".new".as_slice()
}
