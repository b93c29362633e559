//! A folder whose files are replaced all together, or not at all.
#![tactic(auto)]

ghost use Rattle.std.specs.Prelude.{◌≡◌, ◌<◌, ◌≤◌, ℕ, None, IfErr, IfOk, IfSome, IsOk, map};
ghost use Rattle.file_access.specs.Holding.{Rose};
ghost use Rattle.folder_files.specs.Handed.{FailsBelow, count_handed, failures_behind, failures_of, name_handed};
ghost use Rattle.folder_files.specs.Handed.{sum_told, sums_to_be, why_unread};

use crate::backup::{copy_bytes, make_folder, sync_copies};
use crate::disk::{
    Old, Summed, fresh_name, holds, remove_made, sum_of_file, sync_folder, write_new,
};
use crate::folder::{Doing, Folder, Listener};
use crate::opening::{Identity, is_still};
use crate::papers::{Written, put_paper, remove_draft, remove_paper};
use crate::targets::{Hindrance, Target, target_of};
use crate::user::Who;
use file_access::{Device, Files, ReadFault};
use journal_papers::FileSum;
use save_papers::{PaperEntry, SavePaper, sum_of};
use save_rules::{HandedIn, files_replaced};
use save_steps::{Paper, Slot, Step, Sum, steps_of_finish, steps_of_save};
use std::alloc::{Alloc, AllocError, Global};
use std::fs::{self, File, Metadata};
use std::io::{self, ErrorKind};
use std::rt::Files as Disk;

/// A file that was read: its name, what stands under it, and what it held, none where there was no such file.
#[derive(Drop)]
struct Loaded {
    name: String,
    target: Target,
    bytes: Option<Vec<u8>>,
}

/// A file that is to be replaced: its name, the name behind its links, and its new bytes.
#[derive(Drop)]
struct Pending {
    name: String,
    target: String,
    bytes: Vec<u8>,
}

/// On which terms files are replaced.
#[derive(Clone, Copy)]
pub struct SaveTerms<'a> {
    /// Why no table may be read, if none may.
    pub closed: Option<Hindrance>,
    /// Whether a new file is the user's where it can't be given to the old one's owner and group.
    pub takes_over: bool,
    /// The folder to which all that is replaced is copied first.
    pub backup: Option<&'a str>,
    /// Whether files stay whose records, or keys, are those that were read.
    pub keep_unchanged: bool,
}

/// Why files aren't replaced, or not all of them. A file goes by its number in the order in which they were handed in.
#[derive(Clone, Copy)]
pub enum Unsaved {
    /// Another program has changed the file since it was read: no file is replaced.
    Changed { file: usize },
    /// The device failed: no file is replaced.
    Disk { file: usize },
    /// The old files couldn't be copied to the other folder: no file is replaced.
    Backup,
    /// The device failed behind the note: what comes next finishes the save.
    Cut { file: usize },
    /// Memory was refused: no file is replaced.
    Memory,
}

/// The files of the folder in which the program runs. A file that is replaced keeps its old bytes until `commit`, which
/// replaces all of them or none: until then its new bytes stand in memory.
#[derive(Drop)]
pub struct SavingFolder<'a, R, L> {
    folder: Folder<'a, R, L>,
    terms: SaveTerms<'a>,
    who: Who,
    /// Why a file wasn't read, where what it holds couldn't be saved.
    hindrance: Option<Hindrance>,
    loaded: Vec<Loaded>,
    pending: Vec<Pending>,
}

/// How far a save has come.
#[derive(Drop)]
struct Progress {
    paper: SavePaper,
    /// The files of the plan, each by its number among those that were handed in.
    files: Vec<usize>,
    /// The names of the new files.
    besides: Vec<String>,
    /// Which files the new ones are that were made, in the order of the plan.
    made: Vec<Identity>,
    /// Whether the note may stand.
    noted: bool,
}

impl<'a, R: Disk<File = File> + Alloc<A = Global>, L: Listener> SavingFolder<'a, R, L> {
    /// The folder, of which nothing was read yet and nothing is to be replaced. To read a table or an index that
    /// couldn't be saved on these terms is a failure of the device.
    pub fn new(folder: Folder<'a, R, L>, terms: SaveTerms<'a>) -> SavingFolder<'a, R, L>
        ensures nothing { count_handed result ≡ 0 }
        ensures hindrance { why_unread result ≡ None }
        ensures failures { failures_behind result ≡ failures_of folder.entry }
    {
        let alloc = folder.rt.alloc();
        let who = Who::now(folder.rt);
        SavingFolder {
            folder,
            terms,
            who,
            hindrance: None,
            loaded: Vec::new(alloc),
            pending: Vec::new(alloc),
        }
    }

    /// Why a file wasn't read, where what it holds couldn't be saved.
    pub fn hindrance(&self) -> Option<Hindrance>
        ensures { result ≡ why_unread self.now }
    {
        self.hindrance
    }

    /// The names of the files that are to be replaced, and the sums of what they are to hold.
    pub fn new_sums(&self) -> Result<Vec<FileSum>, AllocError>
        ensures { IfOk result (λ sums. map sum_told sums.items ≡ sums_to_be self.now) }
    {
        let alloc = self.folder.rt.alloc();
        let mut sums = Vec::new(alloc);
        for pending in &self.pending {
            let name = String::from_str(alloc, pending.name.as_str())?;
            let sum = Some(sum_of(pending.bytes.as_slice()));
            sums.push(FileSum { name, sum })?;
        }
        Ok(sums)
    }

    /// The name of a file that is to be replaced, by its number; a hyphen where there is none.
    pub fn name_of(&self, file: usize) -> &str
        ensures { result.now ≡ name_handed self.now file }
    {
        match self.pending.get(file) {
            Some(pending) => pending.name.as_str(),
            None => "-",
        }
    }

    /// Whether a file is one that was read already, under another name.
    fn was_read(&self, target: &Target) -> bool {
        self.loaded.iter().any(|loaded| {
            loaded.target.name.as_str() == target.name.as_str()
                || (target.found.is_some() && loaded.target.identity() == target.identity())
        })
    }

    /// The file under a name, if what it holds could be saved.
    fn looked_at(&self, name: &str) -> Result<Target, Hindrance> {
        if let Some(closed) = self.terms.closed {
            return Err(closed);
        }
        let target = target_of(self.folder.rt, name, &self.who, self.terms.takes_over)?;
        if self.was_read(&target) {
            return Err(Hindrance::Twice);
        }
        Ok(target)
    }

    /// Remembers what a file held when it was read, because a save compares it with what the file holds then.
    fn note(&mut self, name: &str, target: Target, held: Option<&[u8]>) -> Result<(), AllocError>
        ensures { self.new.folder.failures ≡ self.old.folder.failures }
    {
        self.folder.listener.found(name, held)?;
        let alloc = self.folder.rt.alloc();
        let name = String::from_str(alloc, name)?;
        let bytes = match held {
            Some(held) => Some(Vec::from_slice(alloc, held)?),
            None => None,
        };
        self.loaded.push(Loaded {
            name,
            target,
            bytes,
        })?;
        Ok(())
    }

    /// Remembers what a file holds that was read, or that there is no such file. One that is too long is told.
    fn note_read(
        &mut self,
        name: &str,
        target: Target,
        read: &Result<Vec<u8>, ReadFault>,
    ) -> Result<(), AllocError>
        ensures { self.new.folder.failures ≡ self.old.folder.failures }
    {
        match read {
            Ok(bytes) => self.note(name, target, Some(bytes.as_slice())),
            Err(ReadFault::Absent) => self.note(name, target, None),
            Err(ReadFault::TooLong) => self.folder.listener.found_long(name),
            Err(ReadFault::Device | ReadFault::Memory) => Ok(()),
        }
    }

    /// Tells what a file that was read holds, that there is no such file, or that it is too long.
    fn tell_found(&self, name: &str, read: &Result<Vec<u8>, ReadFault>) -> Result<(), AllocError> {
        match read {
            Ok(bytes) => self.folder.listener.found(name, Some(bytes.as_slice())),
            Err(ReadFault::Absent) => self.folder.listener.found(name, None),
            Err(ReadFault::TooLong) => self.folder.listener.found_long(name),
            Err(ReadFault::Device | ReadFault::Memory) => Ok(()),
        }
    }

    /// Notes why a file isn't read, and fails.
    fn hinder(&mut self, hindrance: Hindrance) -> ReadFault
        ensures fault { result ≡ ReadFault.Device }
        ensures rose { Rose self.old.folder.failures self.new.folder.failures }
        ensures counted { self.old.folder.failures ≤ self.new.folder.failures }
    {
        self.hindrance = Some(hindrance);
        self.folder.fail()
    }

    /// The name of the file that is to be replaced, behind the links of this one.
    fn target_name(&self, name: &str) -> Result<String, AllocError> {
        let alloc = self.folder.rt.alloc();
        for loaded in &self.loaded {
            if loaded.name.as_str() == name {
                return String::from_str(alloc, loaded.target.name.as_str());
            }
        }
        String::from_str(alloc, name)
    }

    /// What a file is to hold that gets these bytes: what it held when it was read, if the terms say that files stay
    /// whose records or keys the program didn't change, and this is one.
    fn to_hold(&self, name: &str, bytes: Vec<u8>) -> Result<Vec<u8>, AllocError> {
        let Some(
            Loaded {
                bytes: Some(read),
                ..
            },
        ) = self.loaded(name)
        else {
            return Ok(bytes);
        };
        let alloc = self.folder.rt.alloc();
        let file = HandedIn {
            name: name.as_bytes(),
            read: Some(read.as_slice()),
            new: bytes.as_slice(),
        };
        if files_replaced(alloc, &[file], self.terms.keep_unchanged)?.is_empty() {
            return read.clone();
        }
        Ok(bytes)
    }

    /// Remembers what a file is to hold.
    fn hand_in(&mut self, name: &str, bytes: Vec<u8>) -> Result<(), AllocError>
        ensures { self.new.folder.failures ≡ self.old.folder.failures }
    {
        let alloc = self.folder.rt.alloc();
        let bytes = self.to_hold(name, bytes)?;
        let target = self.target_name(name)?;
        let name = String::from_str(alloc, name)?;
        self.pending.push(Pending {
            name,
            target,
            bytes,
        })?;
        Ok(())
    }

    /// The file of that name, if it was read.
    fn loaded(&self, name: &str) -> Option<&Loaded> {
        self.loaded
            .iter()
            .find(|loaded| loaded.name.as_str() == name)
    }

    /// What the file of that name held when it was read; none if there was no such file, or it wasn't read.
    fn read_of(&self, name: &str) -> Option<&[u8]> {
        match self.loaded(name) {
            Some(
                Loaded {
                    bytes: Some(read),
                    ..
                },
            ) => Some(read.as_slice()),
            _ => None,
        }
    }

    /// The files that are to be replaced, by their numbers among those that were handed in: those that are to hold
    /// other bytes than were read. `to_hold` has compared records and keys where the terms ask for it.
    fn replaced(&self) -> Result<Vec<usize>, AllocError> {
        let alloc = self.folder.rt.alloc();
        let mut files = Vec::new(alloc);
        for pending in &self.pending {
            files.push(HandedIn {
                name: pending.name.as_bytes(),
                read: self.read_of(pending.name.as_str()),
                new: pending.bytes.as_slice(),
            })?;
        }
        files_replaced(alloc, files.as_slice(), false)
    }

    /// The checksum of what a file held when it was read, or of what it holds now if it wasn't. A file that is longer
    /// than any that a save writes can't be replaced.
    fn old_sum(&self, pending: &Pending) -> io::Result<Option<Sum>> {
        match self.loaded(pending.name.as_str()) {
            Some(Loaded { bytes, .. }) => Ok(bytes.as_ref().map(|held| sum_of(held.as_slice()))),
            None => sum_now(self.folder.rt, pending.target.as_str()),
        }
    }

    /// A file's name and its new file's, and the sums of what it held and is to hold.
    fn entry_of(&self, file: usize, pending: &Pending, beside: &str) -> Result<PaperEntry, Unsaved>
        ensures { file < count_handed self.now → IfErr result (FailsBelow (count_handed self.now)) }
    {
        let alloc = self.folder.rt.alloc();
        let Ok(old) = self.old_sum(pending) else {
            return Err(Unsaved::Disk { file });
        };
        let (Ok(name), Ok(beside)) = (
            Vec::from_slice(alloc, pending.target.as_bytes()),
            Vec::from_slice(alloc, beside.as_bytes()),
        ) else {
            return Err(Unsaved::Memory);
        };
        Ok(PaperEntry {
            name,
            beside,
            old,
            new: sum_of(pending.bytes.as_slice()),
        })
    }

    /// Adds a file to the plan.
    fn plan_file(
        &self,
        file: usize,
        pending: &Pending,
        progress: &mut Progress,
    ) -> Result<(), Unsaved>
        ensures { file < count_handed self.now → IfErr result (FailsBelow (count_handed self.now)) }
    {
        let Ok(fresh) = fresh_name(self.folder.rt, pending.target.as_str()) else {
            return Err(Unsaved::Memory);
        };
        let Some(beside) = fresh else {
            return Err(Unsaved::Disk { file });
        };
        let entry = self.entry_of(file, pending, beside.as_str())?;
        if progress.paper.entries.push(entry).is_err()
            || progress.besides.push(beside).is_err()
            || progress.files.push(file).is_err()
        {
            return Err(Unsaved::Memory);
        }
        Ok(())
    }

    /// The plan of all files that are to be replaced: those whose bytes are new.
    fn plan(&self) -> Result<Progress, Unsaved>
        ensures { IfErr result (FailsBelow (count_handed self.now)) }
    {
        let alloc = self.folder.rt.alloc();
        let mut progress = Progress {
            paper: SavePaper {
                noted: false,
                entries: Vec::new(alloc),
            },
            files: Vec::new(alloc),
            besides: Vec::new(alloc),
            made: Vec::new(alloc),
            noted: false,
        };
        let Ok(replaced) = self.replaced() else {
            return Err(Unsaved::Memory);
        };
        for file in &replaced {
            if let Some(pending) = self.pending.get(*file) {
                self.plan_file(*file, pending, &mut progress)?;
            }
        }
        Ok(progress)
    }

    /// Writes the plan, or the note in its place.
    fn write_paper(&self, progress: &mut Progress) -> Result<(), Unsaved>
        ensures { 0 < count_handed self.now → IfErr result (FailsBelow (count_handed self.now)) }
    {
        match put_paper(self.folder.rt, self.folder.rt.alloc(), &progress.paper) {
            Written::Done => {
                progress.noted = progress.paper.noted;
                Ok(())
            }
            Written::Unsure => {
                progress.noted = progress.paper.noted;
                Err(Unsaved::Disk { file: 0 })
            }
            Written::Refused => Err(Unsaved::Disk { file: 0 }),
            Written::Memory => Err(Unsaved::Memory),
        }
    }

    /// A file of the plan: its number, what it is to hold, and the name of its new file.
    fn planned<'p>(
        &'p self,
        place: usize,
        progress: &'p Progress,
    ) -> Option<(usize, &'p Pending, &'p str)>
        ensures { IfSome result (λ planned. planned.0 < count_handed self.now) }
    {
        let file = *progress.files.get(place)?;
        let pending = self.pending.get(file)?;
        let beside = progress.besides.get(place)?;
        Some((file, pending, beside.as_str()))
    }

    /// Makes the new file beside a file of the plan, and returns which file it is; none if there is no such file.
    fn new_file(&self, place: usize, progress: &Progress) -> Result<Option<Identity>, Unsaved>
        ensures { IfErr result (FailsBelow (count_handed self.now)) }
    {
        let Some((file, pending, beside)) = self.planned(place, progress) else {
            return Ok(None);
        };
        let name = pending.name.as_str();
        let size = pending.bytes.len() as u64;
        self.folder.listener.hear(Doing::Writing, name, size);
        let old = self.found(name).map(|data| Old {
            data,
            taken_over: self.terms.takes_over,
        });
        match write_new(self.folder.rt, beside, pending.bytes.as_slice(), old) {
            Ok(made) => Ok(Some(made)),
            Err(_) => Err(Unsaved::Disk { file }),
        }
    }

    /// Makes the new file beside a file of the plan, and remembers which file it is.
    fn make(&self, place: usize, progress: &mut Progress) -> Result<(), Unsaved>
        ensures { IfErr result (FailsBelow (count_handed self.now)) }
    {
        let Some(made) = self.new_file(place, progress)? else {
            return Ok(());
        };
        if progress.made.push(made).is_err() {
            self.remove_new(place, made, progress);
            return Err(Unsaved::Memory);
        }
        Ok(())
    }

    /// Removes a new file that was made. What another program put under its name stays.
    fn remove_new(&self, place: usize, made: Identity, progress: &Progress) {
        if let Some((_, _, beside)) = self.planned(place, progress) {
            remove_made(self.folder.rt, beside, made);
        }
    }

    /// Refuses a new file beside a file of the plan under whose name another program put something else.
    fn look_at_new(&self, place: usize, progress: &Progress) -> Result<(), Unsaved>
        ensures { IfErr result (FailsBelow (count_handed self.now)) }
    {
        match (self.planned(place, progress), progress.made.get(place)) {
            (Some((file, _, beside)), Some(made)) => {
                still(file, Ok(is_still(self.folder.rt, beside, *made)))
            }
            _ => Ok(()),
        }
    }

    /// The same of all new files.
    fn look_at_all_new(&self, progress: &Progress) -> Result<(), Unsaved>
        ensures { IfErr result (FailsBelow (count_handed self.now)) }
    {
        for place in 0..progress.files.len() {
            self.look_at_new(place, progress)?;
        }
        Ok(())
    }

    /// Whether a file that was read still holds what it held then.
    fn is_as_read(&self, pending: &Pending) -> io::Result<bool> {
        match self.loaded(pending.name.as_str()) {
            Some(Loaded { bytes, .. }) => {
                let held = bytes.as_ref().map(|held| held.as_slice());
                holds(self.folder.rt, pending.target.as_str(), held)
            }
            None => Ok(true),
        }
    }

    /// Whether a file that wasn't read still has the sum that the plan says.
    fn is_as_planned(&self, pending: &Pending, old: Option<Sum>) -> io::Result<bool> {
        match self.loaded(pending.name.as_str()) {
            Some(_) => Ok(true),
            None => Ok(sum_now(self.folder.rt, pending.target.as_str())? == old),
        }
    }

    /// Tells whether each file still holds what it held when it was read, also where it isn't replaced.
    fn look_again(&self) -> Result<(), Unsaved>
        ensures { IfErr result (FailsBelow (count_handed self.now)) }
    {
        for (file, pending) in self.pending.iter().enumerate() {
            still(file, self.is_as_read(pending))?;
        }
        Ok(())
    }

    /// Tells whether the files of the plan that weren't read are as it says.
    fn look_at_others(&self, progress: &Progress) -> Result<(), Unsaved>
        ensures { IfErr result (FailsBelow (count_handed self.now)) }
    {
        for (place, file) in progress.files.iter().enumerate() {
            if let (Some(pending), Some(entry)) = (
                self.pending.get(*file),
                progress.paper.entries.get(place),
            ) {
                still(*file, self.is_as_planned(pending, entry.old))?;
            }
        }
        Ok(())
    }

    /// Puts a new file in its file's place, if it is still the one that was made. It stays beside its file if that
    /// fails, because what comes next finishes the save.
    fn place(&self, place: usize, progress: &Progress) -> Result<(), Unsaved>
        ensures { IfErr result (FailsBelow (count_handed self.now)) }
    {
        let Some((file, pending, beside)) = self.planned(place, progress) else {
            return Ok(());
        };
        let (rt, target) = (self.folder.rt, pending.target.as_str());
        let Some(made) = progress.made.get(place) else {
            return Err(Unsaved::Disk { file });
        };
        if !is_still(rt, beside, *made)
            || fs::rename(rt, beside, target).is_err()
            || !is_still(rt, target, *made)
        {
            return Err(Unsaved::Disk { file });
        }
        Ok(())
    }

    /// Removes the new file beside a file of the plan, if it was made.
    fn unmake(&self, place: usize, progress: &Progress) {
        if let Some(made) = progress.made.get(place) {
            self.remove_new(place, *made, progress);
        }
    }

    /// Carries out a step of the save.
    fn carry_out(&self, step: Step, progress: &mut Progress) -> Result<(), Unsaved>
        ensures { 0 < count_handed self.now → IfErr result (FailsBelow (count_handed self.now)) }
    {
        let rt = self.folder.rt;
        let done = match step {
            Step::WritePlan => return self.write_paper(progress),
            Step::Make(file) => return self.make(file, progress),
            Step::WriteNote => {
                self.look_again()?;
                self.look_at_others(progress)?;
                self.look_at_all_new(progress)?;
                progress.paper.noted = true;
                return self.write_paper(progress);
            }
            Step::Place(file) => return self.place(file, progress),
            Step::Unmake(file) => {
                self.unmake(file, progress);
                return Ok(());
            }
            Step::Sync => sync_folder(rt),
            Step::RemoveDraft => remove_draft(rt, rt.alloc()),
            Step::RemovePaper => remove_paper(rt),
        };
        if done.is_err() {
            return Err(Unsaved::Disk { file: 0 });
        }
        Ok(())
    }

    /// Takes a planned save away, as far as the device lets it: what stays, the next command takes away.
    fn take_away(&self, progress: &mut Progress) {
        let alloc = self.folder.rt.alloc();
        let Ok(slots) = standing_slots(alloc, progress.besides.len()) else {
            return;
        };
        if let Ok(Some(steps)) = steps_of_finish(alloc, Paper::Plan, slots.as_slice()) {
            for step in &steps {
                if self.carry_out(*step, progress).is_err() {
                    return;
                }
            }
        }
    }

    /// Carries out the steps of the save, each after the one before. Once the note is removed, the save is at its end,
    /// also if the device fails to keep that: then the next command finds the note and removes it again.
    fn carry_out_all(&self, steps: &[Step], progress: &mut Progress) -> Result<(), Unsaved>
        ensures { 0 < count_handed self.now → IfErr result (FailsBelow (count_handed self.now)) }
    {
        let mut is_removed = false;
        for step in steps {
            match self.carry_out(*step, progress) {
                Ok(()) => is_removed |= *step == Step::RemovePaper,
                Err(_) if is_removed => {}
                Err(unsaved) => return Err(unsaved),
            }
        }
        Ok(())
    }

    /// Carries out a plan. Where that fails before its note stands, it is taken away.
    fn carry_out_plan(&self, progress: &mut Progress) -> Result<(), Unsaved>
        ensures { 0 < count_handed self.now → IfErr result (FailsBelow (count_handed self.now)) }
    {
        let Ok(steps) = steps_of_save(self.folder.rt.alloc(), progress.files.len()) else {
            return Err(Unsaved::Memory);
        };
        match self.carry_out_all(steps.as_slice(), progress) {
            Ok(()) => Ok(()),
            Err(unsaved) if progress.noted => Err(behind_note(unsaved)),
            Err(unsaved) => {
                self.take_away(progress);
                Err(unsaved)
            }
        }
    }

    /// What the system said of the file of that name when it was read; none if there was none, or it wasn't read.
    fn found(&self, name: &str) -> Option<&Metadata> {
        match self.loaded(name) {
            Some(loaded) => loaded.target.found.as_ref(),
            None => None,
        }
    }

    /// Copies what a file held when it was read. There is no copy of a file that wasn't there.
    fn copy(&self, name: &str, to: &str) -> io::Result<()> {
        match self.read_of(name) {
            Some(read) => copy_bytes(self.folder.rt, read, self.found(name), to),
            None => Ok(()),
        }
    }

    /// Copies the files that were handed in to another folder, down to the device. If the terms say that files stay
    /// whose records or keys the program didn't change, these aren't copied.
    fn copy_all(&self, path: &str) -> io::Result<()> {
        let rt = self.folder.rt;
        make_folder(rt, path)?;
        let replaced = self.replaced()?;
        for (file, pending) in self.pending.iter().enumerate() {
            if self.terms.keep_unchanged && !replaced.contains(&file) {
                continue;
            }
            let name = pending.name.as_str();
            let copy = format!(in rt.alloc(); "{path}/{name}")?;
            self.copy(name, copy.as_str())?;
        }
        sync_copies(rt, path)
    }

    /// Replaces all files that were handed in, or none, copied first where the terms say so: as they were read, once it
    /// is seen that none was changed since. A file that is to hold what it held when it was read stays; it must hold
    /// that still. Where no file was handed in, nothing is done.
    ///
    /// # Errors
    /// A file that is told is one that was handed in.
    pub fn commit(&self) -> Result<(), Unsaved>
        ensures nothing { count_handed self.now ≡ 0 → IsOk result }
        ensures told { IfErr result (FailsBelow (count_handed self.now)) }
    {
        if self.pending.is_empty() {
            return Ok(());
        }
        if let Some(path) = self.terms.backup {
            self.look_again()?;
            if self.copy_all(path).is_err() {
                return Err(Unsaved::Backup);
            }
        }
        let mut progress = self.plan()?;
        if progress.files.is_empty() {
            return self.look_again();
        }
        self.carry_out_plan(&mut progress)
    }
}

/// Whether a file of this name is one that a run saves: a table's or an index's.
fn is_saved(name: &str) -> bool {
    name.ends_with(".DBF") || name.ends_with(".NDX")
}

/// Refuses a file that isn't as it was, or that the device doesn't give.
fn still(file: usize, as_it_was: io::Result<bool>) -> Result<(), Unsaved>
    ensures { (count : ℕ) → file < count → IfErr result (FailsBelow count) }
{
    match as_it_was {
        Ok(true) => Ok(()),
        Ok(false) => Err(Unsaved::Changed { file }),
        Err(_) => Err(Unsaved::Disk { file }),
    }
}

/// What a failure is called behind the note.
fn behind_note(unsaved: Unsaved) -> Unsaved
    ensures { (count : ℕ) → 0 < count → FailsBelow count unsaved → FailsBelow count result }
{
    match unsaved {
        Unsaved::Disk { file } | Unsaved::Changed { file } | Unsaved::Cut { file } => Unsaved::Cut {
            file,
        },
        Unsaved::Memory | Unsaved::Backup => Unsaved::Cut { file: 0 },
    }
}

/// The checksum of what a file holds now, none if there is none.
fn sum_now<R: Disk>(rt: &R, name: &str) -> io::Result<Option<Sum>> {
    match sum_of_file(rt, name)? {
        Summed::Absent => Ok(None),
        Summed::Sum(sum) => Ok(Some(sum)),
        Summed::Long => Err(io::Error::from(ErrorKind::FileTooLarge)),
    }
}

/// What is taken to stand at as many files as a plan names. A plan is taken away whatever stands at them.
fn standing_slots(alloc: Global, count: usize) -> Result<Vec<Slot>, AllocError> {
    let mut slots = Vec::new(alloc);
    for _ in 0..count {
        slots.push(Slot::Waiting)?;
    }
    Ok(slots)
}

impl<R: Disk<File = File> + Alloc<A = Global>, L: Listener> Files for SavingFolder<'_, R, L> {
    ghost holds = { λ _ _ _. Unit {0} };

    ghost failed = { λ saving. saving.folder.failures };

    fn read(&mut self, alloc: Global, name: &str, limit: usize) -> Result<Vec<u8>, ReadFault> {
        if !is_saved(name) {
            let read = self.folder.read(alloc, name, limit);
            if self.tell_found(name, &read).is_err() {
                return Err(ReadFault::Memory);
            }
            return read;
        }
        let target = match self.looked_at(name) {
            Ok(target) => target,
            Err(hindrance) => return Err(self.hinder(hindrance)),
        };
        let read = self.folder.read(alloc, name, limit);
        if self.note_read(name, target, &read).is_err() {
            return Err(ReadFault::Memory);
        }
        read
    }

    fn replace(&mut self, name: &str, bytes: Vec<u8>) -> Result<(), Device> {
        if self.hand_in(name, bytes).is_err() {
            self.folder.fail();
            return Err(Device);
        }
        Ok(())
    }

    fn failures(&self) -> u64 {
        self.folder.failures()
    }
}
