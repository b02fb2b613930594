use crate::counted::{CountedFiles, Syncs};
use crate::expect::{same, same_in_row};
use crate::store::{Slots, Store, slots_are};
use disk::{Disk, DiskFault, FileDisk, HostFolder, MemDisk, MemFolder, Slot, Torn};
use std::alloc::Global;
use std::{env, fs};

// The functions that make one call of a disk have no contract, so that a test's proof carries nothing of it.

// Returns true if these bytes are read from a slot.
fn is_read<D: Disk>(disk: &mut D, slot: Slot, wanted: &[u8]) -> bool {
    let mut buffer = [0; 64];
    match disk.read(slot, 0, &mut buffer) {
        Ok(count) => buffer.get(..count) == Some(wanted),
        Err(_) => false,
    }
}

fn read<D: Disk>(disk: &mut D, at: u64, buffer: &mut [u8]) -> Result<usize, DiskFault> {
    disk.read(Slot::Image1, at, buffer)
}

// Writes bytes to a slot. A write must begin within the slot.
fn write<D: Disk>(
    disk: &mut D,
    slot: Slot,
    at: u64,
    bytes: &[u8],
) -> Option<Result<(), DiskFault>> {
    if at > disk.length(slot) {
        return None;
    }
    Some(disk.write_at(slot, at, bytes))
}

// Truncates a slot, which can only become shorter.
fn cut<D: Disk>(disk: &mut D, slot: Slot, length: u64) -> Option<Result<(), DiskFault>> {
    if length > disk.length(slot) {
        return None;
    }
    Some(disk.cut(slot, length))
}

fn sync<D: Disk>(disk: &mut D, slot: Slot) -> Result<(), DiskFault> {
    disk.sync(slot)
}

// Returns the length of a slot, and the number of failed calls.
fn counts<D: Disk>(disk: &D, slot: Slot) -> (u64, u64) {
    (disk.length(slot), disk.failures())
}

// One call that changes a disk.
#[derive(Clone, Copy)]
enum DeviceStep {
    Write(Slot, u64, &'static [u8]),
    Cut(Slot, u64),
    Sync(Slot),
}

// Takes a step that succeeds.
fn take_one<D: Disk>(disk: &mut D, step: DeviceStep) -> Option<()> {
    match step {
        DeviceStep::Write(slot, at, bytes) => write(disk, slot, at, bytes)?.ok(),
        DeviceStep::Cut(slot, length) => cut(disk, slot, length)?.ok(),
        DeviceStep::Sync(slot) => sync(disk, slot).ok(),
    }
}

// Takes steps that all succeed.
fn take<D: Disk>(disk: &mut D, steps: &[DeviceStep]) -> Option<()> {
    for step in steps {
        take_one(disk, *step)?;
    }
    Some(())
}

// The bytes "aBcdEFG" in image 1, in several steps.
static WRITTEN: [DeviceStep; 3] = [
    DeviceStep::Write(Slot::Image1, 0, b"abcdef"),
    DeviceStep::Write(Slot::Image1, 4, b"EFG"),
    DeviceStep::Write(Slot::Image1, 1, b"B"),
];

// Truncates them to "aBc".
static SHORTENED: [DeviceStep; 2] = [
    DeviceStep::Cut(Slot::Image1, 3),
    DeviceStep::Sync(Slot::Image1),
];

static WHOLE: Slots<'static> = [b"", b"aBcdEFG", b"", b""];

// Steps were taken; then the counts of image 1.
type Taken = (Option<()>, (u64, u64));

fn taken<D: Disk>(disk: &mut D, steps: &[DeviceStep]) -> Taken {
    (take(disk, steps), counts(disk, Slot::Image1))
}

// Returns the counts after the bytes were written, and flags that the slots hold them; and the counts after they were
// truncated and synced, and a flag that the rest is read then.
fn written_and_read<S: Store + Drop>(alloc: Global) -> (Taken, [bool; 4], Taken, bool) {
    let mut disk = S::empty(alloc);
    (
        taken(&mut disk, &WRITTEN),
        slots_are(&disk, &WHOLE),
        taken(&mut disk, &SHORTENED),
        is_read(&mut disk, Slot::Image1, b"aBc"),
    )
}

#[test]
fn memory_is_read_as_it_was_written(rt: HostRuntime) {
    let seen = written_and_read::<MemDisk>(rt.alloc());
    let (written, shortened) = ((Some(()), (7, 0)), (Some(()), (3, 0)));
    same(&rt, seen, (written, [true; 4], shortened, true));
}

// Returns the same for one disk.
fn seen_of_steps<D: Disk>(disk: &mut D) -> (Taken, Taken, bool) {
    (
        taken(disk, &WRITTEN),
        taken(disk, &SHORTENED),
        is_read(disk, Slot::Image1, b"aBc"),
    )
}

#[test]
fn files_in_memory_are_read_as_they_were_written(rt: HostRuntime) {
    let disk = MemDisk::new(rt.alloc());
    let mut files = FileDisk::new(MemFolder { disk });
    let seen = seen_of_steps(&mut files);
    same(&rt, seen, ((Some(()), (7, 0)), (Some(()), (3, 0)), true));
}

// Returns the numbers of bytes that are read at the end of three bytes, and after it, and the buffer of the first read.
fn read_at_the_end<S: Store + Drop>(alloc: Global) -> ([Result<usize, DiskFault>; 2], [u8; 4]) {
    let mut disk = S::empty(alloc);
    let mut buffer = *b"....";
    let _ = (take(&mut disk, &WRITTEN), take(&mut disk, &SHORTENED));
    let counts = [
        read(&mut disk, 2, &mut buffer),
        read(&mut disk, 9, &mut [0; 4]),
    ];
    (counts, buffer)
}

#[test]
fn a_read_ends_at_the_end(rt: HostRuntime) {
    let seen = read_at_the_end::<MemDisk>(rt.alloc());
    same(&rt, seen, ([Ok(1), Ok(0)], *b"c..."));
}

// A write of 4 bytes over 2 of 3, a truncation and a new write, and a synced write.
static BEGUN: [DeviceStep; 5] = [
    DeviceStep::Write(Slot::Image0, 1, b"WXYZ"),
    DeviceStep::Cut(Slot::Image1, 2),
    DeviceStep::Write(Slot::Image1, 2, b"W"),
    DeviceStep::Write(Slot::Segment0, 0, b"pq"),
    DeviceStep::Sync(Slot::Segment0),
];

// Returns a disk after these steps, and after a failed write, which is its sixth call. Its contents and counts show
// that the steps were done.
fn begun<S: Store + Drop>(alloc: Global, torn: Torn) -> Option<S> {
    let mut disk = S::holding(alloc, [b"abc", b"abcdef", b"", b"m"])?;
    disk.plan_faults(None, Some(6), torn);
    let _ = take(&mut disk, &BEGUN);
    let _ = write(&mut disk, Slot::Segment1, 1, b"nop");
    Some(disk)
}

static SEEN: Slots<'static> = [b"aWXYZ", b"abW", b"pq", b"m"];

// The contents that a crash leaves of that.
static LEFT: [(Torn, Slots<'static>); 4] = [
    (Torn::Old, [b"abc", b"ab", b"pq", b"m"]),
    (Torn::New, [b"aWXYZ", b"abWdef", b"pq", b"mnop"]),
    (Torn::Half, [b"aWX\0\0", b"abWdef", b"pq", b"mno\0"]),
    (Torn::Fill(35), [b"a####", b"ab#def", b"pq", b"m###"]),
];

// Returns true if such a disk holds the bytes written, the number of failed calls, and true if a crash leaves these
// bytes.
fn torn_by_a_stop<S: Store + Drop>(
    alloc: Global,
    torn: Torn,
    left: &Slots<'_>,
) -> Option<([bool; 4], u64, [bool; 4])> {
    let disk = begun::<S>(alloc, torn)?;
    let (are, (_, failures)) = (slots_are(&disk, &SEEN), counts(&disk, Slot::Image0));
    let disk = disk.stop()?;
    Some((are, failures, slots_are(&disk, left)))
}

#[test]
fn a_crash_tears_what_was_not_synced(rt: HostRuntime) {
    for (torn, left) in &LEFT {
        let seen = torn_by_a_stop::<MemDisk>(rt.alloc(), *torn, left);
        same_in_row(&rt, torn, seen, Some(([true; 4], 1, [true; 4])));
    }
}

// The result of a sync after a crash, the counts then, and true if a second crash leaves these bytes.
type AtRest = (Result<(), DiskFault>, (u64, u64), bool);

fn left_at_rest<S: Store + Drop>(alloc: Global, torn: Torn, image0: &[u8]) -> Option<AtRest> {
    let mut left = begun::<S>(alloc, torn)?.stop()?;
    let synced = sync(&mut left, Slot::Image0);
    let counts = counts(&left, Slot::Image0);
    let left = left.stop()?;
    Some((synced, counts, left.bytes(Slot::Image0) == image0))
}

// A disk after a crash has no plan, and nothing that a second crash could tear.
#[test]
fn a_crash_leaves_a_disk_at_rest(rt: HostRuntime) {
    for (torn, [image0, ..]) in &LEFT {
        let seen = left_at_rest::<MemDisk>(rt.alloc(), *torn, image0);
        let counts = (image0.len() as u64, 0);
        same_in_row(&rt, torn, seen, Some((Ok(()), counts, true)));
    }
}

static AB: [DeviceStep; 1] = [DeviceStep::Write(Slot::Image0, 0, b"ab")];

static A: [DeviceStep; 1] = [DeviceStep::Write(Slot::Image0, 0, b"A")];

// The results of a sync, a truncation, a write and a read.
type Answers = (
    Result<(), DiskFault>,
    [Option<Result<(), DiskFault>>; 2],
    Result<usize, DiskFault>,
);

fn answers<D: Disk>(disk: &mut D) -> Answers {
    (
        sync(disk, Slot::Image0),
        [
            cut(disk, Slot::Image0, 0),
            write(disk, Slot::Image0, 0, b"xyz"),
        ],
        read(disk, 0, &mut [0; 4]),
    )
}

// Two steps were taken; the results of the disk, which has been stopped since the second step; its counts then; and
// true if it holds the bytes written.
type Stopped = ([Option<()>; 2], Answers, (u64, u64), bool);

fn ask_stopped<S: Store>(disk: &mut S) -> Stopped {
    let first = take(disk, &AB);
    disk.plan_faults(Some(2), None, Torn::Old);
    (
        [first, take(disk, &A)],
        answers(disk),
        counts(disk, Slot::Image0),
        disk.bytes(Slot::Image0) == b"Ab".as_slice(),
    )
}

// Returns the same, and true if it holds nothing after a crash.
fn stopped_and_asked<S: Store + Drop>(alloc: Global) -> Option<(Stopped, bool)> {
    let mut disk = S::empty(alloc);
    let seen = ask_stopped(&mut disk);
    let disk = disk.stop()?;
    Some((seen, disk.bytes(Slot::Image0).is_empty()))
}

#[test]
fn a_plan_crashes_all_later_calls(rt: HostRuntime) {
    let seen = stopped_and_asked::<MemDisk>(rt.alloc());
    let answers = (Err(DiskFault), [Some(Err(DiskFault)); 2], Err(DiskFault));
    let asked = ([Some(()); 2], answers, (2, 4), true);
    same(&rt, seen, Some((asked, true)));
}

// Maximum number of folders that are tried until one is unused.
const FOLDERS: u32 = 10_000;

// Creates a folder that no other test uses.
fn fresh_folder(rt: &HostRuntime) -> Option<String> {
    let parent = env::temp_dir(rt).ok()?;
    for number in 0..FOLDERS {
        let path = format!(in rt.alloc(); "{}/disk_test_{number}", parent.as_str()).ok()?;
        if fs::create_dir(rt, path.as_str()).is_ok() {
            return Some(path);
        }
    }
    None
}

fn remove(rt: &HostRuntime, folder: &str) -> Option<()> {
    fs::remove_dir_all(rt, folder).ok()
}

// Removes a folder that must be empty.
fn remove_empty(rt: &HostRuntime, folder: &str) -> Option<()> {
    fs::remove_dir(rt, folder).ok()
}

// Removes a folder that must be empty, and creates it again.
fn renew(rt: &HostRuntime, folder: &str) -> Option<()> {
    remove_empty(rt, folder)?;
    fs::create_dir(rt, folder).ok()
}

// Removes a folder with its contents, and creates it again.
fn empty(rt: &HostRuntime, folder: &str) -> Option<()> {
    remove(rt, folder)?;
    fs::create_dir(rt, folder).ok()
}

// A folder with the files of a disk. Operations on files are generic in the folder, and called once for each kind. So
// proofs carry nothing about files, of which each such call is expensive.
trait Folder {
    type Files: Disk + Drop;

    fn files(&self) -> Result<Self::Files, DiskFault>;
}

// A folder of the system.
#[derive(Drop)]
struct Plain<'a> {
    rt: HostRuntime,
    path: &'a str,
}

impl<'a> Folder for Plain<'a> {
    type Files = FileDisk<HostFolder<HostRuntime>>;

    fn files(&self) -> Result<FileDisk<HostFolder<HostRuntime>>, DiskFault> {
        FileDisk::at(self.rt.alloc(), self.rt, self.path)
    }
}

impl<'a> Folder for CountedFiles<'a> {
    type Files = FileDisk<HostFolder<CountedFiles<'a>>>;

    fn files(&self) -> Result<FileDisk<HostFolder<CountedFiles<'a>>>, DiskFault> {
        let counted = counted_at(self.files, self.folder, self.syncs);
        FileDisk::at(self.files.alloc(), counted, self.folder)
    }
}

static SEGMENT_STEPS: [DeviceStep; 5] = [
    DeviceStep::Write(Slot::Segment0, 0, b"abcdef"),
    DeviceStep::Write(Slot::Segment0, 2, b"CD"),
    DeviceStep::Sync(Slot::Segment0),
    DeviceStep::Cut(Slot::Segment0, 5),
    DeviceStep::Sync(Slot::Segment0),
];

// Writes to a folder's files, and returns the counts of segment 0.
fn write_segment<F: Folder>(folder: &F) -> Option<(u64, u64)> {
    let mut disk = folder.files().ok()?;
    take(&mut disk, &SEGMENT_STEPS)?;
    Some(counts(&disk, Slot::Segment0))
}

// Segment 0 holds the bytes written; then its counts and those of image 0.
type Held = (bool, [(u64, u64); 2]);

fn read_segment<F: Folder>(folder: &F) -> Option<Held> {
    let mut disk = folder.files().ok()?;
    Some((
        is_read(&mut disk, Slot::Segment0, b"abCDe"),
        [counts(&disk, Slot::Segment0), counts(&disk, Slot::Image0)],
    ))
}

// A slot reads as empty; and the result of a sync.
type Empty = (bool, Result<(), DiskFault>);

fn read_and_sync<D: Disk>(disk: &mut D, slot: Slot) -> Empty {
    (is_read(disk, slot, b""), sync(disk, slot))
}

// Reads and syncs each slot.
fn read_and_sync_all<F: Folder>(folder: &F) -> Option<[Empty; 4]> {
    let mut disk = folder.files().ok()?;
    Some([
        read_and_sync(&mut disk, Slot::Image0),
        read_and_sync(&mut disk, Slot::Image1),
        read_and_sync(&mut disk, Slot::Segment0),
        read_and_sync(&mut disk, Slot::Segment1),
    ])
}

// Returns the fault of files at a path.
fn fault_at(rt: HostRuntime, path: &str) -> Option<DiskFault> {
    Plain { rt, path }.files().err()
}

// Returns the faults of files in a folder that doesn't exist, and in a file.
fn faults_in_file(rt: HostRuntime, path: &str) -> Option<[Option<DiskFault>; 2]> {
    let absent = fault_at(rt, path);
    fs::write(&rt, path, b"a".as_slice()).ok()?;
    Some([absent, fault_at(rt, path)])
}

// Returns the fault of files of which one is a folder.
fn fault_of_slot(rt: HostRuntime, folder: &str, slot: &str) -> Option<Option<DiskFault>> {
    fs::create_dir(&rt, slot).ok()?;
    Some(fault_at(rt, folder))
}

// These faults, one after another, and flags that the folder was emptied between them and removed.
type Refused = (
    Option<[Option<DiskFault>; 2]>,
    Option<()>,
    Option<Option<DiskFault>>,
    Option<()>,
);

fn refused_in(rt: HostRuntime, folder: &str, slot: &str) -> Refused {
    (
        faults_in_file(rt, slot),
        empty(&rt, folder),
        fault_of_slot(rt, folder, slot),
        remove(&rt, folder),
    )
}

fn refused(rt: HostRuntime) -> Option<Refused> {
    let folder = fresh_folder(&rt)?;
    let slot = format!(in rt.alloc(); "{folder}/image0").ok()?;
    Some(refused_in(rt, folder.as_str(), slot.as_str()))
}

#[test]
fn what_is_no_folder_or_no_file_is_refused(rt: HostRuntime) {
    let fault = Some(DiskFault);
    let wanted = (Some([fault; 2]), Some(()), Some(fault), Some(()));
    same(&rt, refused(rt), Some(wanted));
}

// The steps before were done; the results of two calls; and the number of failed calls after them.
type Failed = (Option<()>, [Option<Result<(), DiskFault>>; 2], u64);

// Makes a write and a truncation on files whose folder is removed.
fn write_in_removed<F: Folder>(rt: &HostRuntime, folder: &F, path: &str) -> Option<Failed> {
    let mut disk = folder.files().ok()?;
    let removed = remove_empty(rt, path);
    let written = write(&mut disk, Slot::Image0, 0, b"a");
    let cut = cut(&mut disk, Slot::Image0, 0);
    Some((removed, [written, cut], disk.failures()))
}

// The reads from an empty folder, and a flag that it is still empty after them; the counts of files that were written,
// the reads from them, and a flag that they are removed; and the failures of calls.
type OnFiles = (
    Option<[Empty; 4]>,
    Option<()>,
    Option<(u64, u64)>,
    Option<Held>,
    Option<()>,
    Option<Failed>,
);

fn seen_on<F: Folder>(rt: &HostRuntime, folder: &F, path: &str) -> OnFiles {
    (
        read_and_sync_all(folder),
        renew(rt, path),
        write_segment(folder),
        read_segment(folder),
        empty(rt, path),
        write_in_removed(rt, folder, path),
    )
}

fn seen_on_files(rt: HostRuntime) -> Option<OnFiles> {
    let path = fresh_folder(&rt)?;
    let path = path.as_str();
    Some(seen_on(&rt, &Plain { rt, path }, path))
}

// Reads and syncs create no file, files hold the bytes written, and a failed call is counted.
#[test]
fn files_are_read_written_and_synced(rt: HostRuntime) {
    let empty = Some([(true, Ok(())); 4]);
    let held = Some((true, [(5, 0), (0, 0)]));
    let failed = Some((Some(()), [Some(Err(DiskFault)); 2], 2));
    let wanted = (empty, Some(()), Some((5, 0)), held, Some(()), failed);
    same(&rt, seen_on_files(rt), Some(wanted));
}

// Returns the files of a folder, whose syncs are counted.
fn counted_at<'a>(files: &'a HostRuntime, folder: &'a str, syncs: &'a Syncs) -> CountedFiles<'a> {
    CountedFiles {
        files,
        folder,
        syncs,
    }
}

// Returns the numbers of syncs of files and of their folder after these steps.
fn syncs_after<D: Disk>(disk: &mut D, syncs: &Syncs, steps: &[DeviceStep]) -> Option<(u32, u32)> {
    take(disk, steps)?;
    Some(syncs.counts())
}

static UNSYNCED: [DeviceStep; 1] = [DeviceStep::Write(Slot::Segment0, 0, b"ab")];

static UNCHANGED: [DeviceStep; 1] = [DeviceStep::Sync(Slot::Segment0)];

static FIRST: [DeviceStep; 2] = [
    DeviceStep::Write(Slot::Segment0, 0, b"ab"),
    DeviceStep::Sync(Slot::Segment0),
];

static SECOND: [DeviceStep; 2] = [
    DeviceStep::Write(Slot::Segment0, 1, b"B"),
    DeviceStep::Sync(Slot::Segment0),
];

static CUT: [DeviceStep; 2] = [
    DeviceStep::Cut(Slot::Image0, 0),
    DeviceStep::Sync(Slot::Image0),
];

// Returns these numbers after each sync of a slot: without a file, with a new file, after a rewrite, without a change,
// and with another new file.
fn count_syncs<F: Folder>(folder: &F, syncs: &Syncs) -> Option<[Option<(u32, u32)>; 5]> {
    let mut disk = folder.files().ok()?;
    Some([
        syncs_after(&mut disk, syncs, &UNCHANGED),
        syncs_after(&mut disk, syncs, &FIRST),
        syncs_after(&mut disk, syncs, &SECOND),
        syncs_after(&mut disk, syncs, &UNCHANGED),
        syncs_after(&mut disk, syncs, &CUT),
    ])
}

// Returns the results of syncs while they fail, and afterwards, and the number of failed calls then.
fn fail_syncs<F: Folder>(folder: &F, syncs: &Syncs) -> Option<Failed> {
    let mut disk = folder.files().ok()?;
    let written = take(&mut disk, &UNSYNCED);
    syncs.fails.set(true);
    let while_failing = sync(&mut disk, Slot::Segment0);
    syncs.fails.set(false);
    let afterwards = sync(&mut disk, Slot::Segment0);
    let answers = [Some(while_failing), Some(afterwards)];
    Some((written, answers, disk.failures()))
}

// The results of syncs that fail, and the number of syncs then; a flag that the folder is emptied; the number of syncs
// after each successful one; and a flag that the folder is removed.
type Synced = (
    Option<Failed>,
    (u32, u32),
    Option<()>,
    Option<[Option<(u32, u32)>; 5]>,
    Option<()>,
);

fn synced<F: Folder>(rt: &HostRuntime, folder: &F, path: &str, syncs: &Syncs) -> Synced {
    (
        fail_syncs(folder, syncs),
        syncs.counts(),
        empty(rt, path),
        count_syncs(folder, syncs),
        remove(rt, path),
    )
}

fn synced_files(rt: HostRuntime) -> Option<Synced> {
    let path = fresh_folder(&rt)?;
    let path = path.as_str();
    let syncs = Syncs::new();
    Some(synced(&rt, &counted_at(&rt, path, &syncs), path, &syncs))
}

// A failed sync isn't retried: the system may have dropped unwritten data, so a later sync would prove nothing. A sync
// syncs the file, and for a new file also its folder.
#[test]
fn syncs_are_of_files_and_their_folder(rt: HostRuntime) {
    let failed = (Some(()), [Some(Err(DiskFault)); 2], 2);
    let counted = [
        Some((0, 0)),
        Some((1, 1)),
        Some((2, 1)),
        Some((3, 1)),
        Some((4, 2)),
    ];
    let wanted = (Some(failed), (0, 0), Some(()), Some(counted), Some(()));
    same(&rt, synced_files(rt), Some(wanted));
}
