//! What scripts are played on: a disk in memory, and the store that was opened on it.

use crate::device::{Call, Device, Failing, Notes};
use pk_disk::{Disk, LEAST_UNITS, MemoryDisk, UNIT, units_in};
use pk_grow::{GrowFault, Growth, grow};
use pk_manifest::ManifestFault;
use pk_model::Refusal;
use pk_pages::PageCache;
use pk_shell::{ShellFault, serve};
use pk_store::{Checked, CreateFault, OpenFault, Refused, Store};
use pk_within::Shortened;
use std::alloc::{AllocError, Global};
use std::str;

/// The most bytes of a disk that scripts speak of.
const MOST_BYTES: u64 = 8_388_608;

/// A store on a device, all of it or as many units as its body says; or on a page cache over one.
#[derive(Drop)]
enum OpenStore {
    Direct(Store<Shortened<Device>>),
    Paged(Store<PageCache<Device>>),
}

/// A disk, or the store that is open on it.
#[derive(Drop)]
pub struct Player {
    alloc: Global,
    /// The disk, where no store is open.
    disk: Option<MemoryDisk>,
    /// The open store.
    store: Option<Box<OpenStore>>,
    /// The calls that fail once the next store is opened or created.
    failing: Option<Failing>,
    /// How many decoded blocks the next store keeps at most.
    blocks: u32,
    /// How many pages the page cache keeps at most that the next store is on; 0 where it is on
    /// none.
    pages: usize,
    /// Whether the next store is on as many units as its body says, and on no page cache.
    is_within: bool,
    /// The calls of a device between the last opening and the closing behind it, or until it was
    /// handed back.
    notes: Option<Notes>,
    /// How many bytes these read.
    bytes_read: u64,
}

/// The number that the text writes, or none.
fn number(text: &str) -> u64 {
    text.trim().parse::<u64>().unwrap_or(0)
}

/// The number of bytes of a disk or of a part of it, so many at the most.
fn size(text: &str) -> usize {
    number(text).min(MOST_BYTES) as usize
}

/// Bytes as pairs of hexadecimal digits.
fn shown(alloc: Global, bytes: &[u8]) -> Result<String, AllocError> {
    let mut text = String::new(alloc);
    for byte in bytes {
        if !text.is_empty() {
            text.push_str(" ")?;
        }
        write!(text, "{byte:02X}")?;
    }
    Ok(text)
}

/// The bytes that pairs of hexadecimal digits write.
fn bytes_of(alloc: Global, text: &str) -> Result<Vec<u8>, AllocError> {
    let mut bytes = Vec::new(alloc);
    for pair in text.split_whitespace() {
        bytes.push(u8::from_str_radix(pair, 16).unwrap_or(0))?;
    }
    Ok(bytes)
}

/// The bytes of a disk from a place on, so many, as far as it has them.
fn part(alloc: Global, disk: &mut MemoryDisk, at: u64, n: usize) -> Result<Vec<u8>, AllocError> {
    let mut bytes = vec![in alloc; 0u8; n]?;
    if at <= MOST_BYTES && at + bytes.len() as u64 <= disk.len() {
        let _ = disk.read(at, &mut bytes);
    }
    Ok(bytes)
}

/// The disk, with zeros behind its bytes where it has fewer than that.
fn longer(alloc: Global, mut disk: MemoryDisk, size: usize) -> Result<MemoryDisk, AllocError> {
    let had = disk.len().min(MOST_BYTES) as usize;
    if size <= had {
        return Ok(disk);
    }
    let mut bytes = vec![in alloc; 0u8; size]?;
    let _ = disk.read(0, &mut bytes[..had]);
    Ok(MemoryDisk::of_bytes(alloc, bytes))
}

/// Changes bytes of a disk, and syncs it.
fn change(disk: &mut MemoryDisk, at: u64, bytes: &[u8]) -> &'static str {
    if at > MOST_BYTES || at + bytes.len() as u64 > disk.len() {
        return "outside";
    }
    if disk.write(at, bytes).is_err() || disk.sync().is_err() {
        return "disk";
    }
    ""
}

/// Why no store was created.
fn creating_word(why: CreateFault) -> &'static str {
    match why {
        CreateFault::TooSmall => "too small",
        CreateFault::AlreadyAStore => "already a store",
        CreateFault::Disk => "disk",
        CreateFault::Memory => "memory",
    }
}

/// Why no store was opened.
fn opening_word(why: OpenFault) -> &'static str {
    match why {
        OpenFault::TooSmall => "too small",
        OpenFault::NotAStore => "not a store",
        OpenFault::Damaged => "damaged",
        OpenFault::Disk => "disk",
        OpenFault::Memory => "memory",
    }
}

/// What a growth came to, or why there was none.
fn growing_word(answer: Result<Growth, GrowFault>) -> &'static str {
    match answer {
        Ok(Growth::Grown) => "grown",
        Ok(Growth::AsItWas) => "as it was",
        Err(GrowFault::Shorter) => "shorter",
        Err(GrowFault::Store(ManifestFault::NotAStore)) => "not a store",
        Err(GrowFault::Store(ManifestFault::Damaged)) => "damaged",
        Err(GrowFault::Store(ManifestFault::UsedUp)) => "numbers used up",
        Err(GrowFault::Store(ManifestFault::Disk)) => "disk",
        Err(GrowFault::Store(ManifestFault::Memory)) => "memory",
    }
}

/// Grows the store on a device to so many units, which the device has, or tells why not.
fn grown_on(alloc: Global, device: &mut Device, units: u32) -> &'static str {
    let all = units_in(device.len());
    if all < LEAST_UNITS || all < units {
        return "too small";
    }
    growing_word(grow(alloc, device, units))
}

/// What a check told, in the words of the program.
fn checking_words(alloc: Global, answer: Result<Checked, Refusal>) -> Result<String, AllocError> {
    let told = match answer {
        Ok(c) => {
            let (documents, next, segments) = (c.documents, c.next, c.segments);
            return format!(in alloc; "ok {documents} documents next {next} segments {segments}");
        }
        Err(Refusal::Reopen) => "reopen",
        Err(Refusal::Memory) => "memory",
        Err(Refusal::Damaged) => "damaged",
        Err(_) => "disk",
    };
    String::from_str(alloc, told)
}

/// Makes a store on a disk, or opens the one there. Where there is none, the disk and why.
fn store_on<D: Disk>(
    alloc: Global,
    disk: D,
    blocks: u32,
    is_new: bool,
) -> Result<Store<D>, (D, &'static str)> {
    if is_new {
        return match Store::create(alloc, disk, blocks) {
            Ok(store) => Ok(store),
            Err(Refused { disk, why }) => Err((disk, creating_word(why))),
        };
    }
    match Store::open_on(alloc, disk, blocks) {
        Ok(store) => Ok(store),
        Err(Refused { disk, why }) => Err((disk, opening_word(why))),
    }
}

/// What the shell answers a line, which it gets alone. Where there was no memory for its buffers it
/// is to have read nothing, and to have written nothing.
fn told<D: Disk>(alloc: Global, store: &mut Store<D>, line: &str) -> Result<String, AllocError> {
    let mut input = String::from_str(alloc, line)?;
    input.push_str("\n")?;
    let mut reader = input.as_bytes();
    let mut output = Vec::new(alloc);
    match serve(alloc, &mut reader, &mut output, store) {
        Ok(_) => reply_in(alloc, &output),
        Err(ShellFault::Memory) if reader.len() == input.len() && output.is_empty() => {
            String::from_str(alloc, "memory")
        }
        // The output is the player's own, and takes memory as it grows.
        Err(ShellFault::Output) => Err(AllocError),
        Err(_) => String::from_str(alloc, "the shell failed"),
    }
}

/// The reply line that was written.
fn reply_in(alloc: Global, output: &[u8]) -> Result<String, AllocError> {
    match str::from_utf8(output) {
        Ok(reply) => String::from_str(alloc, reply.strip_suffix("\n").unwrap_or("no line")),
        Err(_) => String::from_str(alloc, "no text"),
    }
}

impl Player {
    /// One without a disk.
    pub(crate) fn new(alloc: Global) -> Player {
        Player {
            alloc,
            disk: None,
            store: None,
            failing: None,
            blocks: 0,
            pages: 0,
            is_within: false,
            notes: None,
            bytes_read: 0,
        }
    }

    /// What a line of a script is answered.
    pub(crate) fn answer(&mut self, line: &str) -> Result<String, AllocError> {
        if !line.starts_with("!") {
            return self.ask(line);
        }
        let (step, rest) = line.split_once(" ").unwrap_or((line, ""));
        match step {
            "!bytes" => self.bytes(rest),
            "!nonzero" => self.count_nonzero(),
            "!check" => self.check(),
            "!calls" => self.calls(),
            "!reads" => self.bytes_read.to_string(self.alloc),
            _ => String::from_str(self.alloc, self.take_step(step, rest)?),
        }
    }

    /// Takes a step that is answered by a word, or by nothing.
    fn take_step(&mut self, step: &str, rest: &str) -> Result<&'static str, AllocError> {
        match step {
            "!disk" => self.put_disk(size(rest)),
            "!create" => self.put_store(true),
            "!open" => self.put_store(false),
            "!close" => Ok(self.close()),
            "!blocks" => Ok(self.set_blocks(number(rest))),
            "!pages" => Ok(self.set_pages(number(rest))),
            "!within" => Ok(self.set_within()),
            "!grow" => self.grow(number(rest)),
            "!fail" => Ok(self.plan(rest, true)),
            "!stop" => Ok(self.plan(rest, false)),
            "!crash" => self.crash(rest),
            "!set" => self.set(rest),
            _ => Ok("no such step"),
        }
    }

    /// What the shell answers a line.
    fn ask(&mut self, line: &str) -> Result<String, AllocError> {
        let Some(store) = &mut self.store else {
            return String::from_str(self.alloc, "no store");
        };
        match &mut **store {
            OpenStore::Direct(store) => told(self.alloc, store, line),
            OpenStore::Paged(store) => told(self.alloc, store, line),
        }
    }

    /// What a check of the store tells.
    fn check(&mut self) -> Result<String, AllocError> {
        let Some(store) = &mut self.store else {
            return String::from_str(self.alloc, "no store");
        };
        let answer = match &mut **store {
            OpenStore::Direct(store) => store.check(self.alloc),
            OpenStore::Paged(store) => store.check(self.alloc),
        };
        checking_words(self.alloc, answer)
    }

    /// A new disk of so many zero bytes.
    fn put_disk(&mut self, size: usize) -> Result<&'static str, AllocError> {
        let bytes = vec![in self.alloc; 0u8; size]?;
        self.store = None;
        self.disk = Some(MemoryDisk::of_bytes(self.alloc, bytes));
        Ok("")
    }

    /// How many decoded blocks the stores keep that are opened or created from now on.
    fn set_blocks(&mut self, blocks: u64) -> &'static str {
        self.blocks = blocks.min(65_536) as u32;
        ""
    }

    /// How many pages the page cache keeps that stores are on from now on.
    fn set_pages(&mut self, pages: u64) -> &'static str {
        self.pages = pages.min(MOST_BYTES) as usize;
        ""
    }

    /// Stores are on as many units as their bodies say, from now on.
    fn set_within(&mut self) -> &'static str {
        self.is_within = true;
        ""
    }

    /// Which call fails of those that begin with the next opening, alone or with all later ones:
    /// its number, and behind it the kind of calls that is counted, where it isn't all.
    fn plan(&mut self, rest: &str, is_once: bool) -> &'static str {
        let (first, kind) = rest.split_once(" ").unwrap_or((rest, ""));
        self.failing = Some(Failing {
            call: call_of(kind),
            number: number(first),
            is_once,
        });
        ""
    }

    /// Makes a store on the disk, or opens the one there.
    fn put_store(&mut self, is_new: bool) -> Result<&'static str, AllocError> {
        let notes = Notes::new(self.alloc)?;
        let Some(disk) = self.disk.take() else {
            return Ok("no disk");
        };
        let device = Device::on(disk, self.failing.take(), notes);
        if self.is_within {
            return self.put_within(device, is_new);
        }
        if self.pages == 0 {
            let size = device.len();
            return self.put_direct(Shortened::new(device, size), is_new);
        }
        self.put_paged(device, is_new)
    }

    /// A store on a device, or on a part of it.
    fn put_direct(
        &mut self,
        disk: Shortened<Device>,
        is_new: bool,
    ) -> Result<&'static str, AllocError> {
        match store_on(self.alloc, disk, self.blocks, is_new) {
            Ok(store) => self.keep(OpenStore::Direct(store), is_new),
            Err((disk, why)) => Ok(self.take_device(disk.into_inner(), why)),
        }
    }

    /// A store on a page cache over a device.
    fn put_paged(&mut self, device: Device, is_new: bool) -> Result<&'static str, AllocError> {
        let cache = PageCache::new(self.alloc, device, self.pages);
        match store_on(self.alloc, cache, self.blocks, is_new) {
            Ok(store) => self.keep(OpenStore::Paged(store), is_new),
            Err((cache, why)) => Ok(self.take_device(cache.into_inner(), why)),
        }
    }

    /// A store on as many units of a device as its body says.
    fn put_within(&mut self, device: Device, is_new: bool) -> Result<&'static str, AllocError> {
        if units_in(device.len()) < LEAST_UNITS {
            return Ok(self.take_device(device, "too small"));
        }
        match pk_grow::store_on(device) {
            Ok(shortened) => self.put_direct(shortened, is_new),
            Err(device) => Ok(self.take_device(device, "disk")),
        }
    }

    /// Makes the disk so many units long where it is shorter, and grows its store to as many.
    fn grow(&mut self, units: u64) -> Result<&'static str, AllocError> {
        let notes = Notes::new(self.alloc)?;
        let Some(disk) = self.disk.take() else {
            return Ok("no disk");
        };
        let units = units.min(MOST_BYTES / UNIT) as u32;
        let disk = longer(self.alloc, disk, units as usize * 512)?;
        let mut device = Device::on(disk, self.failing.take(), notes);
        let word = grown_on(self.alloc, &mut device, units);
        Ok(self.take_device(device, word))
    }

    /// Keeps a store that was made or opened.
    fn keep(&mut self, store: OpenStore, is_new: bool) -> Result<&'static str, AllocError> {
        self.store = Some(Box::new(self.alloc, store)?);
        Ok(if is_new { "created" } else { "opened" })
    }

    /// Keeps the disk of a device that was handed back; the answer is `why`.
    fn take_device(&mut self, device: Device, why: &'static str) -> &'static str {
        let (disk, notes, bytes_read) = device.into_parts();
        self.disk = Some(disk);
        self.notes = Some(notes);
        self.bytes_read = bytes_read;
        why
    }

    /// Takes the disk of the store.
    fn close(&mut self) -> &'static str {
        let Some(store) = self.store.take() else {
            return "no store";
        };
        match Box::into_inner(store) {
            OpenStore::Direct(store) => self.take_device(store.close().into_inner(), ""),
            OpenStore::Paged(store) => self.take_device(store.close().into_inner(), ""),
        }
    }

    /// The calls of the device between the last opening and the closing behind it, or until it was
    /// handed back.
    fn calls(&self) -> Result<String, AllocError> {
        let letters = self.notes.as_ref().map_or("", |notes| notes.letters());
        String::from_str(self.alloc, letters)
    }

    /// A crash that leaves this byte at each open position, or what was written.
    fn crash(&mut self, rest: &str) -> Result<&'static str, AllocError> {
        let Some(disk) = self.disk.take() else {
            return Ok("no disk");
        };
        let length = disk.len().min(MOST_BYTES) as usize;
        let picks = match u8::from_str_radix(rest, 16) {
            Ok(byte) => vec![in self.alloc; byte; length]?,
            Err(_) => Vec::new(self.alloc),
        };
        self.disk = Some(disk.crash(&picks));
        Ok("")
    }

    /// Changes the bytes from a place on.
    fn set(&mut self, rest: &str) -> Result<&'static str, AllocError> {
        let (at, pairs) = rest.split_once(" ").unwrap_or((rest, ""));
        let bytes = bytes_of(self.alloc, pairs)?;
        match &mut self.disk {
            Some(disk) => Ok(change(disk, number(at), &bytes)),
            None => Ok("no disk"),
        }
    }

    /// The bytes from a place on, so many.
    fn bytes(&mut self, rest: &str) -> Result<String, AllocError> {
        let (at, count) = rest.split_once(" ").unwrap_or((rest, ""));
        match &mut self.disk {
            Some(disk) => {
                let bytes = part(self.alloc, disk, number(at), size(count))?;
                shown(self.alloc, &bytes)
            }
            None => String::from_str(self.alloc, "no disk"),
        }
    }

    /// How many bytes of the disk are not zero.
    fn count_nonzero(&mut self) -> Result<String, AllocError> {
        let Some(disk) = &mut self.disk else {
            return String::from_str(self.alloc, "no disk");
        };
        let n = disk.len().min(MOST_BYTES) as usize;
        let bytes = part(self.alloc, disk, 0, n)?;
        bytes
            .iter()
            .filter(|byte| **byte != 0)
            .count()
            .to_string(self.alloc)
    }
}

/// The kind of calls that a word names, if it names one.
fn call_of(word: &str) -> Option<Call> {
    match word {
        "read" => Some(Call::Read),
        "write" => Some(Call::Write),
        "sync" => Some(Call::Sync),
        _ => None,
    }
}
