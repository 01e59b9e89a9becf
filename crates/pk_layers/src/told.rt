//! What is answered: values as words, and a word for each fault.

use pk_dict::{DictFault, Entry};
use pk_disk::DiskFault;
use pk_manifest::ManifestFault;
use pk_merge::MergeFault;
use pk_posting::{DecodeFault, SourceFault};
use pk_replace::StreamFault;
use pk_segment::{BuildFault, ReadFault};
use pk_vbyte::VFault;
use std::alloc::{AllocError, AllocFailed, Global};

/// The hexadecimal digits.
static DIGITS: [u8; 16] = *b"0123456789ABCDEF";

/// The word that is answered in place of a value.
#[derive(Clone, Copy, PartialEq, Eq, Drop)]
pub struct Fault(pub &'static str);

const DAMAGED: Fault = Fault("damaged");

const DISK: Fault = Fault("disk");

/// Want of memory.
pub const MEMORY: Fault = Fault("memory");

const TOO_LARGE: Fault = Fault("too large");

impl From<AllocError> for Fault {
    fn from(_: AllocError) -> Fault {
        MEMORY
    }
}

impl<T: Drop> From<AllocFailed<T>> for Fault {
    fn from(_: AllocFailed<T>) -> Fault {
        MEMORY
    }
}

impl From<VFault> for Fault {
    fn from(fault: VFault) -> Fault {
        match fault {
            VFault::Padded => Fault("padded"),
            VFault::Short => Fault("short"),
            VFault::TooLarge => TOO_LARGE,
        }
    }
}

impl From<DecodeFault> for Fault {
    fn from(fault: DecodeFault) -> Fault {
        match fault {
            DecodeFault::Damaged => DAMAGED,
            DecodeFault::Memory => MEMORY,
        }
    }
}

impl From<SourceFault> for Fault {
    fn from(fault: SourceFault) -> Fault {
        match fault {
            SourceFault::Damaged => DAMAGED,
            SourceFault::Disk => DISK,
        }
    }
}

impl From<DictFault> for Fault {
    fn from(fault: DictFault) -> Fault {
        match fault {
            DictFault::Damaged => DAMAGED,
            DictFault::Memory => MEMORY,
        }
    }
}

impl From<DiskFault> for Fault {
    fn from(_: DiskFault) -> Fault {
        DISK
    }
}

impl From<ManifestFault> for Fault {
    fn from(fault: ManifestFault) -> Fault {
        match fault {
            ManifestFault::NotAStore => Fault("not a store"),
            ManifestFault::Damaged => DAMAGED,
            ManifestFault::Disk => DISK,
            ManifestFault::UsedUp => Fault("numbers used up"),
            ManifestFault::Memory => MEMORY,
        }
    }
}

impl From<StreamFault> for Fault {
    fn from(fault: StreamFault) -> Fault {
        match fault {
            StreamFault::Read => Fault("read"),
            StreamFault::Write => Fault("write"),
            StreamFault::Damaged => DAMAGED,
        }
    }
}

impl From<BuildFault> for Fault {
    fn from(fault: BuildFault) -> Fault {
        match fault {
            BuildFault::TooLarge => TOO_LARGE,
            BuildFault::Memory => MEMORY,
        }
    }
}

impl From<ReadFault> for Fault {
    fn from(fault: ReadFault) -> Fault {
        match fault {
            ReadFault::Damaged => DAMAGED,
            ReadFault::Disk => DISK,
            ReadFault::Memory => MEMORY,
        }
    }
}

impl From<MergeFault> for Fault {
    fn from(fault: MergeFault) -> Fault {
        match fault {
            MergeFault::TooLarge => TOO_LARGE,
            MergeFault::Damaged => DAMAGED,
            MergeFault::Disk => DISK,
            MergeFault::Memory => MEMORY,
            MergeFault::NotWritten => Fault("not written"),
        }
    }
}

/// A word behind a text, with a blank between unless the text is empty.
fn put_word(text: &mut String, word: &str) -> Result<(), AllocError> {
    if !text.is_empty() {
        text.push_str(" ")?;
    }
    text.push_str(word)
}

/// Bytes behind a text, with no blank.
fn put_bytes(text: &mut String, bytes: &[u8]) -> Result<(), AllocError> {
    for byte in bytes {
        text.push(char::from(DIGITS[usize::from(byte / 16)]))?;
        text.push(char::from(DIGITS[usize::from(byte % 16)]))?;
    }
    Ok(())
}

/// A number behind a text.
fn put_number(text: &mut String, number: u64) -> Result<(), AllocError> {
    write!(text, "{number}")
}

/// Numbers behind a text, with commas between.
fn put_numbers(text: &mut String, numbers: &[u32]) -> Result<(), AllocError> {
    let mut comma = "";
    for number in numbers {
        text.push_str(comma)?;
        put_number(text, u64::from(*number))?;
        comma = ",";
    }
    Ok(())
}

/// The numbers of an entry behind a text, with colons between.
fn put_entry(text: &mut String, entry: Entry) -> Result<(), AllocError> {
    put_number(text, u64::from(entry.frequency))?;
    text.push_str(":")?;
    put_number(text, u64::from(entry.place.at))?;
    text.push_str(":")?;
    put_number(text, u64::from(entry.place.bytes))
}

/// Terms with their entries, words behind a text.
fn put_entries(text: &mut String, entries: &[(Vec<u8>, Entry)]) -> Result<(), AllocError> {
    for (term, entry) in entries {
        put_word(text, if term.is_empty() { "-" } else { "" })?;
        put_bytes(text, term)?;
        text.push_str(":")?;
        put_entry(text, *entry)?;
    }
    Ok(())
}

/// An answer as it grows, a word behind the other. Where memory is refused to a word, that is told
/// at the end.
#[derive(Drop)]
pub struct Told {
    text: String,
    is_short: bool,
}

impl Told {
    /// One without a word.
    pub(crate) fn new(alloc: Global) -> Told {
        Told {
            text: String::new(alloc),
            is_short: false,
        }
    }

    /// All of it, unless memory was refused to a word.
    pub(crate) fn into_text(self) -> Result<String, Fault> {
        if self.is_short {
            return Err(MEMORY);
        }
        Ok(self.text)
    }

    /// Keeps that memory was refused.
    fn keep(&mut self, put: Result<(), AllocError>) {
        if put.is_err() {
            self.is_short = true;
        }
    }

    /// A word.
    pub(crate) fn word(&mut self, word: &str) {
        let put = put_word(&mut self.text, word);
        self.keep(put);
    }

    /// A text behind what is there, with no blank.
    pub(crate) fn put(&mut self, text: &str) {
        let put = self.text.push_str(text);
        self.keep(put);
    }

    /// A fault.
    pub(crate) fn fault(&mut self, fault: Fault) {
        self.word(fault.0);
    }

    /// A truth.
    pub(crate) fn truth(&mut self, is: bool) {
        self.word(if is { "yes" } else { "no" });
    }

    /// A number.
    pub(crate) fn number(&mut self, number: u64) {
        self.word("");
        let put = put_number(&mut self.text, number);
        self.keep(put);
    }

    /// Bytes.
    pub(crate) fn bytes(&mut self, bytes: &[u8]) {
        self.word(if bytes.is_empty() { "-" } else { "" });
        let put = put_bytes(&mut self.text, bytes);
        self.keep(put);
    }

    /// Numbers.
    pub(crate) fn numbers(&mut self, numbers: &[u32]) {
        self.word(if numbers.is_empty() { "-" } else { "" });
        let put = put_numbers(&mut self.text, numbers);
        self.keep(put);
    }

    /// An entry, if there is one.
    pub(crate) fn entry(&mut self, entry: Option<Entry>) {
        let Some(entry) = entry else {
            self.word("-");
            return;
        };
        self.word("");
        let put = put_entry(&mut self.text, entry);
        self.keep(put);
    }

    /// Terms with their entries.
    pub(crate) fn entries(&mut self, entries: &[(Vec<u8>, Entry)]) {
        if entries.is_empty() {
            self.word("-");
        }
        let put = put_entries(&mut self.text, entries);
        self.keep(put);
    }
}
