//! Laws of the file in memory, each the contract of a function with nothing to do.

use crate::memory::MemoryFile;
use pk_disk::Disk;
use pk_filedisk::{FileDisk, RawFile};

/// A file in memory is honest, whatever its script says.
pub fn a_memory_file_is_honest()
    ensures { ⟦<MemoryFile as RawFile>⟧.honest }
{}

/// So is a disk in one.
pub fn disk_in_a_memory_file_is_honest()
    ensures { ⟦<FileDisk<MemoryFile> as Disk>⟧.honest }
{}
