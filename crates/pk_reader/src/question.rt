//! What a reader is asked.

use pk_model::{DocNo, Query};

/// A command that only reads.
#[derive(Clone, Copy, Drop)]
pub enum Question<'a> {
    Find(&'a Query),
    Show(DocNo),
    Count,
}
