//! Why a store is not opened.

/// Why a store isn't opened.
#[derive(Clone, Copy, Debug, PartialEq, Eq)]
pub enum OpenFault {
    /// A growth of memory was refused.
    NoMemory,
    /// The disk failed or refused, or the connection was shut.
    Store,
    /// The disk gave back what is no page of a database: the files are damaged.
    Damaged,
    /// A statement was refused, which tells nothing of what is there.
    Refused,
    /// The rows stand for no rings and requests. No row was changed.
    BadRows,
    /// A text in the rows is no UTF-8. No row was changed.
    BadTexts,
    /// There are other tables than those of the store, or they are declared otherwise. Nothing was
    /// changed.
    BadTables,
}

/// Why the files at a path aren't opened.
#[derive(Clone, Copy, PartialEq, Eq)]
pub enum FileFault {
    /// Another handle has them open.
    Busy,
    /// They couldn't be opened or made, as where the folder is missing or nothing may be written.
    CannotOpen,
    /// They hold no database.
    NoDatabase,
    /// They are damaged: what was read is no page of a database.
    Damaged,
    /// A growth of memory was refused before they were open.
    NoMemory,
    /// Their disk failed or refused before they were open.
    Store,
    /// They were opened, and what they hold isn't opened for this cause.
    Opening(OpenFault),
}

/// Why no store is made.
#[derive(Clone, Copy, PartialEq, Eq)]
pub enum MakeFault {
    /// There is something at the path already. It stays as it was.
    PathTaken,
    /// There are tables already. They stay as they were.
    Taken,
    /// A text that the rings published is not their own, so an opening would refuse them. Nothing was
    /// opened.
    ForeignText,
    /// It couldn't be opened or written, for this cause.
    Opening(FileFault),
}
