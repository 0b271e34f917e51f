// What calls of the outside answer.

/// What a read answers.
#[derive(Clone, Copy, Debug, PartialEq, Eq)]
pub enum Got {
    /// This many bytes, at least one, stand at the front of the buffer.
    Taken(usize),
    /// No byte is left.
    End,
    /// The source failed, and its count of faults rose.
    Failed,
}

/// What a write answers.
#[derive(Clone, Copy, Debug, PartialEq, Eq)]
pub enum Put {
    /// All bytes went out.
    All,
    /// The sink failed, and its count of faults rose; a prefix of the bytes went out.
    Failed,
    /// Memory was refused; a prefix of the bytes went out.
    NoMemory,
}

/// What a call of a device answers that gives no value.
#[derive(Clone, Copy, Debug, PartialEq, Eq)]
pub enum Did {
    /// It is done.
    Done,
    /// The device failed, and its count of faults rose.
    Failed,
    /// Memory was refused.
    NoMemory,
}
