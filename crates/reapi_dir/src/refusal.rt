/// Why bytes are no Directory message, and at which byte of the message, from 0.
#[derive(Clone, Copy, Debug, PartialEq, Eq)]
pub enum DirRefusal {
    /// A key, varint, length or required field is missing, or a length runs past its enclosing bytes: the end of these.
    Truncated(usize),
    /// The varint that begins here isn't shortest, has more than 10 bytes, or is above 2^64 - 1; or it is a flag and not 1.
    Varint(usize),
    /// The key that begins here isn't one that may stand there.
    Key(usize),
    /// The name or target that begins here isn't one.
    Name(usize),
    /// The name that begins here isn't greater than the one before it in its list, or stands in an earlier list.
    Order(usize),
    /// The hash that begins here isn't 64 lower-case hexadecimal digits.
    Hash(usize),
    /// The size that begins here is 0, or above its limit.
    Size(usize),
    /// The key of the 10,000th child.
    Many(usize),
    /// Want of memory.
    NoMemory,
}
