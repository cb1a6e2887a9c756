//! What a call tells its caller.

/// What became of a call.
#[derive(Clone, Copy)]
pub enum Status {
    /// It is done.
    Done = 0,
    /// A reply is there, and is to be sent.
    Reply = 1,
    /// There is nothing to be sent, to be taken or to be written.
    Nothing = 2,
    /// A service is to be asked, and its reply rewritten.
    Ask = 3,
    /// A response came, and was answered.
    Response = 4,
    /// A reply was dropped, since the queue or the response budget had no room.
    Dropped = 5,
    /// The connection is to be closed.
    Close = 6,
    /// A reply waits for room: it is given again, once a frame was written.
    Held = 7,
    /// There was no memory.
    NoMemory = 16,
    /// A handle holds nothing, or something of another kind.
    NoHandle = 17,
    /// A number is out of its range.
    OutOfRange = 18,
    /// The buffer is too short: the length that is written says how long it has to be.
    NoRoom = 19,
    /// The octets are no message that can be read.
    Unreadable = 20,
    /// The reply would take more than 65,535 octets.
    TooLong = 21,
    /// A pointer to an object is null.
    NullPointer = 22,
    /// A line of the text says no setting.
    BadLine = 23,
}
