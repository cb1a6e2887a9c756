//! Commands to servers.

/// What a server may be told to do. No call takes one: a server is told by its `Control`.
#[derive(Clone, Copy, Debug)]
pub enum ServerCommand<T> {
    /// No command was given yet.
    Init,
    /// The configuration is replaced.
    Reconfigure(T),
    /// One connection ends.
    CloseConnection,
    /// The server ends.
    Shutdown,
}
