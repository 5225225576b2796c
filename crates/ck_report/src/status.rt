use ck_model::Octets;

/// How a command ends.
#[derive(Debug, Drop)]
pub enum Status {
    Done,
    /// The words of the refusal.
    Refused(Octets),
    /// The words match no command.
    Usage,
    /// The number of the first line that is refused.
    BadScript(u32),
    /// Why the device isn't opened.
    NotOpened(Octets),
    DeviceFault,
    SourceFault,
    SinkFault,
    NoMemory,
}
