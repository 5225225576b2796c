/// A command of `fsckptadm`.
#[derive(Clone, Copy, Debug, PartialEq, Eq)]
pub enum Command {
    /// Plays the script on standard input.
    Play,
    /// Makes a volume with so many data blocks and records.
    Mkfs(u32, u32),
}
