/// Why no volume was made on a device.
#[derive(Clone, Copy, Debug, PartialEq, Eq)]
pub enum FormatLog {
    /// The device has fewer blocks than the volume needs. Nothing was written.
    BadSize { needs: u32, has: u32 },
    /// A write or a sync of the device failed.
    WriteFault,
}

/// Why no volume was opened on a device.
#[derive(Clone, Copy, Debug, PartialEq, Eq)]
pub enum OpenLog {
    /// There is no volume, its numbers are out of the limits, or the device is too short for it.
    NotVolume,
    /// A volume of another format, with its number.
    BadFormat(u32),
    /// A number of an intent log is wrong: the device's block, and the place in it. This format
    /// has no such log, so opening never answers it.
    Damaged { block: u32, slot: u32 },
    /// A read of the header or the gate failed.
    ReadFault,
    /// The sync before them failed.
    WriteFault,
    /// Opening takes no memory in this format, so it never answers this.
    NoMemory,
}
