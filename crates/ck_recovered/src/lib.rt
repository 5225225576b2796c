//! What holds of every volume that opens: its world, what its histories keep, and its backups.
#![tactic(auto)]

mod laws;

pub use laws::{
    every_device_has_blocks, every_volume_opens_to_a_world, histories_keep_frozen_maps,
    histories_keep_worlds,
};
