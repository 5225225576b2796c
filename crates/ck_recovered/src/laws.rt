ghost use Rattle.ck_recovered.specs.Laws.{CrashesOpen, OpenedBackupsApply, OpenedChangesApply, OpenedMapsAgree, OpenedMapsStay, OpenedWorldsStay, ReadsOpen, VolumesOpen};

use ck_disk::Disk;
use ck_laws::{frozen_maps_agree, frozen_maps_stay, worlds_stay};
use ck_stream::backups_apply;

/// Each image of blocks that opens, opens to a world of which all holds that holds of every world.
pub fn every_volume_opens_to_a_world()
    ensures { VolumesOpen }
{
    worlds_stay();
}

/// Such are the images that a crash of a device may leave, now or since an earlier moment, and what
/// its reads give.
pub fn every_device_has_blocks<D: Disk>(disk: &D)
    ensures crashes { CrashesOpen (D.means disk.now) }
    ensures reads { ReadsOpen (D.means disk.now) }
{}

/// So is the world after every legal history of what an image opens to.
pub fn histories_keep_worlds()
    ensures { OpenedWorldsStay }
{
    every_volume_opens_to_a_world();
    worlds_stay();
}

/// In every legal history of what an image opens to, what a checkpoint froze stays, and the maps that
/// are frozen with their data are of one history. So what changed from one to another, applied to the
/// first one's contents, gives the second one's, and its backup does so byte for byte.
pub fn histories_keep_frozen_maps()
    ensures stay { OpenedMapsStay }
    ensures agree { OpenedMapsAgree }
    ensures apply { OpenedChangesApply }
    ensures backups { OpenedBackupsApply }
{
    every_volume_opens_to_a_world();
    frozen_maps_stay();
    frozen_maps_agree();
    backups_apply();
}
