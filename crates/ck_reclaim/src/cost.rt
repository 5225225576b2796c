ghost use Rattle.std.specs.Prelude.{◌≡◌};
ghost use Rattle.ck_reclaim.specs.Room.{fits_in};

use ck_model::Cost;

/// Whether so many data blocks and records are free.
pub fn fits(cost: &Cost, free: u32, spare: u32) -> bool
    ensures { result ≡ fits_in cost.now free spare }
{
    cost.blocks <= free && cost.records <= spare
}
