ghost use Rattle.ck_laws.specs.Fits.{FitsLast};
ghost use Rattle.ck_laws.specs.Laws.{CallsKeepTrees, CallsKeepWorlds, ChangesApply, FrozenChangesApply, FrozenMapsAgree, FrozenMapsLast, FrozenMapsStay, KeptMapsAreFrozen, MountsLast, OrderStays, TablesAreOrdered, TablesStand, TreesBegin, TreesStay, WorldsBegin, WorldsStay};

/// What a checkpoint froze stays: after every legal history of a well-formed world, each checkpoint
/// that stands has the primary map of the entry that created it, or, if it stood at the beginning,
/// its own map of then. Where it is nodata, it has that map with marks in place of the blocks.
pub fn frozen_maps_stay()
    ensures { FrozenMapsStay }
{}

/// The maps that are frozen in one history, with their data, are of one history: at a key at which two
/// of them have equal stamps, they hold the same. So what changed from one to the other, applied to
/// the list of the first one's keys and contents, gives that of the other.
pub fn frozen_maps_agree()
    ensures agree { FrozenMapsAgree }
    ensures apply { FrozenChangesApply }
{}

/// What changed from one map to another, applied to the list of the first one's keys and contents,
/// gives that of the second, for any two maps in which equal stamps at a key mean equal cells.
pub fn changes_apply()
    ensures { ChangesApply }
{}

/// What holds of every world that a volume has: its checkpoints stand by their ids, all below the
/// next id; a nodata one has marks in place of blocks; no two have one name; no stamp and no number of
/// a file that a map has is still to be given; each payload of bytes has 4,096 of them; and in all
/// maps, but for marks, equal stamps at a key mean equal cells. It holds of the empty world and of that
/// of every table that obeys the rules, and stays so in every call and through every legal history.
pub fn worlds_stay()
    ensures begin { WorldsBegin }
    ensures tables { TablesStand }
    ensures tables_in_order { TablesAreOrdered }
    ensures calls { CallsKeepWorlds }
    ensures histories { WorldsStay }
    ensures order { OrderStays }
{}

/// The tree rule: in the empty world's map, in every map after a call on a well-formed world whose
/// maps all have it, and in every map after a legal history of such a world, the nodes are a tree of
/// directories under node 0, files have blocks below their sizes alone, and zeros behind them.
pub fn trees_stay()
    ensures begin { TreesBegin }
    ensures calls { CallsKeepTrees }
    ensures histories { TreesStay }
{}

/// As a history goes on, what was frozen under an id stays so, and an actor's letter stands for the
/// same id until an entry of that actor comes. A checkpoint that stands with its data has the map that
/// was frozen under its id. So a read of a frozen file that is on its way goes on to fit its call, whatever
/// other actors do.
pub fn frozen_maps_last()
    ensures maps { FrozenMapsLast }
    ensures mounts { MountsLast }
    ensures kept { KeptMapsAreFrozen }
    ensures reads { FitsLast }
{}
