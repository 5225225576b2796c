ghost use Rattle.ck_merge.specs.Laws.{MergedApplies, MergedHasBoth, BackupsMerge};

/// To apply what is merged is to apply one after the other, to any list.
pub fn merged_applies()
    ensures { MergedApplies }
{}

/// What is merged has the keys of both and no others, and the second's record where both have one.
pub fn merged_has_both()
    ensures { MergedHasBoth }
{}

/// What changed from one map to a second, merged with what changed from there to a third one of the
/// same history and applied to the first one's full stream, gives the third one's, byte for byte.
pub fn backups_merge()
    ensures { BackupsMerge }
{}
