ghost use Rattle.ck_stream.specs.Laws.{NoneBeginsAnother, BackupsApply};

/// No stream's bytes begin another stream's, and no two streams have the same bytes.
pub fn none_begins_another()
    ensures { NoneBeginsAnother }
{}

/// What changed from one map to another of the same history, applied to the first one's full stream,
/// gives the second one's, byte for byte.
pub fn backups_apply()
    ensures { BackupsApply }
{}
