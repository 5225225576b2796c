ghost use Rattle.ck_report.specs.Printed.{TextsTell};

/// Two legal histories of one script whose texts are the same are the same, but for which node a
/// name in a list stands for and the bytes of a stream behind its digest. Their numbers, bytes and
/// names are such as `transcript` prints.
pub fn texts_tell()
    ensures { TextsTell }
{}
