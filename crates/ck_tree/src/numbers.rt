ghost use Rattle.std.specs.Prelude.{◌≡◌, Some, None, nat_eq, if◌then◌else◌};

use ck_model::Meta;

/// The next file number, `None` where none is left. The number stays the next one.
pub fn draw<M: Meta>(meta: &M) -> Option<u32>
    ensures { let number = (M.table meta.now).counters.number in
        result ≡ (if nat_eq number 4294967295 then None else Some number) }
{
    let number = meta.counters().number;
    if number == u32::MAX {
        None
    } else {
        Some(number)
    }
}
