use crate::fault::TreeFault;
use ck_model::Reply;

impl From<TreeFault> for Reply {
    ghost use Rattle.std.specs.Prelude.{◌≡◌};
    ghost use Rattle.ck_tree.specs.Faults.{reply_of};

    ghost from_gives = { λ fault reply. reply ≡ reply_of fault };

    fn from(fault: TreeFault) -> Reply {
        match fault {
            TreeFault::NotFound => Reply::NotFound,
            TreeFault::NotDir => Reply::NotDir,
            TreeFault::IsDir => Reply::IsDir,
            TreeFault::Exists => Reply::Exists,
            TreeFault::NotEmpty => Reply::NotEmpty,
            TreeFault::Root => Reply::Root,
            TreeFault::TooBig(size, limit) => Reply::TooBig(size, limit),
            TreeFault::Spent => Reply::Spent,
            TreeFault::NoMemory => Reply::NoMemory,
        }
    }
}
