ghost use Rattle.std.specs.Prelude.{◌≡◌, find};
ghost use Rattle.ck_script.specs.Arguments.{is_text as same_text};
ghost use Rattle.ck_script.specs.Verb.{verb_text, verb_of as verb_in};

use crate::arguments::is_text;

/// What a call is named by.
#[derive(Clone, Copy)]
pub enum Verb {
    Make,
    Mkdir,
    Rm,
    Rmdir,
    Mv,
    Write,
    Fill,
    Trunc,
    Read,
    Ls,
    Stat,
    Create,
    Remove,
    Nodata,
    Removable,
    Ckpts,
    Mount,
    Umount,
    Cread,
    Cls,
    Restore,
    Backup,
    Full,
    Info,
    Sync,
}

const VERBS: [Verb; 25] = [
    Verb::Make,
    Verb::Mkdir,
    Verb::Rm,
    Verb::Rmdir,
    Verb::Mv,
    Verb::Write,
    Verb::Fill,
    Verb::Trunc,
    Verb::Read,
    Verb::Ls,
    Verb::Stat,
    Verb::Create,
    Verb::Remove,
    Verb::Nodata,
    Verb::Removable,
    Verb::Ckpts,
    Verb::Mount,
    Verb::Umount,
    Verb::Cread,
    Verb::Cls,
    Verb::Restore,
    Verb::Backup,
    Verb::Full,
    Verb::Info,
    Verb::Sync,
];

impl Verb {
    fn text(self) -> &'static [u8]
        ensures { result.now ≡ verb_text self }
    {
        match self {
            Verb::Make => b"make",
            Verb::Mkdir => b"mkdir",
            Verb::Rm => b"rm",
            Verb::Rmdir => b"rmdir",
            Verb::Mv => b"mv",
            Verb::Write => b"write",
            Verb::Fill => b"fill",
            Verb::Trunc => b"trunc",
            Verb::Read => b"read",
            Verb::Ls => b"ls",
            Verb::Stat => b"stat",
            Verb::Create => b"create",
            Verb::Remove => b"remove",
            Verb::Nodata => b"nodata",
            Verb::Removable => b"removable",
            Verb::Ckpts => b"ckpts",
            Verb::Mount => b"mount",
            Verb::Umount => b"umount",
            Verb::Cread => b"cread",
            Verb::Cls => b"cls",
            Verb::Restore => b"restore",
            Verb::Backup => b"backup",
            Verb::Full => b"full",
            Verb::Info => b"info",
            Verb::Sync => b"sync",
        }
    }

    /// The verb with this text.
    pub fn of(word: &[u8]) -> Option<Verb>
        ensures { result ≡ verb_in word.now }
    {
        first_with(&VERBS, word)
    }
}

fn first_with(verbs: &[Verb], word: &[u8]) -> Option<Verb>
    ensures { result ≡ find (λ verb. same_text word.now (verb_text verb)) verbs.now }
{
    verbs
        .iter()
        .copied()
        .find(|verb| is_text(word, verb.text()))
}
