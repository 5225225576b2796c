ghost use Rattle.std.specs.Prelude.{◌≡◌, List};

use crate::NameBytes;
use std::marker::Model;

/// A name in a directory.
#[derive(Clone, Copy, Debug, PartialEq, Eq)]
pub struct Child {
    pub name: NameBytes,
    pub node: u32,
    pub dir: bool,
}

/// The names of a directory, in the order of their bytes.
#[derive(Debug, Drop)]
pub struct Children {
    children: Vec<Child>,
}

impl Model for Children {
    ghost use Rattle.std.specs.Prelude.{List};
    ghost use Rattle.ck_model.specs.declared.child.Child.{Child};

    ghost Value = { List Child };

    ghost view = { λ directory. directory.children.items };
}

impl Children {
    pub fn of(items: Vec<Child>) -> Children
        ensures { result ≡ items.items }
    {
        Children { children: items }
    }

    pub fn items(&self) -> &[Child]
        ensures { result.now ≡ self.now }
    {
        &self.children
    }

    pub fn into_vec(self) -> Vec<Child>
        ensures { result.items ≡ self }
    {
        self.children
    }
}
