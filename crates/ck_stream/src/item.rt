use ck_model::{Key, Payload};
use std::marker::Model;

/// One record of a stream.
#[derive(Debug, Drop)]
pub enum Item {
    /// The key has this.
    Put(Key, Payload),
    /// The key has nothing any more.
    Removed(Key),
}

impl Item {
    ghost use Rattle.std.specs.Prelude.{◌≡◌};
    ghost use Rattle.ck_stream.specs.Right.{key_of};

    pub fn key(&self) -> Key
        ensures { result ≡ key_of self.now }
    {
        match self {
            Item::Put(key, _) | Item::Removed(key) => *key,
        }
    }
}

/// The records of a stream, in order.
#[derive(Debug, Drop)]
pub struct Items {
    items: Vec<Item>,
}

impl Model for Items {
    ghost use Rattle.std.specs.Prelude.{List};
    ghost use Rattle.ck_stream.specs.declared.item.Item.{Item};

    ghost Value = { List Item };

    ghost view = { λ list. list.items.items };
}

impl Items {
    ghost use Rattle.std.specs.Prelude.{◌≡◌};

    pub fn of(items: Vec<Item>) -> Items
        ensures { result ≡ items.items }
    {
        Items { items }
    }

    pub fn items(&self) -> &[Item]
        ensures { result.now ≡ self.now }
    {
        &self.items
    }

    pub fn into_vec(self) -> Vec<Item>
        ensures { result.items ≡ self }
    {
        self.items
    }
}
