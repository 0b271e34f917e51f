ghost use Rattle.std.specs.Prelude.{◌≡◌, List, [], ◌∷◌, ◌++◌, length};

use std::marker::Model;

/// A list in a public field: a `Vec` that contracts see as the list of its items.
#[derive(Debug, Drop)]
pub struct Items<X> {
    items: Vec<X>,
}

impl<X> Model for Items<X> {
    ghost use Rattle.std.specs.Prelude.{List};
    ghost use Rattle.std.specs.Coded.{coded_list};

    ghost Value = { List X };

    ghost coded = { coded_list X.code };

    ghost view = { λ it. it.items.items };
}

impl<X> Items<X> {
    /// The list of these items. Takes no memory.
    pub fn of(items: Vec<X>) -> Items<X>
        ensures { result ≡ items.items }
    {
        Items { items }
    }

    /// The items in order. Takes no memory.
    pub fn as_slice(&self) -> &[X]
        ensures { result.now ≡ self.now }
    {
        self.items.as_slice()
    }

    /// Gives the `Vec` back. Takes no memory.
    pub fn into_vec(self) -> Vec<X>
        ensures { result.items ≡ self }
    {
        let Items { items } = self;
        items
    }
}
