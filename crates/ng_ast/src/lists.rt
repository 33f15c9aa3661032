ghost use Rattle.std.specs.Prelude.{◌≡◌};

use sqlite_items::Items;

/// A list that contracts see as its items.
pub trait ListOf<T> {
    /// The list of these items. It takes no memory.
    fn of(items: Vec<T>) -> Self;

    /// The items of the list.
    fn items(&self) -> &[T];
}

impl<T> ListOf<T> for Items<T> {
    fn of(items: Vec<T>) -> Items<T>
        ensures { result ≡ items.items }
    {
        Items::from_vec(items)
    }

    fn items(&self) -> &[T]
        ensures { result.now ≡ self.now }
    {
        self.as_slice()
    }
}
