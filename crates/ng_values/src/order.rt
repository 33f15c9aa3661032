ghost use Rattle.std.specs.Prelude.{◌≡◌};
ghost use Rattle.std.specs.Cmp.Lexicographic.{slice_cmp};
ghost use Rattle.ng_values.specs.Order.{order, order_pair, rank_of, content_of};
ghost use Rattle.ng_values.specs.View.{plain, plain_items, plain_pair, plain_pairs};

use crate::text::NgText;
use crate::value::Value;
use std::cmp::Ordering;

impl PartialOrd for Value {
    ghost use Rattle.std.specs.Prelude.{Some, refl};
    ghost use Rattle.std.specs.Cmp.{partial_order_from_agreeing_total};
    ghost use Rattle.ng_values.specs.OrderTotal.{value_cmp, value_total, value_ties};

    ghost partial_cmp = { λ x y. Some (value_cmp x y) };

    ghost laws = { partial_order_from_agreeing_total value_cmp value_total (λ x y. refl) value_ties };

    fn partial_cmp(&self, other: &Value) -> Option<Ordering> {
        Some(self.compare(other))
    }
}

impl Ord for Value {
    ghost use Rattle.std.specs.Prelude.{refl};
    ghost use Rattle.ng_values.specs.OrderTotal.{value_cmp, value_total, value_ties};

    ghost cmp = { value_cmp };

    ghost total = { value_total };

    ghost matches_partial_cmp = { λ x y. refl };

    ghost matches_eq = { value_ties };

    fn cmp(&self, other: &Value) -> Ordering {
        self.compare(other)
    }
}

impl Value {
    /// The order of two values, which is this project's own: by kind, in the order of the variants, and then by content. False is
    /// before true, numbers go by size, texts by bytes, lists item by item, records pair by pair with the key before the value; what
    /// is a beginning of the other is before it. It takes time linear in what they have in common.
    #[cycle(compare)]
    pub fn compare(&self, other: &Value) -> Ordering
        ensures { result ≡ order (plain self.now) (plain other.now) }
    {
        match self.rank().cmp(&other.rank()) {
            Ordering::Less => Ordering::Less,
            Ordering::Equal => self.compare_content(other),
            Ordering::Greater => Ordering::Greater,
        }
    }

    // The place of the value's kind.
    fn rank(&self) -> u8
        ensures { result ≡ rank_of self.now }
    {
        match self {
            Value::Null => 0,
            Value::Bool(_) => 1,
            Value::Int(_) => 2,
            Value::Text(_) => 3,
            Value::List(_) => 4,
            Value::Rec(_) => 5,
        }
    }

    // The order of the contents, where the kinds are one.
    #[cycle(compare)]
    fn compare_content(&self, other: &Value) -> Ordering
        ensures { result ≡ content_of self.now other.now }
    {
        match self {
            Value::Null => Ordering::Equal,
            Value::Bool(mine) => match other {
                Value::Bool(theirs) => mine.cmp(theirs),
                _ => Ordering::Equal,
            },
            Value::Int(mine) => match other {
                Value::Int(theirs) => mine.cmp(theirs),
                _ => Ordering::Equal,
            },
            Value::Text(mine) => match other {
                Value::Text(theirs) => mine.as_str().cmp(theirs.as_str()),
                _ => Ordering::Equal,
            },
            Value::List(mine) => match other {
                Value::List(theirs) => compare_items(mine.items(), theirs.items()),
                _ => Ordering::Equal,
            },
            Value::Rec(mine) => match other {
                Value::Rec(theirs) => compare_pairs(mine.pairs(), theirs.pairs()),
                _ => Ordering::Equal,
            },
        }
    }
}

#[cycle(compare)]
fn compare_items(mine: &[Value], theirs: &[Value]) -> Ordering
    ensures { result ≡ slice_cmp order (plain_items mine.now) (plain_items theirs.now) }
{
    for at in 0..mine.len().min(theirs.len()) {
        match mine[at].compare(&theirs[at]) {
            Ordering::Less => return Ordering::Less,
            Ordering::Equal => {}
            Ordering::Greater => return Ordering::Greater,
        }
    }
    mine.len().cmp(&theirs.len())
}

#[cycle(compare)]
fn compare_pairs(mine: &[(NgText, Value)], theirs: &[(NgText, Value)]) -> Ordering
    ensures { result ≡ slice_cmp order_pair (plain_pairs mine.now) (plain_pairs theirs.now) }
{
    for at in 0..mine.len().min(theirs.len()) {
        match compare_pair(&mine[at], &theirs[at]) {
            Ordering::Less => return Ordering::Less,
            Ordering::Equal => {}
            Ordering::Greater => return Ordering::Greater,
        }
    }
    mine.len().cmp(&theirs.len())
}

#[cycle(compare)]
fn compare_pair(mine: &(NgText, Value), theirs: &(NgText, Value)) -> Ordering
    ensures { result ≡ order_pair (plain_pair mine.now) (plain_pair theirs.now) }
{
    match mine.0.as_str().cmp(theirs.0.as_str()) {
        Ordering::Less => Ordering::Less,
        Ordering::Equal => mine.1.compare(&theirs.1),
        Ordering::Greater => Ordering::Greater,
    }
}
