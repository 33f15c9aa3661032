ghost use Rattle.std.specs.Prelude.{◌≡◌, ◌↔◌, ◌⊎◌, List};
ghost use Rattle.std.specs.Ordering.{ordering_reverse};
ghost use Rattle.std.specs.declared.cmp.Ordering.TheVariants.{Equal};
ghost use Rattle.ng_tree.specs.declared.Step.{Step};
ghost use Rattle.ng_tree.specs.Order.{number, rank, rest_cmp, variant_cmp, step_cmp, path_cmp};
ghost use Rattle.ng_tree.specs.OrderTotal.{IsUpTo};

use crate::{Path, Step};
use std::cmp::Ordering;

/// The order of two paths, which is this project's own. The first step that differs decides, and a
/// path is before those that go on from it. Steps go by the node's number, then by variant in the
/// order of [`Step`]'s, and then by what follows from left to right; the keys of rows go as
/// `Value::compare` has them. It takes no memory, and time linear in what the paths have in common.
pub fn compare(a: &Path, b: &Path) -> Ordering
    ensures exact { result ≡ path_cmp a.now b.now }
    ensures same { (result ≡ Equal) ↔ (a.now ≡ b.now) }
{
    compare_steps(a.items(), b.items())
}

/// The order of paths is a total order: a path isn't after itself, two paths of which neither is after
/// the other are one path, what isn't after a path isn't after any that follows it, and of two paths
/// one isn't after the other. Turned round, it is the order of the two the other way.
pub fn order_is_total()
    ensures reflexive { (p : List Step) → IsUpTo p p }
    ensures antisymmetric { (p q : List Step) → IsUpTo p q → IsUpTo q p → p ≡ q }
    ensures transitive { (p q r : List Step) → IsUpTo p q → IsUpTo q r → IsUpTo p r }
    ensures total { (p q : List Step) → IsUpTo p q ⊎ IsUpTo q p }
    ensures reversed { (p q : List Step) → path_cmp p q ≡ ordering_reverse (path_cmp q p) }
{}

impl PartialOrd for Step {
    ghost use Rattle.std.specs.Prelude.{Some, refl};
    ghost use Rattle.std.specs.Cmp.{partial_order_from_agreeing_total};
    ghost use Rattle.ng_tree.specs.OrderTotal.{step_total, step_ties};

    ghost partial_cmp = { λ x y. Some (step_cmp x y) };

    ghost laws = { partial_order_from_agreeing_total step_cmp step_total (λ x y. refl) step_ties };

    fn partial_cmp(&self, other: &Step) -> Option<Ordering> {
        Some(compare_step(self, other))
    }
}

/// Steps go by the node's number, then by variant, and then by what follows.
impl Ord for Step {
    ghost use Rattle.std.specs.Prelude.{refl};
    ghost use Rattle.ng_tree.specs.OrderTotal.{step_total, step_ties};

    ghost cmp = { step_cmp };

    ghost total = { step_total };

    ghost matches_partial_cmp = { λ x y. refl };

    ghost matches_eq = { step_ties };

    fn cmp(&self, other: &Step) -> Ordering {
        compare_step(self, other)
    }
}

impl PartialOrd for Path {
    ghost use Rattle.std.specs.Prelude.{Some, refl};
    ghost use Rattle.std.specs.Cmp.{partial_order_from_agreeing_total};
    ghost use Rattle.ng_tree.specs.OrderTotal.{path_total, path_ties};

    ghost partial_cmp = { λ x y. Some (path_cmp x y) };

    ghost laws = { partial_order_from_agreeing_total path_cmp path_total (λ x y. refl) path_ties };

    fn partial_cmp(&self, other: &Path) -> Option<Ordering> {
        Some(compare(self, other))
    }
}

/// The order of [`compare`].
impl Ord for Path {
    ghost use Rattle.std.specs.Prelude.{refl};
    ghost use Rattle.ng_tree.specs.OrderTotal.{path_total, path_ties};

    ghost cmp = { path_cmp };

    ghost total = { path_total };

    ghost matches_partial_cmp = { λ x y. refl };

    ghost matches_eq = { path_ties };

    fn cmp(&self, other: &Path) -> Ordering {
        compare(self, other)
    }
}

fn compare_steps(mine: &[Step], theirs: &[Step]) -> Ordering
    ensures { result ≡ path_cmp mine.now theirs.now }
{
    for at in 0..mine.len().min(theirs.len()) {
        match compare_step(&mine[at], &theirs[at]) {
            Ordering::Less => return Ordering::Less,
            Ordering::Equal => {}
            Ordering::Greater => return Ordering::Greater,
        }
    }
    mine.len().cmp(&theirs.len())
}

fn compare_step(mine: &Step, theirs: &Step) -> Ordering
    ensures { result ≡ step_cmp mine.now theirs.now }
{
    match mine.number().cmp(&theirs.number()) {
        Ordering::Less => Ordering::Less,
        Ordering::Equal => compare_variant(mine, theirs),
        Ordering::Greater => Ordering::Greater,
    }
}

fn compare_variant(mine: &Step, theirs: &Step) -> Ordering
    ensures { result ≡ variant_cmp mine.now theirs.now }
{
    match mine.rank().cmp(&theirs.rank()) {
        Ordering::Less => Ordering::Less,
        Ordering::Equal => compare_rest(mine, theirs),
        Ordering::Greater => Ordering::Greater,
    }
}

// The order of what follows the number, where the variants are one.
fn compare_rest(mine: &Step, theirs: &Step) -> Ordering
    ensures { result ≡ rest_cmp mine.now theirs.now }
{
    match mine {
        Step::Child(_) => Ordering::Equal,
        Step::Branch(_, mine) => match theirs {
            Step::Branch(_, theirs) => mine.cmp(theirs),
            _ => Ordering::Equal,
        },
        Step::Row(_, my_key, mine) => match theirs {
            Step::Row(_, their_key, theirs) => match my_key.compare(their_key) {
                Ordering::Less => Ordering::Less,
                Ordering::Equal => mine.cmp(theirs),
                Ordering::Greater => Ordering::Greater,
            },
            _ => Ordering::Equal,
        },
        Step::Outlet(_, mine) => match theirs {
            Step::Outlet(_, theirs) => mine.cmp(theirs),
            _ => Ordering::Equal,
        },
    }
}

impl Step {
    // The number of the node that the step goes into.
    fn number(&self) -> u32
        ensures { result ≡ number self.now }
    {
        match self {
            Step::Child(n) => *n,
            Step::Branch(n, _) => *n,
            Step::Row(n, _, _) => *n,
            Step::Outlet(n, _) => *n,
        }
    }

    // The place of the step's variant.
    fn rank(&self) -> u8
        ensures { result ≡ rank self.now }
    {
        match self {
            Step::Child(_) => 0,
            Step::Branch(_, _) => 1,
            Step::Row(_, _, _) => 2,
            Step::Outlet(_, _) => 3,
        }
    }
}
