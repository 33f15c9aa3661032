ghost use Rattle.std.specs.Prelude.{◌≡◌, ◌↔◌, IsTrue};
ghost use Rattle.std.specs.Cmp.{decided, partial_equiv_from_equiv};
ghost use Rattle.ng_tree.specs.Same.{is_same_step, is_same_step_decides, is_same_path, is_same_path_decides, is_same_node, is_same_node_decides, is_same_site, is_same_site_decides};

use crate::{NodeId, Path, Site, Step};

impl Step {
    /// Whether the two are one step: of one variant, with the same numbers and the same key.
    pub fn same(&self, other: &Step) -> bool
        ensures { IsTrue result ↔ (self.now ≡ other.now) }
    {
        match self {
            Step::Child(mine) => match other {
                Step::Child(theirs) => mine == theirs,
                _ => false,
            },
            Step::Branch(mine, my_branch) => match other {
                Step::Branch(theirs, their_branch) => mine == theirs && my_branch == their_branch,
                _ => false,
            },
            Step::Row(mine, my_key, my_occurrence) => match other {
                Step::Row(theirs, their_key, their_occurrence) => {
                    mine == theirs && my_occurrence == their_occurrence && my_key.same(their_key)
                }
                _ => false,
            },
            Step::Outlet(mine, my_template) => match other {
                Step::Outlet(theirs, their_template) => {
                    mine == theirs && my_template == their_template
                }
                _ => false,
            },
        }
    }
}

impl PartialEq for Step {
    ghost eq = { is_same_step };

    ghost laws = { partial_equiv_from_equiv (decided is_same_step is_same_step_decides) };

    fn eq(&self, other: &Step) -> bool {
        self.same(other)
    }
}

impl Eq for Step {
    ghost laws = { decided is_same_step is_same_step_decides };
}

impl Path {
    /// Whether the two paths have the same steps.
    pub fn same(&self, other: &Path) -> bool
        ensures { IsTrue result ↔ (self.now ≡ other.now) }
    {
        self.items() == other.items()
    }
}

impl PartialEq for Path {
    ghost eq = { is_same_path };

    ghost laws = { partial_equiv_from_equiv (decided is_same_path is_same_path_decides) };

    fn eq(&self, other: &Path) -> bool {
        self.same(other)
    }
}

impl Eq for Path {
    ghost laws = { decided is_same_path is_same_path_decides };
}

impl NodeId {
    /// Whether the two are one node.
    pub fn same(&self, other: &NodeId) -> bool
        ensures { IsTrue result ↔ (self.now ≡ other.now) }
    {
        match self {
            NodeId::Root => matches!(other, NodeId::Root),
            NodeId::At(my_path, mine) => match other {
                NodeId::At(their_path, theirs) => mine == theirs && my_path.same(their_path),
                _ => false,
            },
        }
    }
}

impl PartialEq for NodeId {
    ghost eq = { is_same_node };

    ghost laws = { partial_equiv_from_equiv (decided is_same_node is_same_node_decides) };

    fn eq(&self, other: &NodeId) -> bool {
        self.same(other)
    }
}

impl Eq for NodeId {
    ghost laws = { decided is_same_node is_same_node_decides };
}

impl Site {
    /// Whether the two are one site.
    pub fn same(&self, other: &Site) -> bool
        ensures { IsTrue result ↔ (self.now ≡ other.now) }
    {
        match self {
            Site::Component(mine) => match other {
                Site::Component(theirs) => mine.same(theirs),
                _ => false,
            },
            Site::Element(mine) => match other {
                Site::Element(theirs) => mine.same(theirs),
                _ => false,
            },
            Site::Service(my_path, my_view, my_token) => match other {
                Site::Service(their_path, their_view, their_token) => {
                    my_token == their_token && my_view == their_view && my_path.same(their_path)
                }
                _ => false,
            },
            Site::Env(mine, my_token) => match other {
                Site::Env(theirs, their_token) => mine == theirs && my_token == their_token,
                _ => false,
            },
        }
    }
}

impl PartialEq for Site {
    ghost eq = { is_same_site };

    ghost laws = { partial_equiv_from_equiv (decided is_same_site is_same_site_decides) };

    fn eq(&self, other: &Site) -> bool {
        self.same(other)
    }
}

impl Eq for Site {
    ghost laws = { decided is_same_site is_same_site_decides };
}
