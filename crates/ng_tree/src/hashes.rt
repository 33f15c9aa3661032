ghost use Rattle.std.specs.Hash.{same_Alike};
ghost use Rattle.ng_tree.specs.Feed.{step_feed, path_feed, node_feed, site_feed};
ghost use Rattle.ng_tree.specs.Same.{is_same_step_decides, is_same_path_decides, is_same_node_decides, is_same_site_decides};

use crate::{NodeId, Path, Site, Step};
use std::hash::{Hash, Hasher};

impl Hash for Step {
    ghost hash_input = { step_feed };

    ghost respects_eq = { (same_Alike step_feed is_same_step_decides).fed };

    fn hash<H: Hasher>(&self, state: &mut H) {
        match self {
            Step::Child(n) => {
                state.write_u8(0);
                n.hash(state);
            }
            Step::Branch(n, branch) => {
                state.write_u8(1);
                n.hash(state);
                branch.hash(state);
            }
            Step::Row(n, key, occurrence) => {
                state.write_u8(2);
                n.hash(state);
                key.hash(state);
                occurrence.hash(state);
            }
            Step::Outlet(n, template) => {
                state.write_u8(3);
                n.hash(state);
                template.hash(state);
            }
        }
    }
}

impl Hash for Path {
    ghost hash_input = { path_feed };

    ghost respects_eq = { (same_Alike path_feed is_same_path_decides).fed };

    fn hash<H: Hasher>(&self, state: &mut H) {
        self.items().hash(state);
    }
}

impl Hash for NodeId {
    ghost hash_input = { node_feed };

    ghost respects_eq = { (same_Alike node_feed is_same_node_decides).fed };

    fn hash<H: Hasher>(&self, state: &mut H) {
        match self {
            NodeId::Root => state.write_u8(0),
            NodeId::At(path, n) => {
                state.write_u8(1);
                path.hash(state);
                n.hash(state);
            }
        }
    }
}

impl Hash for Site {
    ghost hash_input = { site_feed };

    ghost respects_eq = { (same_Alike site_feed is_same_site_decides).fed };

    fn hash<H: Hasher>(&self, state: &mut H) {
        match self {
            Site::Component(path) => {
                state.write_u8(0);
                path.hash(state);
            }
            Site::Element(id) => {
                state.write_u8(1);
                id.hash(state);
            }
            Site::Service(path, in_view, token) => {
                state.write_u8(2);
                path.hash(state);
                in_view.hash(state);
                token.hash(state);
            }
            Site::Env(environment, token) => {
                state.write_u8(3);
                environment.hash(state);
                token.hash(state);
            }
        }
    }
}
