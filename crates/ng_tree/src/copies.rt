ghost use Rattle.std.specs.Prelude.{◌≡◌, IfOk};

use crate::{Item, NodeId, Path, Site, Sites, Step, Steps};
use sqlite_items::Items;
use std::alloc::{AllocError, Global};
use std::rc::Rc;

impl Step {
    /// An equal step, in constant time: the row's key is shared.
    pub fn copy(&self) -> Result<Step, AllocError>
        ensures { IfOk result (λ copy. copy ≡ self.now) }
    {
        match self {
            Step::Child(n) => Ok(Step::Child(*n)),
            Step::Branch(n, branch) => Ok(Step::Branch(*n, *branch)),
            Step::Row(n, key, occurrence) => Ok(Step::Row(*n, key.copy()?, *occurrence)),
            Step::Outlet(n, template) => Ok(Step::Outlet(*n, *template)),
        }
    }
}

fn copy_steps(alloc: Global, steps: &[Step]) -> Result<Vec<Step>, AllocError>
    ensures { IfOk result (λ copies. copies.items ≡ steps.now) }
{
    let mut copies = Vec::with_capacity(alloc, steps.len())?;
    for step in steps {
        copies.push(step.copy()?)?;
    }
    Ok(copies)
}

impl Path {
    /// The path of these steps, outermost first, whose copies share them from the first copy on.
    pub fn shared(alloc: Global, items: Vec<Step>) -> Result<Path, AllocError>
        ensures { IfOk result (λ path. path ≡ items.items) }
    {
        let items = Rc::new(alloc, items)?;
        Ok(Path {
            steps: Steps::Shared(items),
        })
    }

    /// An equal path. It takes constant time for a path that [`Path::shared`] or `copy` made, and time
    /// linear in the number of steps for one that [`Path::of`] made.
    pub fn copy(&self, alloc: Global) -> Result<Path, AllocError>
        ensures { IfOk result (λ copy. copy ≡ self.now) }
    {
        match &self.steps {
            Steps::Own(items) => {
                let copies = copy_steps(alloc, items.as_slice())?;
                Path::shared(alloc, copies)
            }
            Steps::Shared(items) => {
                let items = items.clone()?;
                Ok(Path {
                    steps: Steps::Shared(items),
                })
            }
        }
    }
}

impl NodeId {
    /// An equal identity, at the cost of a copy of its path.
    pub fn copy(&self, alloc: Global) -> Result<NodeId, AllocError>
        ensures { IfOk result (λ copy. copy ≡ self.now) }
    {
        match self {
            NodeId::Root => Ok(NodeId::Root),
            NodeId::At(path, n) => Ok(NodeId::At(path.copy(alloc)?, *n)),
        }
    }
}

impl Site {
    /// An equal site, at the cost of a copy of its path.
    pub fn copy(&self, alloc: Global) -> Result<Site, AllocError>
        ensures { IfOk result (λ copy. copy ≡ self.now) }
    {
        match self {
            Site::Component(path) => Ok(Site::Component(path.copy(alloc)?)),
            Site::Element(id) => Ok(Site::Element(id.copy(alloc)?)),
            Site::Service(path, in_view, token) => {
                Ok(Site::Service(path.copy(alloc)?, *in_view, *token))
            }
            Site::Env(environment, token) => Ok(Site::Env(*environment, *token)),
        }
    }
}

fn copy_sites(alloc: Global, sites: &[Site]) -> Result<Sites, AllocError>
    ensures { IfOk result (λ copies. copies ≡ sites.now) }
{
    let mut copies = Vec::with_capacity(alloc, sites.len())?;
    for site in sites {
        copies.push(site.copy(alloc)?)?;
    }
    Ok(Items::from_vec(copies))
}

impl Item {
    /// An equal item. A value is shared, sites are copied one by one.
    pub fn copy(&self, alloc: Global) -> Result<Item, AllocError>
        ensures { IfOk result (λ copy. copy ≡ self.now) }
    {
        match self {
            Item::Value(value) => Ok(Item::Value(value.copy()?)),
            Item::Site(site) => Ok(Item::Site(site.copy(alloc)?)),
            Item::Sites(sites) => Ok(Item::Sites(copy_sites(alloc, sites.as_slice())?)),
        }
    }
}
