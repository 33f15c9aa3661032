ghost use Rattle.std.specs.Prelude.{◌≡◌};

use crate::{Path, Step, Steps};

impl Path {
    /// The path of these steps, outermost first. It takes no memory.
    pub fn of(items: Vec<Step>) -> Path
        ensures { result ≡ items.items }
    {
        Path {
            steps: Steps::Own(items),
        }
    }

    /// The steps of the path, outermost first.
    pub fn items(&self) -> &[Step]
        ensures { result.now ≡ self.now }
    {
        match &self.steps {
            Steps::Own(items) => items.as_slice(),
            Steps::Shared(items) => items.as_slice(),
        }
    }
}
