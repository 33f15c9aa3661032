//! Orders.

/// What is done beside the plain run: the flags `--every`, `--ops`, `--report` and `--trace`.
#[derive(Clone, Copy, Debug, PartialEq, Eq)]
pub struct Flags {
    /// Every component is checked in every pass.
    pub every: bool,
    /// The operations on the page are printed.
    pub ops: bool,
    /// What was checked is printed.
    pub report: bool,
    /// The steps of the compiled code are printed.
    pub trace: bool,
}

/// What the words ask for. The texts are the words' own.
#[derive(Clone, Copy, Debug, PartialEq, Eq)]
pub enum Order<'a> {
    /// `run [--every] [--ops] [--report] [--trace] APP EVENTS`: runs an application over a list of events.
    Run(Flags, &'a str, &'a str),
    /// `check APP`: checks the rules of an application.
    Check(&'a str),
    /// `compile APP`: prints the compiled code of an application.
    Compile(&'a str),
}
