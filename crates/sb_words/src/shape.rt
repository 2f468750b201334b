/// How an option stands among the words of its command.
#[derive(Clone, Copy, Debug, PartialEq, Eq)]
pub enum OptionKind {
    /// `--name value` or `--name=value`, which has to be there.
    Needed,
    /// `--name value` or `--name=value`, which may be left out.
    Optional,
    /// `--name`, which takes no value and may be left out.
    Flag,
}

/// An option of a command, by its name without the two dashes.
#[derive(Clone, Copy, Debug)]
pub struct OptionShape {
    pub name: &'static str,
    pub kind: OptionKind,
}

/// What a command takes after its name: options, and positional words or none.
#[derive(Clone, Copy, Debug)]
pub struct Shape {
    pub options: &'static [OptionShape],
    pub takes_positionals: bool,
}
