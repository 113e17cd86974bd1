/// How much a plan declares.
#[derive(Clone, Copy, PartialEq, Eq, Debug, Default)]
pub struct Counts {
    /// The components.
    pub components: u64,
    /// The tasks of all components together.
    pub tasks: u64,
    /// The uses of all components together.
    pub uses: u64,
}
