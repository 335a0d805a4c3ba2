// The chain number that an instance keeps.
ghost use Rattle.std.specs.Prelude.{◌≡◌, ◌≤◌, ◌^◌, IfSome};
ghost use Rattle.wf_run.specs.Nodes.{chain_of};

/// A chain number, or none, in four bytes: `u32::MAX` stands for none.
#[derive(Clone, Copy, Drop)]
pub(crate) struct Chain(u32);

impl Chain {
    pub(crate) fn new(number: Option<u32>) -> Chain
        requires { IfSome number (λ c. c ≤ 2 ^ 24) }
        ensures { chain_of result ≡ number }
    {
        match number {
            Some(c) => Chain(c),
            None => Chain(u32::MAX),
        }
    }

    pub(crate) fn number(self) -> Option<u32>
        ensures { result ≡ chain_of self }
    {
        if self.0 == u32::MAX {
            return None;
        }
        Some(self.0)
    }
}
