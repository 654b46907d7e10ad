// The operand stack: one record, lent for change and passed from token to token.
ghost use Rattle.std.specs.Prelude.{◌≡◌, ◌+◌, ◌-◌, ◌<◌, ◌≤◌};
ghost use Rattle.expr.specs.Stack.{empty_stack, pushed_on, top_of, without_top};

// The first `depth` words are held. The depth stands first: so the compiled loop has fewer instructions.
#[derive(Drop)]
pub struct Stack {
    pub depth: usize,
    pub words: [u32; 17],
}

impl Stack {
    // No word is held.
    #[tactic(auto, unfolding(crate::specs::Stack::empty_stack))]
    pub fn new() -> Stack
        ensures { result ≡ empty_stack }
    {
        Stack {
            depth: 0,
            words: [0; 17],
        }
    }

    pub fn push(&mut self, w: u32)
        requires { self.old.depth < 17 }
        ensures { self.new ≡ pushed_on self.old w }
    {
        self.words[self.depth] = w;
        self.depth += 1;
    }

    pub fn pop(&mut self) -> u32
        requires { (0 < self.old.depth) × (self.old.depth ≤ 17) }
        ensures { (result ≡ top_of self.old) × (self.new ≡ without_top self.old) }
    {
        self.depth -= 1;
        self.words[self.depth]
    }
}
